// Rooms on the stack, whose length the caller's type says.
ghost use Rattle.std.specs.Prelude.{◌≡◌, length};

// The room for a table. One without fault has at most 128 times 127 records: at each state a goto for each of 64 nonterminals, and an
// action for each of 62 terminals and Eof.
pub const TABLE_ROOM: usize = 131072;

// A room of N cells, each the same.
pub fn filled<T: Copy, const N: usize>(cell: T) -> [T; N]
    ensures { N ≡ length result }
{
    [cell; N]
}
