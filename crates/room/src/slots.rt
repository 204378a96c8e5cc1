// The slots of the token sets.
ghost use Rattle.std.specs.Prelude.{◌≡◌};
ghost use Rattle.room.specs.Bounds.{IsNonterminal, IsEntry, IsState, IsColumn};
ghost use Rattle.room.specs.Slots.{first_slot, closure_slot, entry_slot, row_slot, hand_slot};

use rules::{ConflictIndex, StateIndex};

// The slot of FIRST of nonterminal a.
pub fn first_slot(a: usize) -> usize
    requires { IsNonterminal a }
    ensures { result ≡ first_slot a }
{
    a
}

// The slot of what nonterminal a's productions have in the closure of the state at hand.
pub fn closure_slot(a: usize) -> usize
    requires { IsNonterminal a }
    ensures { result ≡ closure_slot a }
{
    64 + a
}

// The slot of an entry's set: its lookahead in canonical mode, its reduction's set in lane mode.
pub fn entry_slot(entry: usize) -> usize
    requires { IsEntry entry }
    ensures { result ≡ entry_slot entry }
{
    128 + entry
}

// The slot of a lane table's cell.
pub fn row_slot(state: StateIndex, column: ConflictIndex) -> usize
    requires { IsState state × IsColumn column }
    ensures { result ≡ row_slot state column }
{
    2176 + 16 * state.0 + column.0
}

// The slot of the set at hand.
pub fn hand_slot() -> usize
    ensures { result ≡ hand_slot }
{
    4224
}
