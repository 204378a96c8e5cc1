// What a record is for: a state, a kind and a symbol, in this order.
ghost use Rattle.std.specs.Prelude.{◌≡◌};
ghost use Rattle.rules.specs.Table.{table_records};
ghost use Rattle.grammar.specs.Asked.{InRange};
ghost use Rattle.record.specs.Keys.{key_at};

// What a record is for, by which a table ascends. The kind is the byte that stands for it, which may be any in a table not yet checked.
#[derive(Clone, Copy, PartialEq, Eq)]
pub struct Key {
    pub state: usize,
    pub kind: usize,
    pub symbol: usize,
}

// What record i is for.
pub fn key_at(t: &[u8], i: usize) -> Key
    requires { InRange i t.now }
    ensures { result ≡ key_at (table_records t.now) i }
{
    Key {
        state: crate::records::state(t, i),
        kind: crate::records::kind(t, i),
        symbol: crate::records::symbol(t, i),
    }
}
