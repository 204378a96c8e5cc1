// What stands in the records of the bytes. Record i has the bytes from 8 * i on: bytes 0-1 production, 2-3 position, 4 kind, 5 zero,
// 6-7 symbol.
#![tactic(auto, using(crate::proofs::Laws::record_at_lem), unfolding(rules::specs::Records::record_at, rules::specs::Records::number_at, rules::specs::Records::is_terminal))]

ghost use Rattle.std.specs.Prelude.{◌≡◌, ◌+◌, ◌≤◌, length};
ghost use Rattle.rules.specs.Records.{at, records, number_at, is_terminal};
ghost use Rattle.grammar.specs.Asked.{InRange, WholeRecords, max_number};

// The bytes of a record.
pub const RECORD: usize = 8;

// The kind of a terminal.
pub const TERMINAL: usize = 1;

// How many whole records the bytes have.
#[tactic(auto, using(rules::proofs::Laws::length_records))]
pub fn record_count(g: &[u8]) -> usize
    ensures { (result ≡ length (records g.now)) × WholeRecords result g.now }
{
    g.len() / RECORD
}

// The little-endian number of two bytes, the first of which is byte i.
pub fn number_at(g: &[u8], i: usize) -> usize
    requires { i + 2 ≤ length g.now }
    ensures { (result ≡ number_at g.now i) × (result ≤ max_number) }
{
    usize::from(g[i]) + 256 * usize::from(g[i + 1])
}

// The production of record i. Each number of a record has a function of its own: its name says more than the byte it begins at.
pub fn production(g: &[u8], i: usize) -> usize
    requires { InRange i g.now }
    ensures { (result ≡ (at (records g.now) i).production) × (result ≤ max_number) }
{
    number_at(g, RECORD * i)
}

// The position of record i.
pub fn position(g: &[u8], i: usize) -> usize
    requires { InRange i g.now }
    ensures { (result ≡ (at (records g.now) i).position) × (result ≤ max_number) }
{
    number_at(g, RECORD * i + 2)
}

// The kind of record i: 0 nonterminal, 1 terminal. It is a number and no enum, since a faulty record may have any byte there.
pub fn kind(g: &[u8], i: usize) -> usize
    requires { InRange i g.now }
    ensures { result ≡ (at (records g.now) i).kind }
{
    usize::from(g[RECORD * i + 4])
}

// Byte 5 of record i, which is zero in a coded grammar.
pub fn zero_byte(g: &[u8], i: usize) -> usize
    requires { InRange i g.now }
    ensures { result ≡ (at (records g.now) i).zero_byte }
{
    usize::from(g[RECORD * i + 5])
}

// The symbol of record i.
pub fn symbol(g: &[u8], i: usize) -> usize
    requires { InRange i g.now }
    ensures { (result ≡ (at (records g.now) i).symbol) × (result ≤ max_number) }
{
    number_at(g, RECORD * i + 6)
}

// Record i names a terminal.
pub fn is_terminal(g: &[u8], i: usize) -> bool
    requires { InRange i g.now }
    ensures { result ≡ is_terminal (at (records g.now) i) }
{
    kind(g, i) == TERMINAL
}
