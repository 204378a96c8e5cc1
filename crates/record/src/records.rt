// What stands in the records of a table's bytes. Record i has the bytes from 8 * i on: bytes 0-1 state, 2 kind, 3 zero, 4-5 symbol,
// 6-7 target.
#![tactic(auto, using(crate::proofs::Bytes::record_at_lem, crate::proofs::Bytes::length_records), unfolding(rules::specs::Table::table_record_at))]

ghost use Rattle.std.specs.Prelude.{◌≡◌, ◌≤◌, length};
ghost use Rattle.rules.specs.Table.{table_records};
ghost use Rattle.rules.specs.Drive.{table_at};
ghost use Rattle.grammar.specs.Asked.{InRange, WholeRecords, max_number};

use grammar::records::RECORD;

// The kinds of a record, as the bytes that stand for them. `Kind` has them as an enum; a record that is not yet checked may have any byte there.
pub const SHIFT: usize = 0;

pub const GOTO: usize = 1;

pub const REDUCE: usize = 2;

// How many whole records the bytes have. Each function here reads one field where the format has it: a grammar's records have other fields at
// other places, so that those of `grammar::records` share no more with these than `number_at`.
pub fn record_count(t: &[u8]) -> usize
    ensures { (result ≡ length (table_records t.now)) × WholeRecords result t.now }
{
    t.len() / RECORD
}

// The state of record i.
pub fn state(t: &[u8], i: usize) -> usize
    requires { InRange i t.now }
    ensures { result ≡ (table_at (table_records t.now) i).state }
{
    grammar::records::number_at(t, RECORD * i)
}

// The kind of record i: 0 shift, 1 goto, 2 reduce.
pub fn kind(t: &[u8], i: usize) -> usize
    requires { InRange i t.now }
    ensures { result ≡ (table_at (table_records t.now) i).kind }
{
    usize::from(t[RECORD * i + 2])
}

// Byte 3 of record i, which is zero in a table without fault.
pub fn zero_byte(t: &[u8], i: usize) -> usize
    requires { InRange i t.now }
    ensures { result ≡ (table_at (table_records t.now) i).zero_byte }
{
    usize::from(t[RECORD * i + 3])
}

// The symbol of record i.
pub fn symbol(t: &[u8], i: usize) -> usize
    requires { InRange i t.now }
    ensures { result ≡ (table_at (table_records t.now) i).symbol }
{
    grammar::records::number_at(t, RECORD * i + 4)
}

// The target of record i: a state, or the production of a reduction.
pub fn target(t: &[u8], i: usize) -> usize
    requires { InRange i t.now }
    ensures { (result ≡ (table_at (table_records t.now) i).target) × (result ≤ max_number) }
{
    grammar::records::number_at(t, RECORD * i + 6)
}
