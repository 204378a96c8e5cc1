// What one record of a table may hold and where it may stand, for a grammar of so many terminals, nonterminals and productions.
ghost use Rattle.std.specs.Prelude.{◌≡◌};
ghost use Rattle.rules.specs.Table.{table_records};
ghost use Rattle.rules.specs.Drive.{table_at, reduces_shifted};
ghost use Rattle.grammar.specs.Asked.{InRange};
ghost use Rattle.record.specs.Search.{Searchable};
ghost use Rattle.table_check.specs.Faults.{bad_symbol_by, bad_target_by, bad_alone, out_of_order, misplaced, shifted_before};

use record::keys::Key;
use record::kinds::Kind;
use record::records::{REDUCE, SHIFT};

// The limit of document 01 on states. `states` has it too: what the driver runs on rests on none of the builder's crates.
const MAX_STATES: usize = 128;

// How many terminals, nonterminals and productions a grammar has.
#[derive(Clone, Copy)]
pub struct Sizes {
    pub terminals: usize,
    pub nonterminals: usize,
    pub productions: usize,
}

// The symbol of record i: a shift's is no terminal, a goto's no nonterminal, a reduction's neither a terminal nor Eof.
#[tactic(auto, unfolding(crate::specs::Faults::bad_symbol_by))]
fn bad_symbol(t: &[u8], i: usize, sizes: Sizes) -> bool
    requires { InRange i t.now }
    ensures { result ≡ bad_symbol_by sizes.terminals sizes.nonterminals (table_at (table_records t.now) i) }
{
    let symbol = record::records::symbol(t, i);
    match Kind::try_from(record::records::kind(t, i)) {
        Ok(Kind::Shift) => sizes.terminals <= symbol,
        Ok(Kind::Goto) => sizes.nonterminals <= symbol,
        Ok(Kind::Reduce) => sizes.terminals < symbol,
        Err(_) => sizes.terminals < symbol,
    }
}

// The target of record i is no production, or a state over 127.
#[tactic(auto, unfolding(crate::specs::Faults::bad_target_by))]
fn bad_target(t: &[u8], i: usize, sizes: Sizes) -> bool
    requires { InRange i t.now }
    ensures { result ≡ bad_target_by sizes.productions (table_at (table_records t.now) i) }
{
    let target = record::records::target(t, i);
    if record::records::kind(t, i) == REDUCE {
        sizes.productions <= target
    } else {
        MAX_STATES <= target
    }
}

// Record i has a fault of its own: byte 3, kind, state, symbol or target.
#[tactic(auto, unfolding(crate::specs::Faults::bad_alone))]
fn bad_alone(t: &[u8], i: usize, sizes: Sizes) -> bool
    requires { InRange i t.now }
    ensures { result ≡ bad_alone sizes.terminals sizes.nonterminals sizes.productions (table_at (table_records t.now) i) }
{
    record::records::zero_byte(t, i) != 0
        || record::records::kind(t, i) > REDUCE
        || record::records::state(t, i) >= MAX_STATES
        || bad_symbol(t, i, sizes)
        || bad_target(t, i, sizes)
}

// Record i does not ascend from the one before it.
#[tactic(auto, using(crate::proofs::Ways::by_order), unfolding(crate::specs::Faults::out_of_order))]
fn out_of_order(t: &[u8], i: usize) -> bool
    requires { InRange i t.now }
    ensures { result ≡ out_of_order (table_records t.now) i }
{
    i != 0 && !record::search::before(t, i - 1, record::keys::key_at(t, i))
}

// Record i has a fault of its own, or does not ascend.
#[tactic(auto, unfolding(crate::specs::Faults::misplaced))]
pub fn misplaced(t: &[u8], i: usize, sizes: Sizes) -> bool
    requires { InRange i t.now }
    ensures { result ≡ misplaced sizes.terminals sizes.nonterminals sizes.productions (table_records t.now) i }
{
    bad_alone(t, i, sizes) || out_of_order(t, i)
}

// Record i is a reduction on a token that a record before it shifts.
#[tactic(auto, unfolding(crate::specs::Faults::shifted_before))]
pub fn shifted_before(t: &[u8], i: usize) -> bool
    requires { InRange i t.now × Searchable i t.now }
    ensures { result ≡ shifted_before (table_records t.now) i }
{
    let own = record::keys::key_at(t, i);
    own.kind == REDUCE && record::search::find(t, i, Key { kind: SHIFT, ..own }).is_some()
}

// Record i is a reduction on a token that its state shifts.
#[tactic(auto, unfolding(rules::specs::Drive::reduces_shifted))]
pub fn reduces_shifted(t: &[u8], i: usize) -> bool
    requires { InRange i t.now }
    ensures { result ≡ reduces_shifted (table_records t.now) (table_at (table_records t.now) i) }
{
    let own = record::keys::key_at(t, i);
    let shift = Key { kind: SHIFT, ..own };
    let count = record::records::record_count(t);
    own.kind == REDUCE
        && (0..count).any(
            |j|
                requires { InRange j t.now }
            { record::search::is_for(t, j, shift) },
        )
}
