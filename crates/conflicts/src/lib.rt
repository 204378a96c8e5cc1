// The conflict count: lookahead.rs, conflicts. Each reduction is held against the terminals that its state shifts, and against the
// reductions behind it. `first` and `end` are the places of a state's entries. `conflicts_at` and `conflict_count` add in loops, each turn with
// its bound: `sum` would ask beforehand that all of it fits.
#![tactic(auto)]

ghost use Rattle.std.specs.Prelude.{◌≡◌, ◌≤◌, ◌<◌, length};
ghost use Rattle.rules.specs.Limits.{max_entries};
ghost use Rattle.rules.specs.Records.{records};
ghost use Rattle.rules.specs.Grammar.{terminal_count};
ghost use Rattle.rules.specs.States.{conflicts_at, conflict_count};
ghost use Rattle.grammar.specs.Asked.{Faultless, InRange};
ghost use Rattle.room.specs.Areas.{view};
ghost use Rattle.room.specs.Bounds.{IsEntry};
ghost use Rattle.states.specs.StatesIn.{entry_in};
ghost use Rattle.room.specs.Bounds.{LongEnough, IsState, FewTerminals};
ghost use Rattle.lookahead.specs.Sets.{IsToken};
ghost use Rattle.states.specs.StatesIn.{state_in, states_in, PlacedAt, Placed};
ghost use Rattle.conflicts.specs.Counts.{Readable, is_shifted_in, is_held_in, held_shifts_in, meets_in, meeting_in, conflicts_in, max_of_entry, max_of_state};

use grammar::items::{at_end, before_terminal};
use lookahead::{contains, is_disjoint};
use room::slots::entry_slot;
use rules::StateIndex;
use states::{end_entry, first_entry, item};

// One of the entries stands before terminal t.
pub fn is_shifted(g: &[u8], t: usize, first: usize, end: usize, work: &[u64]) -> bool
    requires { Readable g.now work.now first end }
    ensures { result ≡ is_shifted_in (records g.now) (view work.now) first end t }
{
    (first..end).any(
        |k|
            requires { LongEnough work.now × IsEntry k × InRange (entry_in (view work.now) k).item g.now }
        { before_terminal(g, t, item(work, k)) },
    )
}

// Terminal t is shifted and in the set of the entry at place k.
fn is_held(g: &[u8], t: usize, k: usize, first: usize, end: usize, work: &[u64]) -> bool
    requires { Readable g.now work.now first end × (k < end) × IsToken t }
    ensures { result ≡ is_held_in (records g.now) (view work.now) first end k t }
{
    contains(work, entry_slot(k), t) && is_shifted(g, t, first, end, work)
}

// How many of the shifted terminals are in the set of the entry at place k.
pub fn held_shifts(g: &[u8], n: usize, k: usize, first: usize, end: usize, work: &[u64]) -> usize
    requires { Readable g.now work.now first end × (k < end) × FewTerminals n × (n ≡ terminal_count (records g.now)) }
    ensures { (result ≡ held_shifts_in (records g.now) (view work.now) first end k) × (result ≤ n) }
{
    (0..n)
        .filter(|t| is_held(g, *t, k, first, end, work))
        .count()
}

// The entry at place j is a reduction whose set meets that of the entry at place k.
fn meets(g: &[u8], k: usize, j: usize, end: usize, work: &[u64]) -> bool
    requires { Readable g.now work.now k end × (k ≤ j) × (j < end) }
    ensures { result ≡ meets_in (records g.now) (view work.now) k j }
{
    at_end(g, item(work, j)) && !is_disjoint(work, entry_slot(k), entry_slot(j))
}

// How many of the reductions behind the entry at place k have sets that meet its own.
fn meeting(g: &[u8], k: usize, end: usize, work: &[u64]) -> usize
    requires { Readable g.now work.now k end × (k < end) }
    ensures { (result ≡ meeting_in (records g.now) (view work.now) k end) × (result ≤ max_entries) }
{
    let behind = k + 1;
    (behind..end).filter(|j| meets(g, k, *j, end, work)).count()
}

// The conflicts of the entry at place k with shifts and with the reductions behind it.
fn conflicts_of(g: &[u8], n: usize, k: usize, first: usize, end: usize, work: &[u64]) -> usize
    requires { Readable g.now work.now first end × (first ≤ k) × (k < end) × FewTerminals n × (n ≡ terminal_count (records g.now)) }
    ensures { (result ≡ conflicts_in (records g.now) (view work.now) first end k) × (result ≤ max_of_entry) }
{
    if !at_end(g, item(work, k)) {
        return 0;
    }
    held_shifts(g, n, k, first, end, work) + meeting(g, k, end, work)
}

// The conflicts of a state. n is the grammar's number of terminals.
pub fn conflicts_at(g: &[u8], n: usize, state: StateIndex, work: &[u64]) -> usize
    requires faultless { Faultless g.now × (n ≡ terminal_count (records g.now)) }
    requires long_enough { LongEnough work.now × IsState state × PlacedAt (length (records g.now)) (view work.now) state.0 }
    ensures { (result ≡ conflicts_at (records g.now) (state_in (view work.now) state.0)) × (result ≤ max_of_state) }
{
    let first = first_entry(work, state);
    let end = end_entry(work, state);
    let mut count: usize = 0;
    for k in first..end {
        count += conflicts_of(g, n, k, first, end, work);
    }
    count
}

// The conflicts of all states as they stand.
pub fn conflict_count(g: &[u8], n: usize, count: usize, work: &[u64]) -> usize
    requires faultless { Faultless g.now × (n ≡ terminal_count (records g.now)) }
    requires long_enough { LongEnough work.now × Placed (length (records g.now)) count (view work.now) }
    ensures { result ≡ conflict_count (records g.now) (states_in (view work.now) count) }
{
    let mut conflicts: usize = 0;
    for s in 0..count {
        conflicts += conflicts_at(g, n, StateIndex(s), work);
    }
    conflicts
}
