// The final check of lane mode: the lowest state where a reduction lacks a token of its least set, or that has a conflict.
#![tactic(auto)]

ghost use Rattle.std.specs.Prelude.{◌≡◌, ◌<◌};
ghost use Rattle.rules.specs.Records.{records};
ghost use Rattle.rules.specs.Grammar.{terminal_count};
ghost use Rattle.room.specs.Areas.{view};
ghost use Rattle.room.specs.Bounds.{LongEnough, IsEntry};
ghost use Rattle.least_steps.specs.Least.{least_of, OnlyLeast};
ghost use Rattle.least_sets.specs.Rounds.{found_least};
ghost use Rattle.least_sets.specs.Steps.{Ready};
ghost use Rattle.final_check.specs.Fails.{Recorded, entry_lacks, has_conflict, fails_in, lowest_failing, failing};

use conflicts::conflicts_at;
use grammar::items::at_end;
use least_sets::begin::least_sets;
use least_steps::give::least_slot;
use lookahead::{lacking_end, lacks};
use room::slots::entry_slot;
use rules::StateIndex;
use states::{end_entry, first_entry, item};

// The entry at place k is a reduction, and lacks a token of its least set.
fn entry_lacks(g: &[u8], k: usize, work: &[u64]) -> bool
    requires { LongEnough work.now × IsEntry k × Recorded g.now work.now k }
    ensures { result ≡ entry_lacks g.now work.now k }
{
    let own = entry_slot(k);
    let least = least_slot(k);
    at_end(g, item(work, k))
        && (0..lacking_end(work, own, least)).any(|t| lacks(work, own, least, t))
}

// State s has a conflict.
fn has_conflict(g: &[u8], n: usize, state: StateIndex, count: usize, work: &[u64]) -> bool
    requires { LongEnough work.now × Ready g.now count (view work.now) × (state.0 < count) × (n ≡ terminal_count (records g.now)) }
    ensures { result ≡ has_conflict g.now work.now state.0 }
{
    conflicts_at(g, n, state, work) != 0
}

// The state fails, by the least sets in the room: an entry of it lacks a token, or it has a conflict.
fn fails(g: &[u8], n: usize, state: StateIndex, count: usize, work: &[u64]) -> bool
    requires { LongEnough work.now × Ready g.now count (view work.now) × (state.0 < count) × (n ≡ terminal_count (records g.now)) }
    ensures { result ≡ fails_in g.now count work.now state.0 }
{
    let first = first_entry(work, state);
    let end = end_entry(work, state);
    (first..end).any(|k| entry_lacks(g, k, work)) || has_conflict(g, n, state, count, work)
}

// The lowest state that fails, by the least sets in the room.
fn first_failing(g: &[u8], n: usize, count: usize, work: &[u64]) -> Option<StateIndex>
    requires { LongEnough work.now × Ready g.now count (view work.now) × (n ≡ terminal_count (records g.now)) }
    ensures { result ≡ lowest_failing g.now count work.now }
{
    (0..count)
        .find(|&s| fails(g, n, StateIndex(s), count, work))
        .map(StateIndex)
}

// The lowest state that fails, if one does. n is the grammar's number of terminals. The least sets are left in their slots.
pub fn final_check(g: &[u8], n: usize, count: usize, work: &mut [u64]) -> Option<StateIndex>
    requires { LongEnough work.old × Ready g.now count (view work.old) × (n ≡ terminal_count (records g.now)) }
    ensures value { result ≡ failing g.now count work.old }
    ensures work_after { least_of count work.new ≡ found_least g.now count work.old }
    ensures only_least { OnlyLeast (view work.old) (view work.new) }
{
    least_sets(g, n, count, work);
    first_failing(g, n, count, work)
}
