// The least sets from the beginning to the end: Eof for the start item of state 0, nothing for any other entry, and then the rounds.
ghost use Rattle.std.specs.Prelude.{◌≡◌, ◌≤◌};
ghost use Rattle.rules.specs.Limits.{max_states, max_entries};
ghost use Rattle.rules.specs.Records.{records};
ghost use Rattle.rules.specs.Grammar.{terminal_count};
ghost use Rattle.room.specs.Areas.{view};
ghost use Rattle.room.specs.Bounds.{LongEnough};
ghost use Rattle.states.specs.StatesIn.{first_of};
ghost use Rattle.least_steps.specs.Least.{least_of, OnlyLeast, LeastCleared};
ghost use Rattle.least_sets.specs.Steps.{Ready};
ghost use Rattle.least_sets.specs.Rounds.{begun_least, found_least};

use super::rounds::rounds;
use context_set::clear_columns;
use least_steps::give::{Receivers, give, least_slot};
use lookahead::put_eof;
use room::slots::hand_slot;
use rules::StateIndex;
use states::first_entry;

// Every entry has an empty least set.
fn clear_least(count: usize, work: &mut [u64])
    requires { LongEnough work.old × (count ≤ max_states) × (first_of (view work.old) count ≤ max_entries) }
    ensures { LeastCleared count (view work.old) (view work.new) }
{
    let entries = first_entry(work, StateIndex(count));
    let first = least_slot(0);
    clear_columns(work, entries, first);
}

// State 0's start item has Eof, every other entry nothing.
fn begin_least(g: &[u8], n: usize, count: usize, work: &mut [u64])
    requires { LongEnough work.old × Ready g.now count (view work.old) × (n ≡ terminal_count (records g.now)) }
    ensures work_after { least_of count work.new ≡ begun_least g.now count work.old }
    ensures only_least { OnlyLeast (view work.old) (view work.new) }
{
    clear_least(count, work);
    let hand = hand_slot();
    put_eof(work, hand, n);
    give(g, Receivers::Item(0), StateIndex(0), count, work);
}

// The least sets of all entries of the states, each in its slot.
pub fn least_sets(g: &[u8], n: usize, count: usize, work: &mut [u64])
    requires { LongEnough work.old × Ready g.now count (view work.old) × (n ≡ terminal_count (records g.now)) }
    ensures work_after { least_of count work.new ≡ found_least g.now count work.old }
    ensures only_least { OnlyLeast (view work.old) (view work.new) }
{
    begin_least(g, n, count, work);
    rounds(g, n, count, work);
}
