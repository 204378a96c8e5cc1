// The actions of a state that are in any conflict: lane_table/mod.rs, conflicting_actions. `first` and `end` are the places of its entries.
#![tactic(auto)]

ghost use Rattle.std.specs.Prelude.{◌≡◌, ◌≤◌, ◌<◌};
ghost use Rattle.rules.specs.Records.{records};
ghost use Rattle.rules.specs.Grammar.{terminal_count};
ghost use Rattle.room.specs.Areas.{view};
ghost use Rattle.room.specs.Bounds.{FewTerminals};
ghost use Rattle.lookahead.specs.Sets.{IsToken};
ghost use Rattle.states.specs.StatesIn.{entry_in};
ghost use Rattle.conflicts.specs.Counts.{Readable};
ghost use Rattle.actions.specs.Conflicting.{reduces_on, meets_other, shift_conflicts_in, meets_other_in, reduce_conflicts_in};

use conflicts::held_shifts;
use grammar::items::at_end;
use lookahead::{contains, is_disjoint};
use room::slots::entry_slot;
use states::item;

pub mod put;

// The entry at place k, which lies before `end`, is a reduction with terminal t in its set.
#[tactic(auto, using(states::proofs::States::set_of_lem), unfolding(crate::specs::Conflicting::reduces_on))]
fn reduces_on(g: &[u8], t: usize, k: usize, end: usize, work: &[u64]) -> bool
    requires { Readable g.now work.now k end × (k < end) × IsToken t }
    ensures { result ≡ reduces_on (records g.now) t (entry_in (view work.now) k) }
{
    at_end(g, item(work, k)) && contains(work, entry_slot(k), t)
}

// The shift of terminal t is in a conflict: a reduction has it in its set.
pub fn shift_conflicts(g: &[u8], t: usize, first: usize, end: usize, work: &[u64]) -> bool
    requires { Readable g.now work.now first end × IsToken t }
    ensures { result ≡ shift_conflicts_in (records g.now) (view work.now) first end t }
{
    (first..end).any(|k| reduces_on(g, t, k, end, work))
}

// The entry at place j is a reduction by another item than that at place k, and their sets meet.
#[tactic(auto, using(states::proofs::States::set_of_lem), unfolding(crate::specs::Conflicting::meets_other))]
fn meets_other(g: &[u8], k: usize, j: usize, first: usize, end: usize, work: &[u64]) -> bool
    requires { Readable g.now work.now first end × (first ≤ k) × (k < end) × (first ≤ j) × (j < end) }
    ensures { result ≡ meets_other (records g.now) (entry_in (view work.now) k) (entry_in (view work.now) j) }
{
    at_end(g, item(work, j))
        && item(work, k) != item(work, j)
        && !is_disjoint(work, entry_slot(k), entry_slot(j))
}

// A reduction by another item than that at place k has a set that meets its own.
fn meets_some(g: &[u8], k: usize, first: usize, end: usize, work: &[u64]) -> bool
    requires { Readable g.now work.now first end × (first ≤ k) × (k < end) }
    ensures { result ≡ meets_other_in (records g.now) (view work.now) first end k }
{
    (first..end).any(|j| meets_other(g, k, j, first, end, work))
}

// The reduction at place k is in a conflict: with a terminal that the state shifts, or with a reduction by another item.
pub fn reduce_conflicts(
    g: &[u8],
    n: usize,
    k: usize,
    first: usize,
    end: usize,
    work: &[u64],
) -> bool
    requires { Readable g.now work.now first end × (first ≤ k) × (k < end) × FewTerminals n × (n ≡ terminal_count (records g.now)) }
    ensures { result ≡ reduce_conflicts_in (records g.now) (view work.now) first end k }
{
    held_shifts(g, n, k, first, end, work) != 0 || meets_some(g, k, first, end, work)
}
