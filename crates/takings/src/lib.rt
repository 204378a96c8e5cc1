// What the reductions of a state take: context_set/mod.rs, apply. The actions lie in their area, and the column of each in a slot.
#![tactic(auto)]

ghost use Rattle.std.specs.Prelude.{◌≡◌, ◌+◌, ◌≤◌, ◌<◌};
ghost use Rattle.base.specs.Lists.{place_of};
ghost use Rattle.base.specs.Loops.{place_below};
ghost use Rattle.rules.specs.Limits.{max_columns};
ghost use Rattle.rules.specs.Lanes.{is_reduce};
ghost use Rattle.room.specs.Areas.{view};
ghost use Rattle.room.specs.Bounds.{LongEnough, IsState, IsEntry};
ghost use Rattle.room.specs.Slots.{entry_slot};
ghost use Rattle.lane_table.specs.Actions.{action_at, actions_in};
ghost use Rattle.takings.specs.Takes.{Enclosed, taken_at, Taken};

use lane_table::area::{Action, read_action};
use lookahead::copy_set;
use room::slots::entry_slot;
use rules::{ConflictIndex, StateIndex};
use states::{end_entry, first_entry, item};

// The action of column c is the reduction by item i.
#[tactic(auto, using(crate::proofs::Places::reduces))]
fn is_reduction(work: &[u64], i: usize, c: usize) -> bool
    requires { LongEnough work.now × (c < max_columns) }
    ensures { result ≡ is_reduce i (action_at (view work.now) c) }
{
    match read_action(work, ConflictIndex(c)) {
        Action::Reduce(item) => i == item,
        Action::Shift(_) => false,
    }
}

// The column of the reduction by item i, if it is an action.
fn column_of(work: &[u64], width: usize, i: usize) -> Option<usize>
    requires { LongEnough work.now × (width ≤ max_columns) }
    ensures { result ≡ place_below width (place_of (is_reduce i) (actions_in (view work.now) width)) }
{
    (0..width).find(|c| is_reduction(work, i, *c))
}

// The entry at place k takes the column of its reduction, if that is an action.
#[tactic(auto, using(crate::proofs::Sweep::take_none))]
fn take_column(work: &mut [u64], width: usize, k: usize, at: usize)
    requires { LongEnough work.old × (width ≤ max_columns) × IsEntry k × (at + width ≤ entry_slot 0) }
    ensures { view work.new ≡ taken_at width at k (view work.old) }
{
    let i = item(work, k);
    if let Some(c) = column_of(work, width, i) {
        copy_set(work, entry_slot(k), at + c);
    }
}

// Each reduction of the state takes its column of those that lie from the slot `at` on. context_set/mod.rs: apply
pub fn take_columns(work: &mut [u64], width: usize, state: StateIndex, at: usize)
    requires { LongEnough work.old × (width ≤ max_columns) × IsState state × Enclosed (view work.old) state.0 × (at + width ≤ entry_slot 0) }
    ensures { Taken width at state.0 (view work.old) (view work.new) }
{
    let first = first_entry(work, state);
    let end = end_entry(work, state);
    for k in first..end {
        take_column(work, width, k, at);
    }
}
