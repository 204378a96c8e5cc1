// Groups of states: state_set.rs. Each state has the number of its group's head; the columns of a group are its members' rows, joined.
#![tactic(auto)]

ghost use Rattle.std.specs.Prelude.{◌≡◌, ◌+◌, ◌≤◌, ◌<◌};
ghost use Rattle.rules.specs.Limits.{max_states, max_columns};
ghost use Rattle.rules.specs.Merge.{can_join};
ghost use Rattle.room.specs.Areas.{view};
ghost use Rattle.room.specs.Bounds.{LongEnough, IsState};
ghost use Rattle.lane.specs.Table.{first_cell};
ghost use Rattle.context_set.specs.Columns.{columns_at, Columned};
ghost use Rattle.groups.specs.MergeIn.{origin_in, head_in, merge_in, table_of};
ghost use Rattle.groups.specs.Groups.{Rowed, Grouped, with_member, gathered, OnlyClosure, moved_in, Regrouped};

use context_set::{clear_columns, columns_disjoint, join_columns};
use lane::Lanes;
use room::areas::{Heads, Origins, get, put};
use room::slots::{closure_slot, row_slot};
use rules::{ConflictIndex, StateIndex};

// The state that this one is a clone of; of any other, itself. merge.rs: original_index
pub fn origin(work: &[u64], state: StateIndex) -> StateIndex
    requires { LongEnough work.now × IsState state }
    ensures { result.0 ≡ origin_in (view work.now) state.0 }
{
    StateIndex(get::<Origins>(work, state) as usize)
}

// The head of the state's group.
pub fn head(work: &[u64], state: StateIndex) -> usize
    requires { LongEnough work.now × IsState state }
    ensures { result ≡ head_in (view work.now) state.0 }
{
    get::<Heads>(work, state) as usize
}

// The row of the state, if it is a member of the group, is joined into the columns from the slot `at` on.
fn join_member(width: usize, group: usize, state: StateIndex, at: usize, work: &mut [u64])
    requires long_enough { LongEnough work.old × IsState state × (at + width ≤ first_cell) × (width ≤ max_columns) }
    requires state_bound { origin_in (view work.old) state.0 < max_states }
    ensures { Columned at width (with_member (view work.old) width group state.0 (columns_at (view work.old) at width)) (view work.old) (view work.new) }
{
    if head(work, state) != group {
        return;
    }
    let original = origin(work, state);
    let row = row_slot(original, ConflictIndex(0));
    join_columns(work, width, at, row);
}

// The columns of a group, its members' rows joined, are gathered from the slot `at` on. merge.rs: context_set
pub fn group_columns(width: usize, count: usize, group: usize, at: usize, work: &mut [u64])
    requires { Rowed count (view work.old) × LongEnough work.old × (at + width ≤ first_cell) × (width ≤ max_columns) }
    ensures { Columned at width (gathered width count group (view work.old)) (view work.old) (view work.new) }
{
    clear_columns(work, width, at);
    for s in 0..count {
        join_member(width, group, StateIndex(s), at, work);
    }
}

// The groups of s and t are one, or their columns stay disjoint when they are joined. merge.rs: union, the test
pub fn can_join(lanes: Lanes, count: usize, s: StateIndex, t: StateIndex, work: &mut [u64]) -> bool
    requires { Grouped lanes count (view work.old) × LongEnough work.old × (s.0 < count) × (t.0 < count) }
    ensures value { result ≡ can_join (table_of lanes (view work.old)) (merge_in (view work.old) count) s.0 t.0 }
    ensures only_closure { OnlyClosure (view work.old) (view work.new) }
{
    let one = head(work, s);
    let other = head(work, t);
    if one == other {
        return true;
    }
    let width = lanes.columns;
    let at = closure_slot(0);
    let beside = closure_slot(16);
    group_columns(width, count, one, at, work);
    group_columns(width, count, other, beside, work);
    join_columns(work, width, at, beside);
    columns_disjoint(work, width, at)
}

// The state comes to the group `to` if it is in the group `from`.
fn move_head(work: &mut [u64], state: StateIndex, from: usize, to: usize)
    requires { LongEnough work.old × IsState state }
    ensures { view work.new ≡ moved_in from to state.0 (view work.old) }
{
    if head(work, state) != from {
        return;
    }
    put::<Heads>(work, state, to as u64);
}

// The group of t comes to the group of s. merge.rs: union
pub fn join_groups(count: usize, s: StateIndex, t: StateIndex, work: &mut [u64])
    requires { LongEnough work.old × (count ≤ max_states) × (s.0 < count) × (t.0 < count) }
    ensures { Regrouped s.0 t.0 count (view work.old) (view work.new) }
{
    let to = head(work, s);
    let from = head(work, t);
    for k in 0..count {
        move_head(work, StateIndex(k), from, to);
    }
}
