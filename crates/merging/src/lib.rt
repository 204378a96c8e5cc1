// The merge of a visit: merge.rs, and construct/mod.rs, resolve_inconsistencies. The lane table of the visited state lies in the room, and
// so do its actions.
#![tactic(auto)]

ghost use Rattle.std.specs.Prelude.{◌≤◌, ◌<◌, ◌≡◌};
ghost use Rattle.rules.specs.Limits.{max_states};
ghost use Rattle.room.specs.Areas.{view};
ghost use Rattle.room.specs.Bounds.{LongEnough, IsState};
ghost use Rattle.construct.specs.Merges.{Mergeable};
ghost use Rattle.merging.specs.Begins.{begun_at, Begun};
ghost use Rattle.merging.specs.Takes.{TakesGroup, TakesClone, TakesAll};
ghost use Rattle.merging.specs.Visits.{Resolvable, WalksAll, MergesRows, ResolvesBy};

use conflicts::conflict_count;
use construct::walk;
use context_set::columns_disjoint;
use groups::{group_columns, head, origin};
use lane::Lanes;
use lane_table::rows::{all_columns, is_beachhead, rows_disjoint};
use marks::clear;
use room::areas::{Heads, Origins, put};
use room::slots::closure_slot;
use rules::{BuildRefusal, StateIndex};
use takings::take_columns;

// The state is no clone, and a group of its own.
fn begin_state(state: StateIndex, work: &mut [u64])
    requires { LongEnough work.old × IsState state }
    ensures { view work.new ≡ begun_at state.0 (view work.old) }
{
    put::<Origins>(work, state, state.0 as u64);
    put::<Heads>(work, state, state.0 as u64);
}

// No state is a clone, each is a group of its own, and none is walked. merge.rs: new
pub fn begin_merge(count: usize, work: &mut [u64])
    requires { LongEnough work.old × (count ≤ max_states) }
    ensures { Begun count (view work.old) (view work.new) }
{
    clear::<marks::Walked>(work, ());
    for s in 0..count {
        begin_state(StateIndex(s), work);
    }
}

// The state takes the columns of its group.
fn take_group(g: &[u8], lanes: Lanes, count: usize, state: StateIndex, work: &mut [u64])
    requires { Mergeable g.now lanes count (view work.old) × LongEnough work.old × (state.0 < count) }
    ensures { TakesGroup lanes state.0 count (view work.old) (view work.new) }
{
    let width = lanes.columns;
    let at = closure_slot(0);
    let group = head(work, state);
    group_columns(width, count, group, at, work);
    take_columns(work, width, state, at);
}

// State t takes the columns of its group if it is a clone of the state.
#[tactic(auto, using(crate::proofs::Takers::no_clone, crate::proofs::Takers::clone_takes))]
fn take_clone(
    g: &[u8],
    lanes: Lanes,
    count: usize,
    state: StateIndex,
    t: StateIndex,
    work: &mut [u64],
)
    requires { Mergeable g.now lanes count (view work.old) × LongEnough work.old × (t.0 < count) }
    ensures { TakesClone lanes state.0 t.0 count (view work.old) (view work.new) }
{
    if origin(work, t).0 == state.0 && t.0 != state.0 {
        take_group(g, lanes, count, t, work);
    }
}

// The inconsistent state and its clones, oldest first, take the columns of their groups. merge.rs: patch_target_starts
pub fn take_all(g: &[u8], lanes: Lanes, count: usize, state: StateIndex, work: &mut [u64])
    requires { Mergeable g.now lanes count (view work.old) × LongEnough work.old × (state.0 < count) }
    ensures { TakesAll lanes state.0 count (view work.old) (view work.new) }
{
    take_group(g, lanes, count, state, work);
    for t in 0..count {
        take_clone(g, lanes, count, state, StateIndex(t), work);
    }
}

// The walks that begin at the beachheads, by number, as long as none refuses. merge.rs: start, from each
pub fn walk_beachheads(g: &[u8], lanes: Lanes, work: &mut [u64]) -> Result<usize, BuildRefusal>
    requires { Mergeable g.now lanes lanes.states (view work.old) × LongEnough work.old }
    ensures { WalksAll g.now lanes (view work.old) result (view work.new) }
{
    let mut count = lanes.states;
    for next in 0..lanes.states {
        let state = StateIndex(next);
        if !is_beachhead(lanes, state, work) {
            continue;
        }
        count = walk(g, lanes, count, state, work)?;
    }
    Ok(count)
}

// The states are merged by the rows of the lane table. A row that overlaps within itself ends in 12.
// construct/mod.rs: resolve_inconsistencies, behind attempt_lalr
pub fn merge_rows(
    g: &[u8],
    lanes: Lanes,
    state: StateIndex,
    work: &mut [u64],
) -> Result<usize, BuildRefusal>
    requires { Resolvable g.now lanes state.0 (view work.old) × LongEnough work.old }
    ensures { MergesRows g.now lanes state.0 (view work.old) result (view work.new) }
{
    let states = lanes.states;
    if !rows_disjoint(lanes, work) {
        let conflicts = conflict_count(g, lanes.terminals, states, work);
        return Err(BuildRefusal::Conflicts(conflicts));
    }
    begin_merge(states, work);
    let count = walk_beachheads(g, lanes, work)?;
    take_all(g, lanes, count, state, work);
    Ok(count)
}

// The state's conflicts are resolved by its lane table: if the columns, joined over all states, are disjoint, each reduction takes its
// column, else the states are merged. construct/mod.rs: resolve_inconsistencies, with attempt_lalr
pub fn resolve_by(
    g: &[u8],
    lanes: Lanes,
    state: StateIndex,
    work: &mut [u64],
) -> Result<usize, BuildRefusal>
    requires { Resolvable g.now lanes state.0 (view work.old) × LongEnough work.old }
    ensures { ResolvesBy g.now lanes state.0 (view work.old) result (view work.new) }
{
    let width = lanes.columns;
    all_columns(lanes, work);
    let at = closure_slot(0);
    if columns_disjoint(work, width, at) {
        take_columns(work, width, state, at);
        return Ok(lanes.states);
    }
    merge_rows(g, lanes, state, work)
}
