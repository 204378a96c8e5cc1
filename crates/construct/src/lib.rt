// Lane mode: merge.rs. A walk joins each successor of a state, or a clone of it, and goes on there. The number of states grows with each
// clone, so it is part of the answer. The grammar, the lane table's numbers, the number of states and the room are passed one by one: the
// number is another at each call and the room is lent for it, so a struct of them would be made anew each time.
#![tactic(auto)]

ghost use Rattle.std.specs.Prelude.{◌≡◌, ◌<◌};
ghost use Rattle.base.specs.Loops.{first_from};
ghost use Rattle.room.specs.Areas.{view};
ghost use Rattle.room.specs.Bounds.{LongEnough};
ghost use Rattle.groups.specs.Groups.{Grouped, OnlyClosure};
ghost use Rattle.groups.specs.MergeIn.{merge_in, table_of};
ghost use Rattle.construct.specs.Merges.{Mergeable};
ghost use Rattle.construct.specs.Joins.{joins_as_clone, FirstClone, Joins, JoinsNew};
ghost use Rattle.construct.specs.Walks.{Walks};

use clones::{clone_state, patch_links};
use conflicts::conflict_count;
use groups::{can_join, join_groups, origin};
use lane::Lanes;
use marks::{Successors, Walked, has, mark};
use rules::{BuildRefusal, StateIndex};
use states::{MAX_ENTRIES, MAX_STATES, end_entry, first_entry};

// What joining a successor gives: the state that stands in its place, and the number of states then.
#[derive(Clone, Copy)]
struct Joined {
    state: StateIndex,
    states: usize,
}

// State c is a clone of the successor, and joins with s.
fn clone_joins(
    lanes: Lanes,
    count: usize,
    s: StateIndex,
    successor: StateIndex,
    c: StateIndex,
    work: &mut [u64],
) -> bool
    requires { Grouped lanes count (view work.old) × LongEnough work.old × (s.0 < count) × (c.0 < count) }
    ensures value { result ≡ joins_as_clone (table_of lanes (view work.old)) (merge_in (view work.old) count) s.0 successor.0 c.0 }
    ensures only_closure { OnlyClosure (view work.old) (view work.new) }
{
    origin(work, c).0 == successor.0 && c.0 != successor.0 && can_join(lanes, count, s, c, work)
}

// The oldest clone of the successor that joins with s, if one does. Each test gathers columns in the room, so a `for` goes over the states
// and no `find`.
fn joining_clone(
    lanes: Lanes,
    count: usize,
    s: StateIndex,
    successor: StateIndex,
    work: &mut [u64],
) -> Option<StateIndex>
    requires { Grouped lanes count (view work.old) × LongEnough work.old × (s.0 < count) }
    ensures value { FirstClone (first_from (joins_as_clone (table_of lanes (view work.old)) (merge_in (view work.old) count) s.0 successor.0) count 0) count result }
    ensures only_closure { OnlyClosure (view work.old) (view work.new) }
{
    for c in 0..count {
        let state = StateIndex(c);
        if clone_joins(lanes, count, s, successor, state, work) {
            return Some(state);
        }
    }
    None
}

// A new clone of the successor is joined to s: 9 is tried before 10, and if the clone does not join either, the conflicts of all states
// are counted, it among them.
fn join_new(
    g: &[u8],
    lanes: Lanes,
    count: usize,
    s: StateIndex,
    successor: StateIndex,
    work: &mut [u64],
) -> Result<Joined, BuildRefusal>
    requires { Mergeable g.now lanes count (view work.old) × LongEnough work.old × (s.0 < count) × (successor.0 < count) }
    ensures { JoinsNew g.now lanes s.0 successor.0 count (view work.old) result (view work.new) }
{
    if MAX_STATES <= count {
        return Err(BuildRefusal::States);
    }
    let size = end_entry(work, successor) - first_entry(work, successor);
    let at = first_entry(work, StateIndex(count));
    if MAX_ENTRIES < at + size {
        return Err(BuildRefusal::Items);
    }
    clone_state(work, successor, count);
    let clone = StateIndex(count);
    let more = count + 1;
    if !can_join(lanes, more, s, clone, work) {
        let conflicts = conflict_count(g, lanes.terminals, more, work);
        return Err(BuildRefusal::Conflicts(conflicts));
    }
    join_groups(more, s, clone, work);
    patch_links(g, s, successor, clone, work);
    Ok(Joined {
        state: clone,
        states: more,
    })
}

// The first of the successor and its clones, oldest first, that joins with s; else a new clone. merge.rs: walk, the body of its loop
fn join_successor(
    g: &[u8],
    lanes: Lanes,
    count: usize,
    s: StateIndex,
    successor: StateIndex,
    work: &mut [u64],
) -> Result<Joined, BuildRefusal>
    requires { Mergeable g.now lanes count (view work.old) × LongEnough work.old × (s.0 < count) × (successor.0 < lanes.states) }
    ensures { Joins g.now lanes s.0 successor.0 count (view work.old) result (view work.new) }
{
    if can_join(lanes, count, s, successor, work) {
        join_groups(count, s, successor, work);
        return Ok(Joined {
            state: successor,
            states: count,
        });
    }
    if let Some(clone) = joining_clone(lanes, count, s, successor, work) {
        join_groups(count, s, clone, work);
        patch_links(g, s, successor, clone, work);
        return Ok(Joined {
            state: clone,
            states: count,
        });
    }
    join_new(g, lanes, count, s, successor, work)
}

// Depth first: into a joined successor before the next one is joined. How many states there are then. merge.rs: walk
pub fn walk(
    g: &[u8],
    lanes: Lanes,
    states: usize,
    state: StateIndex,
    work: &mut [u64],
) -> Result<usize, BuildRefusal>
    requires { Mergeable g.now lanes states (view work.old) × LongEnough work.old × (state.0 < states) }
    ensures { Walks g.now lanes state.0 states (view work.old) result (view work.new) }
{
    if has::<Walked>(work, (), state) {
        return Ok(states);
    }
    mark::<Walked>(work, (), state);
    let row = origin(work, state);
    let mut count = states;
    for next in 0..lanes.states {
        let successor = StateIndex(next);
        if !has::<Successors>(work, row, successor) {
            continue;
        }
        let joined = join_successor(g, lanes, count, state, successor, work)?;
        count = walk(g, lanes, joined.states, joined.state, work)?;
    }
    Ok(count)
}
