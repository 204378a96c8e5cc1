// The trace of one action: lane/mod.rs, start_trace.
ghost use Rattle.std.specs.Prelude.{◌≤◌, ◌<◌};
ghost use Rattle.rules.specs.Limits.{max_states, max_columns};
ghost use Rattle.rules.specs.Lanes.{shift, reduce};
ghost use Rattle.room.specs.Areas.{view};
ghost use Rattle.room.specs.Bounds.{LongEnough};
ghost use Rattle.lookahead.specs.Sets.{IsToken};
ghost use Rattle.state_graph.specs.Links.{Linked};
ghost use Rattle.lane_table.specs.Actions.{action_of, ActionFits, Tracing, ActionTraced, ActionsTraced};
ghost use Rattle.lane_table.specs.Numbers.{number_of};
ghost use Rattle.lane.specs.Traces.{Traceable};

use super::area::{Action, read_action};
use super::clear::clear_visits;
use lane::Lanes;
use lane::table::add_lookahead;
use lane::trace::go_back;
use lookahead::{clear_set, put_single};
use room::slots::hand_slot;
use rules::{ConflictIndex, StateIndex};

// A shift enters its own terminal at the state. lane/mod.rs: start_trace
fn trace_shift(
    g: &[u8],
    lanes: Lanes,
    column: ConflictIndex,
    state: StateIndex,
    t: usize,
    work: &mut [u64],
)
    requires { LongEnough work.old × (state.0 < lanes.states) × (lanes.states ≤ max_states) × (column.0 < lanes.columns) × (lanes.columns ≤ max_columns) × IsToken t }
    ensures { ActionTraced g.now lanes column.0 state.0 (shift t) (view work.old) (view work.new) }
{
    let hand = hand_slot();
    put_single(work, hand, t);
    add_lookahead(work, state, column, hand);
}

// A reduction enters an empty set, then goes back from its completed item. lane/mod.rs: start_trace
fn trace_reduce(
    g: &[u8],
    lanes: Lanes,
    column: ConflictIndex,
    state: StateIndex,
    i: usize,
    work: &mut [u64],
)
    requires { Traceable g.now lanes column.0 state.0 i (view work.old) × LongEnough work.old }
    ensures { ActionTraced g.now lanes column.0 state.0 (reduce i) (view work.old) (view work.new) }
{
    clear_visits(lanes.states, work);
    let hand = hand_slot();
    clear_set(work, hand);
    add_lookahead(work, state, column, hand);
    go_back(g, lanes, column, state, i, work);
}

// An action in its column. lane/mod.rs: start_trace
fn trace_action(
    g: &[u8],
    lanes: Lanes,
    column: ConflictIndex,
    state: StateIndex,
    action: Action,
    work: &mut [u64],
)
    requires tracing { Tracing g.now lanes state.0 (view work.old) × Linked g.now lanes.states (view work.old) }
    requires long_enough { LongEnough work.old × (column.0 < lanes.columns) × ActionFits g.now (number_of action) }
    ensures { ActionTraced g.now lanes column.0 state.0 (action_of (number_of action)) (view work.old) (view work.new) }
{
    match action {
        Action::Shift(t) => trace_shift(g, lanes, column, state, t, work),
        Action::Reduce(i) => trace_reduce(g, lanes, column, state, i, work),
    }
}

// The actions of the area, each in its column. construct/mod.rs: build_lane_table
pub fn trace_actions(g: &[u8], lanes: Lanes, state: StateIndex, work: &mut [u64])
    requires { Tracing g.now lanes state.0 (view work.old) × Linked g.now lanes.states (view work.old) × LongEnough work.old }
    ensures { ActionsTraced g.now lanes state.0 (view work.old) (view work.new) }
{
    for c in 0..lanes.columns {
        let column = ConflictIndex(c);
        let action = read_action(work, column);
        trace_action(g, lanes, column, state, action, work);
    }
}
