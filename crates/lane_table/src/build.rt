// The lane table of a state: construct/mod.rs, build_lane_table.
ghost use Rattle.room.specs.Areas.{view};
ghost use Rattle.room.specs.Bounds.{LongEnough};
ghost use Rattle.lane_table.specs.Actions.{Tracing, LaneTableBuilt};

use super::action::trace_actions;
use super::clear::clear_rows;
use lane::Lanes;
use rules::StateIndex;
use state_graph::link_states;

// The lane table of the state, with the actions of the area, each in its column. construct/mod.rs: build_lane_table
pub fn build_lane_table(g: &[u8], lanes: Lanes, state: StateIndex, work: &mut [u64])
    requires { Tracing g.now lanes state.0 (view work.old) × LongEnough work.old }
    ensures { LaneTableBuilt g.now lanes state.0 (view work.old) (view work.new) }
{
    link_states(g, lanes.states, work);
    clear_rows(lanes.states, lanes.columns, work);
    trace_actions(g, lanes, state, work);
}
