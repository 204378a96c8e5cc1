// The rows of the lane table: table/mod.rs, columns, rows and beachhead_states.
ghost use Rattle.std.specs.Prelude.{◌≡◌, ◌≤◌, ◌<◌};
ghost use Rattle.rules.specs.Limits.{max_states, max_columns};
ghost use Rattle.rules.specs.Lanes.{pairwise_disjoint, rows_disjoint, is_successor, all_columns};
ghost use Rattle.room.specs.Areas.{view};
ghost use Rattle.room.specs.Bounds.{LongEnough, IsState};
ghost use Rattle.room.specs.Slots.{closure_slot};
ghost use Rattle.context_set.specs.Columns.{Columned};
ghost use Rattle.lane.specs.Table.{row_in};
ghost use Rattle.lane_table.specs.Actions.{table_of};
ghost use Rattle.lane_table.specs.Beachheads.{is_beachhead};

use context_set::{clear_columns, columns_disjoint, join_columns};
use lane::Lanes;
use marks::{Successors, has};
use room::areas::{Entered, get};
use room::slots::{closure_slot, row_slot};
use rules::{ConflictIndex, StateIndex};

// The row of a state has no token in two columns.
fn row_disjoint(width: usize, state: StateIndex, work: &[u64]) -> bool
    requires { LongEnough work.now × IsState state × (width ≤ max_columns) }
    ensures { result ≡ pairwise_disjoint (row_in (view work.now) width state.0).columns }
{
    columns_disjoint(work, width, row_slot(state, ConflictIndex(0)))
}

// No row has a token in two columns. table/mod.rs: rows
pub fn rows_disjoint(lanes: Lanes, work: &[u64]) -> bool
    requires { LongEnough work.now × (lanes.states ≤ max_states) × (lanes.columns ≤ max_columns) }
    ensures { result ≡ rows_disjoint (table_of lanes (view work.now)) }
{
    (0..lanes.states).all(|s| row_disjoint(lanes.columns, StateIndex(s), work))
}

// The state is somebody's successor.
fn is_successor(lanes: Lanes, state: StateIndex, work: &[u64]) -> bool
    requires { LongEnough work.now × IsState state × (lanes.states ≤ max_states) }
    ensures { result ≡ is_successor (table_of lanes (view work.now)) state.0 }
{
    (0..lanes.states).any(|p| has::<Successors>(work, StateIndex(p), state))
}

// A lane begins at the state: something was entered there, and it is nobody's successor. table/mod.rs: beachhead_states
pub fn is_beachhead(lanes: Lanes, state: StateIndex, work: &[u64]) -> bool
    requires { LongEnough work.now × (state.0 < lanes.states) × (lanes.states ≤ max_states) }
    ensures { result ≡ is_beachhead (table_of lanes (view work.now)) state.0 }
{
    get::<Entered>(work, state) != 0 && !is_successor(lanes, state, work)
}

// The columns joined over all states, into the slots of the closure. table/mod.rs: columns
pub fn all_columns(lanes: Lanes, work: &mut [u64])
    requires { LongEnough work.old × (0 < lanes.states) × (lanes.states ≤ max_states) × (lanes.columns ≤ max_columns) }
    ensures { Columned (closure_slot 0) lanes.columns (all_columns (table_of lanes (view work.old))) (view work.old) (view work.new) }
{
    let count = lanes.states;
    let width = lanes.columns;
    let joined = closure_slot(0);
    clear_columns(work, width, joined);
    for s in 0..count {
        let row = row_slot(StateIndex(s), ConflictIndex(0));
        join_columns(work, width, joined, row);
    }
}
