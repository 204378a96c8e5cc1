// What an earlier trace or an earlier lane table left is cleared.
ghost use Rattle.std.specs.Prelude.{◌≤◌};
ghost use Rattle.rules.specs.Limits.{max_states, max_columns};
ghost use Rattle.room.specs.Areas.{view};
ghost use Rattle.room.specs.Bounds.{LongEnough, IsState};
ghost use Rattle.lane_table.specs.Clears.{VisitsCleared, RowCleared, RowsCleared};

use context_set::clear_columns;
use marks::{Successors, Visited, clear};
use room::areas::{Entered, put};
use room::slots::row_slot;
use rules::{ConflictIndex, StateIndex};

// No item is visited in the first states.
pub fn clear_visits(count: usize, work: &mut [u64])
    requires { LongEnough work.old × (count ≤ max_states) }
    ensures { VisitsCleared count (view work.old) (view work.new) }
{
    for s in 0..count {
        clear::<Visited>(work, StateIndex(s));
    }
}

// The row of a state is empty. table/mod.rs: new, for one state
fn clear_row(state: StateIndex, width: usize, work: &mut [u64])
    requires { LongEnough work.old × IsState state × (width ≤ max_columns) }
    ensures { RowCleared width state.0 (view work.old) (view work.new) }
{
    put::<Entered>(work, state, 0);
    clear::<Successors>(work, state);
    let at = row_slot(state, ConflictIndex(0));
    clear_columns(work, width, at);
}

// The rows of the first states are empty. table/mod.rs: new
pub fn clear_rows(count: usize, width: usize, work: &mut [u64])
    requires { LongEnough work.old × (count ≤ max_states) × (width ≤ max_columns) }
    ensures { RowsCleared width count (view work.old) (view work.new) }
{
    for s in 0..count {
        clear_row(StateIndex(s), width, work);
    }
}
