// The cells of the lane table: table/mod.rs. The successors of its rows are the marks `marks::Successors`.
ghost use Rattle.std.specs.Prelude.{◌≡◌};
ghost use Rattle.room.specs.Areas.{view};
ghost use Rattle.room.specs.Bounds.{LongEnough, IsState, IsColumn, IsSlot};
ghost use Rattle.lookahead.specs.Sets.{set_at};
ghost use Rattle.lane.specs.Changes.{tokens_entered};

use lookahead::join_into;
use room::areas::{Entered, put};
use room::slots::row_slot;
use rules::{ConflictIndex, StateIndex};

// The tokens of the slot `from` are entered in the cell. table/mod.rs: add_lookahead
pub fn add_lookahead(work: &mut [u64], state: StateIndex, column: ConflictIndex, from: usize)
    requires { LongEnough work.old × IsState state × IsColumn column × IsSlot from }
    ensures { view work.new ≡ tokens_entered state.0 column.0 (set_at (view work.old) from) (view work.old) }
{
    put::<Entered>(work, state, 1);
    let cell = row_slot(state, column);
    join_into(work, cell, from);
}
