// The actions of the state at hand, in their area of the room. The room keeps numbers: 2 t is a shift of terminal t, 2 i + 1 a reduction
// by item i.
ghost use Rattle.std.specs.Prelude.{◌≡◌, ◌<◌, ◌^◌, get_or};
ghost use Rattle.room.specs.Areas.{view, put_action};
ghost use Rattle.room.specs.Bounds.{LongEnough, IsColumn};
ghost use Rattle.lane_table.specs.Numbers.{number_of};

use room::areas::{Actions, get, put};
use rules::ConflictIndex;

// The shift of a terminal, or the reduction by an item.
#[derive(Clone, Copy)]
pub enum Action {
    Shift(usize),
    Reduce(usize),
}

// The action in a column.
pub fn read_action(work: &[u64], column: ConflictIndex) -> Action
    requires { LongEnough work.now × IsColumn column }
    ensures { number_of result ≡ get_or (view work.now).actions column.0 0 }
{
    let number = get::<Actions>(work, column);
    let subject = (number / 2) as usize;
    if number % 2 == 1 {
        Action::Reduce(subject)
    } else {
        Action::Shift(subject)
    }
}

// An action becomes that in a column.
pub fn write_action(work: &mut [u64], column: ConflictIndex, action: Action)
    requires { LongEnough work.old × IsColumn column × (number_of action < 2 ^ 64) }
    ensures { view work.new ≡ put_action column.0 (number_of action) (view work.old) }
{
    let number = match action {
        Action::Shift(t) => 2 * t,
        Action::Reduce(i) => 2 * i + 1,
    };
    put::<Actions>(work, column, number as u64);
}
