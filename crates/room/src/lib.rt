// The work room: its areas, the slots of its token sets, and clearing it.
// The room is a slice that the caller lends, and each function asks that it is long enough: a type with that for its invariant would ask more
// of the callers of public functions than a slice does.
#![tactic(auto)]

ghost use Rattle.std.specs.Prelude.{◌≡◌};
ghost use Rattle.rules.specs.Limits.{limits};
ghost use Rattle.rules.specs.Rooms.{cleared};
ghost use Rattle.room.specs.Bounds.{LongEnough};

pub mod areas;
pub mod slots;

// The numbers of the room that the builder takes.
pub const WORK: usize = 8192;

// These become zero, and the rest is untouched.
pub fn clear(work: &mut [u64])
    requires { LongEnough work.old }
    ensures { work.new ≡ cleared limits work.old }
{
    work[..WORK].fill(0);
}
