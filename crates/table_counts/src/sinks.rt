// What becomes of the records of the states: a sink takes them one behind the other, and counts them or writes them into a room.
ghost use Rattle.std.specs.Prelude.{ℕ, ◌≡◌, ◌+◌, [], ◌∷◌, List};
ghost use Rattle.rules.specs.Table.{TableRecord};
ghost use Rattle.table_counts.specs.Sinks.{record_of, SinkLaws, Took};

use record::kinds::Kind;
use rules::StateIndex;

// A record: in the state, on the symbol, to the target, which is a state or the production that is reduced.
#[derive(Clone, Copy)]
pub struct Record {
    pub state: StateIndex,
    pub kind: Kind,
    pub symbol: usize,
    pub target: usize,
}

// `take` is given the number of the records before this one, and returns the number of those up to it.
pub trait Sink {
    ghost taken: { ℕ → List TableRecord → List ℕ → List ℕ };

    ghost holds: { ℕ → List ℕ → Type 0 };

    fn take(room: &mut [u8], at: usize, one: Record) -> usize
        requires { holds (at + 1) room.old }
        ensures { Took taken (record_of one ∷ []) at room.old room.new result };

    ghost laws: { SinkLaws taken holds };
}
