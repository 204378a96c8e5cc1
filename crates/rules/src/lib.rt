// What the calls of Splicepost answer: the enums and structs that definitions and code share.
// specs/Answers.antt gives the number and the place that document 01 has for each.
#![tactic(auto)]

ghost use Rattle.std.specs.Prelude.{◌≡◌};
ghost use Rattle.rules.specs.Modes.{GivesMode};
ghost use Rattle.rules.specs.declared.BuildRefusal.TheVariants.{Grammar};
ghost use Rattle.rules.specs.declared.DriveRefusal.TheVariants.{Grammar as NoGrammar};

// The number of a state.
#[derive(Clone, Copy, Debug, PartialEq, Eq)]
pub struct StateIndex(pub usize);

// The number of a column of a lane table.
#[derive(Clone, Copy)]
pub struct ConflictIndex(pub usize);

// Why bytes are no coded grammar.
#[derive(Clone, Copy, Debug, PartialEq, Eq)]
pub enum GrammarRefusal {
    Length,
    BadRecord(usize),
    OutOfSequence(usize),
    StartAgain(usize),
    NoProduction(usize),
    NoString(usize),
}

// Why the builder gives no table.
#[derive(Clone, Copy, Debug, PartialEq, Eq)]
pub enum BuildRefusal {
    Mode,
    WorkRoom,
    Grammar(GrammarRefusal),
    States,
    Items,
    Actions(StateIndex),
    Conflicts(usize),
    FinalCheck(StateIndex),
    TableRoom(usize),
}

impl From<GrammarRefusal> for BuildRefusal {
    ghost from_gives = { λ why refusal. refusal ≡ Grammar why };

    fn from(why: GrammarRefusal) -> BuildRefusal {
        BuildRefusal::Grammar(why)
    }
}

// How the builder makes the states.
#[derive(Clone, Copy, Debug, PartialEq, Eq)]
pub enum Mode {
    Lane,
    Canonical,
}

impl TryFrom<u64> for Mode {
    type Error = BuildRefusal;

    ghost try_from_gives = { GivesMode };

    fn try_from(number: u64) -> Result<Mode, BuildRefusal> {
        match number {
            0 => Ok(Mode::Lane),
            1 => Ok(Mode::Canonical),
            _ => Err(BuildRefusal::Mode),
        }
    }
}

// How large a built table is: the counts of its states and of its records.
#[derive(Clone, Copy, Debug, PartialEq, Eq)]
pub struct TableSize {
    pub states: usize,
    pub records: usize,
}

// How a run of the driver ends.
#[derive(Clone, Copy, Debug, PartialEq, Eq)]
pub enum RunEnd {
    Accepted,
    Rejected,
    Broken,
    ListFull,
    StackFull,
    StepLimit,
}

// A run's end, the token at which it came, the moves made and the productions listed.
#[derive(Clone, Copy, Debug, PartialEq, Eq)]
pub struct RunAnswer {
    pub end: RunEnd,
    pub place: usize,
    pub steps: usize,
    pub listed: usize,
}

// Why the driver makes no run.
#[derive(Clone, Copy, Debug, PartialEq, Eq)]
pub enum DriveRefusal {
    Grammar(GrammarRefusal),
    Table(usize),
    Token(usize),
}

impl From<GrammarRefusal> for DriveRefusal {
    ghost from_gives = { λ why refusal. refusal ≡ NoGrammar why };

    fn from(why: GrammarRefusal) -> DriveRefusal {
        DriveRefusal::Grammar(why)
    }
}
