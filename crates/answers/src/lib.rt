// What document 01 says of every answer: a refusal's number and place, the counts of a table, the steps and the list length of a run.
#![tactic(auto)]

ghost use Rattle.std.specs.Prelude.{◌≡◌, Err};
ghost use Rattle.rules.specs.Answers.{grammar_refusal_said, grammar_said, build_refusal_said, build_said, run_end_said, drive_said};
ghost use Rattle.answers.specs.Meant.{meant};

use rules::{BuildRefusal, DriveRefusal, GrammarRefusal, RunAnswer, RunEnd, TableSize};

mod display;

// An answer in document 01's numbers.
#[derive(Clone, Copy, Debug, PartialEq, Eq)]
pub enum Said {
    // the bytes are a coded grammar
    Coded,
    // counts of states and records
    Built(usize, usize),
    // number and place
    Refused(u64, usize),
    // steps and list length
    Accepted(usize, usize),
    // number and place of a run's end, steps and list length
    Stopped(u64, usize, usize, usize),
}

// Of bytes that are no coded grammar.
impl From<GrammarRefusal> for Said {
    ghost from_gives = { λ why said. grammar_refusal_said why ≡ meant said };

    #[tactic(auto, unfolding(rules::specs::Answers::grammar_refusal_said))]
    fn from(why: GrammarRefusal) -> Said {
        match why {
            GrammarRefusal::Length => Said::Refused(3, 0),
            GrammarRefusal::BadRecord(record) => Said::Refused(4, record),
            GrammarRefusal::OutOfSequence(record) => Said::Refused(5, record),
            GrammarRefusal::StartAgain(production) => Said::Refused(6, production),
            GrammarRefusal::NoProduction(nonterminal) => Said::Refused(7, nonterminal),
            GrammarRefusal::NoString(nonterminal) => Said::Refused(8, nonterminal),
        }
    }
}

// Of the check of a grammar's bytes.
impl From<Result<(), GrammarRefusal>> for Said {
    ghost from_gives = { λ answer said. grammar_said answer ≡ meant said };

    #[tactic(auto, unfolding(rules::specs::Answers::grammar_said))]
    fn from(answer: Result<(), GrammarRefusal>) -> Said {
        match answer {
            Ok(()) => Said::Coded,
            Err(why) => Said::from(why),
        }
    }
}

// Of a table that is not built.
impl From<BuildRefusal> for Said {
    ghost from_gives = { λ why said. build_refusal_said why ≡ meant said };

    #[tactic(auto, unfolding(rules::specs::Answers::build_refusal_said))]
    fn from(why: BuildRefusal) -> Said {
        match why {
            BuildRefusal::Mode => Said::Refused(1, 0),
            BuildRefusal::WorkRoom => Said::Refused(2, 0),
            BuildRefusal::Grammar(fault) => Said::from(fault),
            BuildRefusal::States => Said::Refused(9, 0),
            BuildRefusal::Items => Said::Refused(10, 0),
            BuildRefusal::Actions(state) => Said::Refused(11, state.0),
            BuildRefusal::Conflicts(count) => Said::Refused(12, count),
            BuildRefusal::FinalCheck(state) => Said::Refused(13, state.0),
            BuildRefusal::TableRoom(wanted) => Said::Refused(14, wanted),
        }
    }
}

// Of the builder.
impl From<Result<TableSize, BuildRefusal>> for Said {
    ghost from_gives = { λ answer said. build_said answer ≡ meant said };

    #[tactic(auto, unfolding(rules::specs::Answers::build_said))]
    fn from(answer: Result<TableSize, BuildRefusal>) -> Said {
        match answer {
            Ok(size) => Said::Built(size.states, size.records),
            Err(why) => Said::from(why),
        }
    }
}

// Of a run.
impl From<RunAnswer> for Said {
    ghost from_gives = { λ run said. run_end_said run.end run.place run.steps run.listed ≡ meant said };

    #[tactic(auto, unfolding(rules::specs::Answers::run_end_said))]
    fn from(run: RunAnswer) -> Said {
        match run.end {
            RunEnd::Accepted => Said::Accepted(run.steps, run.listed),
            RunEnd::Rejected => Said::Stopped(17, run.place, run.steps, run.listed),
            RunEnd::Broken => Said::Stopped(18, run.place, run.steps, run.listed),
            RunEnd::ListFull => Said::Stopped(19, run.place, run.steps, run.listed),
            RunEnd::StackFull => Said::Stopped(20, run.place, run.steps, run.listed),
            RunEnd::StepLimit => Said::Stopped(21, run.place, run.steps, run.listed),
        }
    }
}

// Of a run that is not made.
impl From<DriveRefusal> for Said {
    ghost from_gives = { λ why said. drive_said (Err why) ≡ meant said };

    #[tactic(auto, unfolding(rules::specs::Answers::drive_said))]
    fn from(why: DriveRefusal) -> Said {
        match why {
            DriveRefusal::Grammar(fault) => Said::from(fault),
            DriveRefusal::Table(record) => Said::Refused(15, record),
            DriveRefusal::Token(token) => Said::Refused(16, token),
        }
    }
}

// Of the driver.
impl From<Result<RunAnswer, DriveRefusal>> for Said {
    ghost from_gives = { λ answer said. drive_said answer ≡ meant said };

    #[tactic(auto, unfolding(rules::specs::Answers::drive_said))]
    fn from(answer: Result<RunAnswer, DriveRefusal>) -> Said {
        match answer {
            Ok(run) => Said::from(run),
            Err(why) => Said::from(why),
        }
    }
}
