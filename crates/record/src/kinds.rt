// The kinds of a record, and the bytes that stand for them.
ghost use Rattle.std.specs.Prelude.{◌≡◌};
ghost use Rattle.record.specs.Kinds.{kind_number, NamesKind};

use crate::records::{GOTO, REDUCE, SHIFT};

// What a state does by a record.
#[derive(Clone, Copy, PartialEq, Eq, PartialOrd, Ord)]
pub enum Kind {
    Shift,
    Goto,
    Reduce,
}

// A byte that stands for no kind.
#[derive(Clone, Copy, PartialEq, Eq)]
pub struct NoKind(pub usize);

impl From<Kind> for usize {
    ghost from_gives = { λ kind byte. byte ≡ kind_number kind };

    fn from(kind: Kind) -> usize {
        match kind {
            Kind::Shift => SHIFT,
            Kind::Goto => GOTO,
            Kind::Reduce => REDUCE,
        }
    }
}

impl TryFrom<usize> for Kind {
    type Error = NoKind;

    ghost try_from_gives = { NamesKind };

    fn try_from(byte: usize) -> Result<Self, NoKind> {
        match byte {
            SHIFT => Ok(Kind::Shift),
            GOTO => Ok(Kind::Goto),
            REDUCE => Ok(Kind::Reduce),
            _ => Err(NoKind(byte)),
        }
    }
}
