// An answer as text: one line, without its end.
use crate::Said;
use std::fmt;

impl fmt::Display for Said {
    fn fmt<W: fmt::Write>(&self, f: &mut fmt::Formatter<W>) -> fmt::Result {
        match self {
            Said::Coded => f.write_str("coded"),
            Said::Built(states, records) => write!(f, "built {states} states {records} records"),
            Said::Refused(number, place) => write!(f, "refused {number} {place}"),
            Said::Accepted(steps, listed) => write!(f, "accepted {steps} {listed}"),
            Said::Stopped(number, place, steps, listed) => {
                write!(f, "refused {number} {place} {steps} {listed}")
            }
        }
    }
}
