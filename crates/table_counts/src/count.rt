// How many records the states have.
ghost use Rattle.std.specs.Prelude.{◌≡◌, ◌≤◌, length};
ghost use Rattle.rules.specs.Records.{records};
ghost use Rattle.rules.specs.Grammar.{terminal_count, nonterminal_count};
ghost use Rattle.rules.specs.Table.{table_of};
ghost use Rattle.grammar.specs.Asked.{Faultless};
ghost use Rattle.room.specs.Areas.{view};
ghost use Rattle.room.specs.Bounds.{LongEnough};
ghost use Rattle.states.specs.StatesIn.{states_in, Placed};
ghost use Rattle.table_counts.specs.Records.{max_records};
ghost use Rattle.table_counts.specs.Sinks.{counted, countable, counted_laws};

use super::sinks::{Record, Sink};
use super::walk::take_records;

// Counts the records, and leaves the room alone.
struct Counted;

impl Sink for Counted {
    ghost taken = { counted };

    ghost holds = { countable };

    ghost laws = { counted_laws };

    fn take(room: &mut [u8], at: usize, one: Record) -> usize {
        at + 1
    }
}

// The records of all states.
pub fn count_records(g: &[u8], n: usize, m: usize, count: usize, work: &[u64]) -> usize
    requires faultless { Faultless g.now × (n ≡ terminal_count (records g.now)) × (m ≡ nonterminal_count (records g.now)) }
    requires long_enough { LongEnough work.now × Placed (length (records g.now)) count (view work.now) }
    ensures { (result ≡ length (table_of (records g.now) (states_in (view work.now) count))) × (result ≤ max_records) }
{
    take_records::<Counted>(g, n, m, count, work, &mut [])
}
