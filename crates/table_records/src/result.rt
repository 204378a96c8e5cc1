// The end of the builder's call, once the states are built: refusal 14, or the table.
ghost use Rattle.std.specs.Prelude.{◌≡◌, length};
ghost use Rattle.rules.specs.Records.{records};
ghost use Rattle.rules.specs.Grammar.{terminal_count, nonterminal_count};
ghost use Rattle.grammar.specs.Asked.{Faultless};
ghost use Rattle.room.specs.Areas.{view};
ghost use Rattle.room.specs.Bounds.{LongEnough};
ghost use Rattle.states.specs.StatesIn.{Placed};
ghost use Rattle.table_records.specs.Result.{TableGiven};

use super::write::write_table;
use grammar::records::RECORD;
use rules::{BuildRefusal, TableSize};
use table_counts::count::count_records;

// The records of all states written into the table room; if they do not fit, 14 with the records wanted, and no byte is touched.
pub fn write_states(
    g: &[u8],
    n: usize,
    m: usize,
    count: usize,
    work: &[u64],
    table: &mut [u8],
) -> Result<TableSize, BuildRefusal>
    requires faultless { Faultless g.now × (n ≡ terminal_count (records g.now)) × (m ≡ nonterminal_count (records g.now)) }
    requires long_enough { LongEnough work.now × Placed (length (records g.now)) count (view work.now) }
    ensures { TableGiven g.now work.now count table.old table.new result }
{
    let wanted = count_records(g, n, m, count, work);
    if table.len() < RECORD * wanted {
        return Err(BuildRefusal::TableRoom(wanted));
    }
    write_table(g, n, m, count, work, table);
    Ok(TableSize {
        states: count,
        records: wanted,
    })
}
