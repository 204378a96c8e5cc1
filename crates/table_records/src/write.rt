// The records of the states written into the table room, one behind the other.
ghost use Rattle.std.specs.Prelude.{◌≡◌, ◌*◌, ◌≤◌, length};
ghost use Rattle.rules.specs.Records.{records};
ghost use Rattle.rules.specs.Grammar.{terminal_count, nonterminal_count};
ghost use Rattle.rules.specs.Table.{record_bytes, table_bytes, table_of};
ghost use Rattle.rules.specs.Rooms.{overwritten};
ghost use Rattle.grammar.specs.Asked.{Faultless};
ghost use Rattle.room.specs.Areas.{view};
ghost use Rattle.room.specs.Bounds.{LongEnough};
ghost use Rattle.states.specs.StatesIn.{states_in, Placed};
ghost use Rattle.record.specs.Kinds.{kind_number};
ghost use Rattle.table_counts.specs.Sinks.{record_of};
ghost use Rattle.table_records.specs.Written.{wrote, fits};
ghost use Rattle.table_records.specs.Rooms.{written_laws};

use grammar::records::RECORD;
use record::kinds::Kind;
use table_counts::sinks::{Record, Sink};
use table_counts::walk::take_records;

// The byte of a record's kind.
fn kind_byte(kind: Kind) -> u8
    ensures { result ≡ kind_number kind }
{
    match kind {
        Kind::Shift => 0,
        Kind::Goto => 1,
        Kind::Reduce => 2,
    }
}

// The eight bytes of a record, at the front of what is lent: bytes 0-1 state, 2 kind, 3 zero, 4-5 symbol, 6-7 target.
fn write_record(bytes: &mut [u8], one: Record)
    requires { 8 ≤ length bytes.old }
    ensures { bytes.new ≡ overwritten (record_bytes (record_of one)) bytes.old }
{
    let state = one.state.0.to_le_bytes();
    let symbol = one.symbol.to_le_bytes();
    let target = one.target.to_le_bytes();
    bytes[..RECORD].copy_from_slice(&[
        state[0],
        state[1],
        kind_byte(one.kind),
        0,
        symbol[0],
        symbol[1],
        target[0],
        target[1],
    ]);
}

// Writes the records into the room: record i has the eight bytes from 8 * i on.
struct Written;

impl Sink for Written {
    ghost taken = { wrote };

    ghost holds = { fits };

    ghost laws = { written_laws };

    fn take(room: &mut [u8], at: usize, one: Record) -> usize {
        write_record(&mut room[RECORD * at..], one);
        at + 1
    }
}

// The records of all states.
pub fn write_table(g: &[u8], n: usize, m: usize, count: usize, work: &[u64], table: &mut [u8])
    requires faultless { Faultless g.now × (n ≡ terminal_count (records g.now)) × (m ≡ nonterminal_count (records g.now)) }
    requires long_enough { LongEnough work.now × Placed (length (records g.now)) count (view work.now) }
    requires count_in_bounds { 8 * length (table_of (records g.now) (states_in (view work.now) count)) ≤ length table.old }
    ensures { table.new ≡ overwritten (table_bytes (table_of (records g.now) (states_in (view work.now) count))) table.old }
{
    take_records::<Written>(g, n, m, count, work, table);
}
