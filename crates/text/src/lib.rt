// The text of answers and of tables: an answer is a line, and each record of a table is one: state, kind (s shift, g goto, r reduce),
// symbol, target. Each function answers whether all of its text was written: it stops at the first write that fails, and says why that failed.
#![tactic(auto)]

ghost use Rattle.std.specs.Prelude.{◌*◌, ◌≤◌, length};
ghost use Rattle.grammar.specs.Asked.{InRange};
ghost use Rattle.text.specs.Tables.{RecordsWithin};

use answers::Said;
use rules::{BuildRefusal, TableSize};
use std::io;

// Writes the line of an answer.
pub fn write_said(to: &impl Print, said: Said) -> io::Result<()> {
    to.println(said)
}

// The letter of a record's kind, which is a number here: nobody has checked the byte.
fn kind_letter(kind: usize) -> char {
    match kind {
        record::records::SHIFT => 's',
        record::records::GOTO => 'g',
        _ => 'r',
    }
}

// Writes the line of record i of a table.
fn write_record(to: &impl Print, table: &[u8], i: usize) -> io::Result<()>
    requires { InRange i table.now }
{
    let state = record::records::state(table, i);
    let kind = kind_letter(record::records::kind(table, i));
    let symbol = record::records::symbol(table, i);
    let target = record::records::target(table, i);
    to.println(format_args!("{state} {kind} {symbol} {target}"))
}

// Writes the lines of the first `count` records of a table.
pub fn write_records(to: &impl Print, table: &[u8], count: usize) -> io::Result<()>
    requires { 8 * count ≤ length table.now }
{
    for i in 0..count {
        write_record(to, table, i)?;
    }
    Ok(())
}

// Writes the answer of the builder, and behind that of a built table its records.
pub fn write_built(
    to: &impl Print,
    answer: Result<TableSize, BuildRefusal>,
    table: &[u8],
) -> io::Result<()>
    requires { RecordsWithin answer table.now }
{
    write_said(to, Said::from(answer))?;
    match answer {
        Ok(size) => write_records(to, table, size.records),
        Err(why) => Ok(()),
    }
}

// Says what could not be read or written, and why.
pub fn fail(to: &impl Print, what: &[u8], why: io::Error) {
    let _ = to.write_all(what);
    let _ = to.println(format_args!(": {why}"));
}
