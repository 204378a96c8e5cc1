// Runs the builder on the cases of standard input, in rooms of the lengths that each case gives, and writes two lines for each: its name
// and what document 01 says of the answer; then how many bytes of the table room were written and how many numbers of the work room are
// zero. What is not as it was behind them is said to be changed. tools/build_cases.py makes the cases and the lines that are expected.
//
// A case is one byte, the length of its name; the name; one byte, the mode; two bytes, the numbers of the work room; three bytes, the
// bytes of the table room; two bytes, the length of the grammar; the grammar. Numbers are little-endian.
#![tactic(auto)]

ghost use Rattle.std.specs.Prelude.{◌≡◌, ◌+◌, ◌≤◌, ◌<◌, length, IfOk};

use answers::Said;
use input::rooms::{TABLE_ROOM, filled};
use std::io;

// The most that a case can lend, and what lies in the rooms before the call: no byte of a record and no number that is zero.
const WORK_ROOM: usize = 65535;

const BYTE: u8 = 255;

const NUMBER: u64 = 7;

// How many bytes of the table room were written, from its front on: those behind are as they were.
fn written(table: &[u8]) -> usize {
    table
        .iter()
        .rposition(|byte| *byte != BYTE)
        .map_or(0, |last| last + 1)
}

// How many numbers of the work room are zero, from its front on.
fn zeros(work: &[u64]) -> usize {
    work.iter()
        .position(|number| *number != 0)
        .unwrap_or(work.len())
}

// A number of the work room from a place on is not as it was.
fn changed(work: &[u64], from: usize) -> bool {
    work.iter().skip(from).any(|number| *number != NUMBER)
}

// Writes what was left in the rooms.
fn write_rooms(to: &impl Print, table: &[u8], work: &[u64]) -> io::Result<()> {
    let bytes = written(table);
    let count = zeros(work);
    let behind = if changed(work, count) {
        ", changed behind them"
    } else {
        ""
    };
    to.println(format_args!(
        "  table room: {bytes} bytes written; work room: {count} numbers zero{behind}"
    ))
}

// Runs the builder in these rooms and writes the lines of the case behind its name. A mode is what the case says, be it none.
fn run_in_rooms(
    to: &impl Print,
    mode: u64,
    grammar: &[u8],
    table: &mut [u8],
    work: &mut [u64],
) -> io::Result<()> {
    let answer = builder::build(mode, grammar, table, work);
    text::write_said(to, Said::from(answer))?;
    write_rooms(to, table, work)
}

// The same in rooms of these lengths.
fn run(
    to: &impl Print,
    mode: u64,
    grammar: &[u8],
    table_size: usize,
    work_size: usize,
) -> io::Result<()> {
    if TABLE_ROOM < table_size {
        return to.write_all(b"more table room than there is\n");
    }
    if WORK_ROOM < work_size {
        return to.write_all(b"more work room than there is\n");
    }
    let mut table: [u8; TABLE_ROOM] = filled(BYTE);
    let mut work: [u64; WORK_ROOM] = filled(NUMBER);
    run_in_rooms(
        to,
        mode,
        grammar,
        &mut table[..table_size],
        &mut work[..work_size],
    )
}

// The number of two bytes from a place on. Of `u16::from_le_bytes` the bound was not proved.
fn number(cases: &[u8], at: usize) -> usize
    requires { at + 2 ≤ length cases.now }
    ensures { result < 65536 }
{
    usize::from(cases[at]) + 256 * usize::from(cases[at + 1])
}

// Runs the builder on the grammar, in the mode and in rooms of the lengths that stand from a place on.
fn run_described(to: &impl Print, cases: &[u8], at: usize, grammar: &[u8]) -> io::Result<()>
    requires { at + 6 ≤ length cases.now }
{
    let mode = u64::from(cases[at]);
    let work_size = number(cases, at + 1);
    let table_size = number(cases, at + 3) + 65536 * usize::from(cases[at + 5]);
    run(to, mode, grammar, table_size, work_size)
}

// Says that the input ends within a case; the list's end.
fn cut_short(to: &impl Print, cases: &[u8]) -> io::Result<usize>
    ensures { IfOk result (λ end. end ≡ length cases.now) }
{
    to.write_all(b"cut short\n")?;
    Ok(cases.len())
}

// Runs the case that begins at a byte and gives the place of the next; the list's end if the case is cut short.
fn run_case(to: &impl Print, cases: &[u8], at: usize) -> io::Result<usize>
    requires { at < length cases.now }
    ensures { IfOk result (λ next. (at < next) × (next ≤ length cases.now)) }
{
    let name = at + 1;
    let rooms = name + usize::from(cases[at]);
    if cases.len() < rooms + 8 {
        return cut_short(to, cases);
    }
    let grammar = rooms + 8;
    let next = grammar + number(cases, rooms + 6);
    if cases.len() < next {
        return cut_short(to, cases);
    }
    to.write_all(&cases[name..rooms])?;
    to.write_all(b": ")?;
    run_described(to, cases, rooms, &cases[grammar..next])?;
    Ok(next)
}

// Runs the cases. Each gives the place of the next, so no range goes through them; a loop shared by the programs would have to ask of its
// closure what `run_case` promises.
fn run_cases(to: &impl Print, cases: &[u8]) -> io::Result<()> {
    let mut at = 0;
    while at < cases.len() {
        at = run_case(to, cases, at)?;
    }
    Ok(())
}

// The cases are read at once, 65,536 bytes of them at most; more than that is not run, and said to be left over.
fn main(rt: HostRuntime) -> io::Result<()> {
    let mut space = [0u8; 65536];
    let file = input::files::read(&mut rt.stdin(), &mut space)?;
    run_cases(&rt, &space[..file.size])?;
    if file.longer {
        rt.write_all(b"input left over\n")?;
    }
    Ok(())
}
