// Runs examples 2 to 6 of document 01 and writes a line for each: its number, `accepted` or `refused` with document 01's numbers, then the
// cells of the stack and those of the list. Each cell is 9 before the call.
#![tactic(auto)]

use answers::Said;
use std::io;

// Writes a word and the cells of a room.
fn write_cells(to: &impl Print, word: &[u8], cells: &[u16]) -> io::Result<()> {
    to.write_all(word)?;
    for cell in cells {
        to.print(format_args!(" {cell}"))?;
    }
    Ok(())
}

// Runs an example in the rooms that are lent.
fn run_example(
    to: &impl Print,
    name: &[u8],
    grammar: &[u8],
    table: &[u8],
    tokens: &[u8],
    limit: u64,
    stack: &mut [u16],
    list: &mut [u16],
) -> io::Result<()> {
    to.write_all(name)?;
    let answer = driver::drive(grammar, table, tokens, limit, stack, list);
    to.write_all(b": ")?;
    to.print(Said::from(answer))?;
    write_cells(to, b", stack", stack)?;
    write_cells(to, b", list", list)?;
    to.write_all(b"\n")
}

// Runs an example in rooms for four numbers each.
fn run_in_four(
    to: &impl Print,
    name: &[u8],
    grammar: &[u8],
    table: &[u8],
    tokens: &[u8],
    limit: u64,
) -> io::Result<()> {
    let mut stack = [9u16; 4];
    let mut list = [9u16; 4];
    run_example(
        to, name, grammar, table, tokens, limit, &mut stack, &mut list,
    )
}

// Examples 2 to 5, with the grammar and the table of example 1.
fn run_first(to: &impl Print, grammar: &[u8], table: &[u8]) -> io::Result<()> {
    run_in_four(to, b"2", grammar, table, b"\x00", 9)?;
    run_in_four(to, b"3", grammar, table, b"", 9)?;
    run_in_four(to, b"4", grammar, table, b"\x00\x00", 9)?;
    run_in_four(to, b"5, limit 2", grammar, table, b"\x00", 2)?;
    let mut one = [9u16; 1];
    let mut four = [9u16; 4];
    run_example(
        to,
        b"5, stack room 1",
        grammar,
        table,
        b"\x00",
        9,
        &mut one,
        &mut four,
    )?;
    let mut stack = [9u16; 4];
    let mut list = [9u16; 1];
    run_example(
        to,
        b"5, list room 1",
        grammar,
        table,
        b"\x00",
        9,
        &mut stack,
        &mut list,
    )
}

// The grammar of example 1 is S→A, A→a, that of example 6 eight zero bytes; each stands with its table.
fn main(rt: HostRuntime) -> io::Result<()> {
    run_first(
        &rt,
        b"\x00\x00\x00\x00\x00\x00\x00\x00\x00\x00\x01\x00\x00\x00\x01\x00\x01\x00\x00\x00\x00\x00\x01\x00\x01\x00\x01\x00\x01\x00\x00\x00",
        b"\x00\x00\x00\x00\x00\x00\x02\x00\x00\x00\x01\x00\x01\x00\x01\x00\x01\x00\x02\x00\x01\x00\x00\x00\x02\x00\x02\x00\x01\x00\x01\x00",
    )?;
    run_in_four(
        &rt,
        b"6",
        b"\x00\x00\x00\x00\x00\x00\x00\x00",
        b"\x00\x00\x02\x00\x00\x00\x00\x00",
        b"",
        9,
    )
}
