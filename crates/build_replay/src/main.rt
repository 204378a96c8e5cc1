// Builds the table of each coded grammar on standard input and writes what the program splicepost writes of it.
// tools/oracle_answers.py makes the cases, and from an oracle's answers the text that is expected.
//
// A case is one byte, the mode; four bytes, little-endian, the length of the grammar; the grammar. A case that the input ends within, or
// that is longer than any grammar, is said to be so and ends the run.
#![tactic(auto)]

ghost use Rattle.std.specs.Prelude.{◌≡◌, ◌≤◌, length};

use input::rooms::{TABLE_ROOM, filled};
use std::io;
use std::io::Read;

// More cases than any list has.
const CASES: usize = 1000000;

// Builds a table, which the room holds, so that no case ends in 14, and writes the text of it. A mode is what the case says, be it none.
fn run_case(to: &impl Print, mode: u64, grammar: &[u8]) -> io::Result<()> {
    let mut table: [u8; TABLE_ROOM] = filled(0);
    let mut work = [0u64; 8192];
    let answer = builder::build(mode, grammar, &mut table, &mut work);
    text::write_built(to, answer, &table)
}

// Says that the input ends within a case.
fn cut_short(to: &impl Print) -> io::Result<bool> {
    to.write_all(b"cut short\n")?;
    Ok(false)
}

// Reads a grammar as long as its room and runs the case; false if the input ends within it.
fn read_and_run<R: Read>(
    from: &mut R,
    to: &impl Print,
    mode: u64,
    grammar: &mut [u8],
) -> io::Result<bool> {
    if input::files::fill(from, grammar)? < grammar.len() {
        return cut_short(to);
    }
    run_case(to, mode, grammar)?;
    Ok(true)
}

// Runs the next case; false if there is none.
fn run_next<R: Read>(from: &mut R, to: &impl Print) -> io::Result<bool> {
    let mut head = [0u8; 5];
    let got = input::files::fill(from, &mut head)?;
    if got == 0 {
        return Ok(false);
    }
    if got < 5 {
        return cut_short(to);
    }
    let [mode, low, high, 0, 0] = head else {
        to.write_all(b"too long\n")?;
        return Ok(false);
    };
    let size = usize::from(u16::from_le_bytes([low, high]));
    let mut space = [0u8; 65536];
    read_and_run(from, to, u64::from(mode), &mut space[..size])
}

fn main(rt: HostRuntime) -> io::Result<()> {
    let mut from = rt.stdin();
    for _ in 0..CASES {
        if !run_next(&mut from, &rt)? {
            return Ok(());
        }
    }
    rt.write_all(b"input left over\n")
}
