// Runs the check of a grammar on the cases of standard input and writes a line for each: its name, then `coded`, or `refused` with
// document 01's number and place. A case that the input ends within is named as cut short, and input that is left over is said to be.
// tools/grammar_reader.py makes the cases and the lines that are expected.
//
// A case is one byte, the length of its name; the name; two bytes, little-endian, the length of the grammar; the grammar.
#![tactic(auto)]

ghost use Rattle.std.specs.Prelude.{◌<◌, ◌≤◌, length, IfOk};

use answers::Said;
use std::io;

// Says of the case with this name, or with what is there of its name, that the input ends within it.
fn write_cut_short(to: &impl Print, name: &[u8]) -> io::Result<()> {
    to.write_all(name)?;
    to.write_all(b": cut short\n")
}

// Runs the case that begins at a byte and gives the place of the next; the list's end if the case is cut short.
fn run_case(to: &impl Print, cases: &[u8], at: usize) -> io::Result<usize>
    requires { at < length cases.now }
    ensures { IfOk result (λ next. (at < next) × (next ≤ length cases.now)) }
{
    let name = at + 1;
    let left = cases.len() - name;
    let named = usize::from(cases[at]);
    if left < named {
        write_cut_short(to, &cases[name..])?;
        return Ok(cases.len());
    }
    let size = name + named;
    if left < named + 2 {
        write_cut_short(to, &cases[name..size])?;
        return Ok(cases.len());
    }
    let grammar = size + 2;
    let long = usize::from(cases[size]) + 256 * usize::from(cases[size + 1]);
    if cases.len() - grammar < long {
        write_cut_short(to, &cases[name..size])?;
        return Ok(cases.len());
    }
    let next = grammar + long;
    to.write_all(&cases[name..size])?;
    to.write_all(b": ")?;
    let answer = grammar_check::check_grammar(&cases[grammar..next]);
    text::write_said(to, Said::from(answer))?;
    Ok(next)
}

// Runs the cases. Each gives the place of the next, so no range goes through them; a loop shared by the programs would have to ask of its
// closure what `run_case` promises.
fn run_cases(to: &impl Print, cases: &[u8]) -> io::Result<()> {
    let mut at = 0;
    while at < cases.len() {
        at = run_case(to, cases, at)?;
    }
    Ok(())
}

// The cases are read at once, 65,536 bytes of them at most; more than that is not run, and said to be left over.
fn main(rt: HostRuntime) -> io::Result<()> {
    let mut space = [0u8; 65536];
    let file = input::files::read(&mut rt.stdin(), &mut space)?;
    run_cases(&rt, &space[..file.size])?;
    if file.longer {
        rt.write_all(b"input left over\n")?;
    }
    Ok(())
}
