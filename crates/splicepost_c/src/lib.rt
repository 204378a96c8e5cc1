// The library for programs in C and Rust: the builder's and the driver's calls, with their answers in plain numbers.
// include/splicepost.h declares them; a slice is a pointer and a length there.
#![tactic(auto)]

ghost use Rattle.std.specs.Prelude.{◌≡◌, [], ◌∷◌, set};
ghost use Rattle.answers.specs.Meant.{meant};
ghost use Rattle.splicepost_c.specs.Numbers.{number, numbers, with_numbers};
ghost use Rattle.splicepost_c.specs.Calls.{built_in, driven_in, build_call, drive_call};

use answers::Said;

// Puts a number into a cell of the answer, if it has that cell.
fn put(answer: &mut [u64], cell: usize, value: usize)
    ensures { answer.new ≡ set answer.old cell value }
{
    if cell < answer.len() {
        answer[cell] = value as u64;
    }
}

// Puts the place and two counts into the answer's first cells, as many as there are, and gives the number to return.
fn tell(refusal: u64, place: usize, first: usize, second: usize, answer: &mut [u64]) -> u64
    ensures { (result ≡ refusal) × (answer.new ≡ with_numbers (place ∷ first ∷ second ∷ []) answer.old) }
{
    put(answer, 0, place);
    put(answer, 1, first);
    put(answer, 2, second);
    refusal
}

// The numbers of an answer; 0 where it has none.
fn tell_said(said: Said, answer: &mut [u64]) -> u64
    ensures { (result ≡ number (meant said)) × (answer.new ≡ with_numbers (numbers (meant said)) answer.old) }
{
    match said {
        Said::Coded => tell(0, 0, 0, 0, answer),
        Said::Built(states, records) => tell(0, 0, states, records, answer),
        Said::Refused(refusal, place) => tell(refusal, place, 0, 0, answer),
        Said::Accepted(steps, listed) => tell(0, 0, steps, listed, answer),
        Said::Stopped(refusal, place, steps, listed) => tell(refusal, place, steps, listed, answer),
    }
}

// The builder's call: mode 0 is lane, 1 canonical. The answer gets the place and the counts of states and records.
#[unsafe(no_mangle)]
pub extern "C" fn splicepost_build(
    mode: u64,
    grammar: &[u8],
    table: &mut [u8],
    work: &mut [u64],
    answer: &mut [u64],
) -> u64
    ensures { built_in result table.new work.new answer.new
        ≡ build_call mode grammar.now table.old work.old answer.old }
{
    let said = Said::from(builder::build(mode, grammar, table, work));
    tell_said(said, answer)
}

// The driver's call. The answer gets the place, the steps and the list length.
#[unsafe(no_mangle)]
pub extern "C" fn splicepost_drive(
    grammar: &[u8],
    table: &[u8],
    tokens: &[u8],
    limit: u64,
    stack: &mut [u16],
    list: &mut [u16],
    answer: &mut [u64],
) -> u64
    ensures { driven_in result stack.new list.new answer.new
        ≡ drive_call grammar.now table.now tokens.now limit stack.old list.old answer.old }
{
    let said = Said::from(driver::drive(grammar, table, tokens, limit, stack, list));
    tell_said(said, answer)
}
