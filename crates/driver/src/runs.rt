// The run: move after move until it ends.
ghost use Rattle.std.specs.Prelude.{◌≡◌, ◌<◌, length};
ghost use Rattle.base.specs.Loops.{place_below};
ghost use Rattle.rules.specs.Records.{records};
ghost use Rattle.rules.specs.Table.{table_records, table_in};
ghost use Rattle.rules.specs.Run.{run};
ghost use Rattle.rules.specs.Drive.{first_no_token};
ghost use Rattle.grammar.specs.Asked.{Faultless};
ghost use Rattle.record.specs.Search.{Ascends};
ghost use Rattle.driver.specs.Standings.{Stands, Runnable, left_run};
ghost use Rattle.driver.specs.Results.{ran_in, no_token};

use crate::moves::Standing;
use rules::{RunAnswer, RunEnd};
use std::ops::ControlFlow;

// The token at place i is not below n.
#[tactic(auto, using(crate::proofs::Tokens::token_tested))]
fn no_token(tokens: &[u8], n: usize, i: usize) -> bool
    requires { i < length tokens.now }
    ensures { result ≡ no_token n tokens.now i }
{
    n <= usize::from(tokens[i])
}

// Refusal 16: the first token not below n.
pub fn first_no_token(g: &[u8], tokens: &[u8]) -> Option<usize>
    ensures { result ≡ place_below (length tokens.now) (first_no_token (records g.now) tokens.now) }
{
    let n = grammar_numbers::counts::terminal_count(g);
    (0..tokens.len()).find(
        |i|
            requires { i.now < length tokens.now }
        { no_token(tokens, n, *i) },
    )
}

// The run from a standing on, move after move. It makes no more of them than the limit says.
pub fn run_from(
    g: &[u8],
    t: &[u8],
    tokens: &[u8],
    n: usize,
    limit: u64,
    s: Standing,
    stack: &mut [u16],
    list: &mut [u16],
) -> RunAnswer
    requires { Runnable g.now t.now n × Stands limit stack.old s }
    ensures { ran_in result stack.new list.new
        ≡ left_run g.now t.now tokens.now limit stack.old list.old s }
{
    let mut here = s;
    // `while let` over the moves that go on would lose how the last one ends
    loop {
        match crate::moves::step(g, t, tokens, n, limit, here, stack, list) {
            ControlFlow::Continue(next) => {
                here = next;
            }
            ControlFlow::Break((end, last)) => {
                return RunAnswer {
                    end,
                    place: last.place,
                    steps: last.steps,
                    listed: last.listed,
                };
            }
        }
    }
}

// The run on a table that ascends: the stack begins as state 0, and room 0 gives 20.
pub fn run(
    g: &[u8],
    t: &[u8],
    tokens: &[u8],
    limit: u64,
    stack: &mut [u16],
    list: &mut [u16],
) -> RunAnswer
    requires { Faultless g.now × Ascends t.now }
    ensures { ran_in result stack.new list.new
        ≡ run (table_in (table_records t.now)) (records g.now)
        tokens.now limit stack.old list.old }
{
    if stack.len() == 0 {
        return RunAnswer {
            end: RunEnd::StackFull,
            place: 0,
            steps: 0,
            listed: 0,
        };
    }
    stack[0] = 0;
    let n = grammar_numbers::counts::terminal_count(g);
    let opening = Standing {
        depth: 1,
        listed: 0,
        steps: 0,
        place: 0,
    };
    run_from(g, t, tokens, n, limit, opening, stack, list)
}
