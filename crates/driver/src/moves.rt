// The moves of a run. Each tries 17, 21, 18, 19, 20 in this order, all before anything is put; popped cells keep their numbers until
// something is put there.
ghost use Rattle.std.specs.Prelude.{◌≡◌, ◌<◌, length, get_or};
ghost use Rattle.rules.specs.Records.{records};
ghost use Rattle.rules.specs.Table.{table_records, table_in};
ghost use Rattle.rules.specs.Run.{move_shift, move_end, move_reduce, move};
ghost use Rattle.grammar.specs.Asked.{Faultless};
ghost use Rattle.record.specs.Search.{Ascends};
ghost use Rattle.driver.specs.Standings.{Moveable, Stands, Runnable, standing, moved, put_reduction};

use record::lookup::Act;
use rules::RunEnd;
use std::ops::ControlFlow;

// Where a run stands: how much of the rooms is in use, the moves made, and the place of the next token.
#[derive(Clone, Copy, PartialEq, Eq)]
pub struct Standing {
    pub depth: usize,
    pub listed: usize,
    pub steps: usize,
    pub place: usize,
}

// A move goes on, or the run ends.
pub type Moved = ControlFlow<(RunEnd, Standing), Standing>;

// The token at a place, and Eof, which is n, at the end.
#[tactic(auto, using(crate::proofs::Ways::token_there, crate::proofs::Ways::token_end))]
fn token_at(tokens: &[u8], n: usize, place: usize) -> usize
    ensures { result ≡ get_or tokens.now place n }
{
    if place < tokens.len() {
        usize::from(tokens[place])
    } else {
        n
    }
}

// The state at a place of the stack.
fn state_at(stack: &[u16], i: usize) -> usize
    requires { i < length stack.now }
    ensures { result ≡ get_or stack.now i 0 }
{
    usize::from(stack[i])
}

// A shift to the state.
#[tactic(auto, unfolding(rules::specs::Run::move_shift, rules::specs::Run::stack_full))]
fn move_shift(to: u16, s: Standing, stack: &mut [u16], list: &mut [u16]) -> Moved
    requires { Moveable stack.old s }
    ensures { moved stack.new list.new result ≡ move_shift to (standing stack.old list.old s) }
{
    let depth = s.depth;
    if stack.len() <= depth {
        return ControlFlow::Break((RunEnd::StackFull, s));
    }
    stack[depth] = to;
    ControlFlow::Continue(Standing {
        depth: depth + 1,
        steps: s.steps + 1,
        place: s.place + 1,
        ..s
    })
}

// A reduction by a production of that many symbols, whose states can be popped, to the state.
#[tactic(auto, unfolding(crate::specs::Standings::put_reduction, rules::specs::Run::list_full, rules::specs::Run::stack_full))]
fn put_reduction(
    p: u16,
    symbols: usize,
    to: u16,
    s: Standing,
    stack: &mut [u16],
    list: &mut [u16],
) -> Moved
    requires { Moveable stack.old s × (symbols < s.depth) }
    ensures { moved stack.new list.new result
        ≡ put_reduction p symbols to (standing stack.old list.old s) }
{
    let listed = s.listed;
    if list.len() <= listed {
        return ControlFlow::Break((RunEnd::ListFull, s));
    }
    let at = s.depth - symbols;
    if stack.len() <= at {
        return ControlFlow::Break((RunEnd::StackFull, s));
    }
    list[listed] = p;
    stack[at] = to;
    ControlFlow::Continue(Standing {
        depth: at + 1,
        listed: listed + 1,
        steps: s.steps + 1,
        ..s
    })
}

// Production 0: it accepts on Eof, if just state 0 is left.
#[tactic(auto, using(crate::proofs::Ways::off_eof, crate::proofs::Ways::more_left, crate::proofs::Ways::end_full, crate::proofs::Ways::accepts))]
fn move_end(g: &[u8], tokens: &[u8], s: Standing, stack: &mut [u16], list: &mut [u16]) -> Moved
    requires { Faultless g.now × Moveable stack.old s }
    ensures { moved stack.new list.new result
        ≡ move_end (records g.now) tokens.now (standing stack.old list.old s) }
{
    if s.place != tokens.len() || s.depth - 1 != grammar_numbers::productions::side_length(g, 0) {
        return ControlFlow::Break((RunEnd::Broken, s));
    }
    let listed = s.listed;
    if list.len() <= listed {
        return ControlFlow::Break((RunEnd::ListFull, s));
    }
    list[listed] = 0;
    let last = Standing {
        depth: 1,
        listed: listed + 1,
        steps: s.steps + 1,
        ..s
    };
    ControlFlow::Break((RunEnd::Accepted, last))
}

// A reduction by production p.
#[tactic(auto, using(crate::proofs::Ways::reduces_0, crate::proofs::Ways::pops_past, crate::proofs::Ways::no_goto, crate::proofs::Ways::reduces))]
fn move_reduce(
    g: &[u8],
    t: &[u8],
    tokens: &[u8],
    p: u16,
    s: Standing,
    stack: &mut [u16],
    list: &mut [u16],
) -> Moved
    requires { Faultless g.now × Ascends t.now × Moveable stack.old s }
    ensures { moved stack.new list.new result
        ≡ move_reduce (table_in (table_records t.now)) (records g.now) tokens.now p
        (standing stack.old list.old s) }
{
    let production = usize::from(p);
    if production == 0 {
        return move_end(g, tokens, s, stack, list);
    }
    let symbols = grammar_numbers::productions::side_length(g, production);
    let depth = s.depth;
    if depth <= symbols {
        return ControlFlow::Break((RunEnd::Broken, s));
    }
    let under = state_at(stack, depth - 1 - symbols);
    match record::lookup::goto(
        t,
        under,
        grammar_numbers::productions::left_symbol(g, production),
    ) {
        Some(to) => put_reduction(p, symbols, to, s, stack, list),
        None => ControlFlow::Break((RunEnd::Broken, s)),
    }
}

// One move of the run: what the topmost state does at the next token. The grammar has n terminals. What a run goes by and its rooms are
// passed one by one, as `run_from`, `run` and the call take them; the moves below take each a part of it.
#[tactic(auto, using(crate::proofs::Ways::rejects, crate::proofs::Ways::shifts, crate::proofs::Ways::reduces_by))]
pub fn step(
    g: &[u8],
    t: &[u8],
    tokens: &[u8],
    n: usize,
    limit: u64,
    s: Standing,
    stack: &mut [u16],
    list: &mut [u16],
) -> Moved
    requires { Runnable g.now t.now n × Stands limit stack.old s }
    ensures { moved stack.new list.new result
        ≡ move (table_in (table_records t.now)) (records g.now) tokens.now limit
        (standing stack.old list.old s) }
{
    let token = token_at(tokens, n, s.place);
    let state = state_at(stack, s.depth - 1);
    let Some(act) = record::lookup::action(t, state, token) else {
        return ControlFlow::Break((RunEnd::Rejected, s));
    };
    if limit <= s.steps as u64 {
        return ControlFlow::Break((RunEnd::StepLimit, s));
    }
    match act {
        Act::Shift(to) => move_shift(to, s, stack, list),
        Act::Reduce(p) => move_reduce(g, t, tokens, p, s, stack, list),
    }
}
