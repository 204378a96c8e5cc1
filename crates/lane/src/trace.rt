// Tracing a lane back: lane/mod.rs. Going back over a symbol and going back over a closure lead into each other.
ghost use Rattle.std.specs.Prelude.{◌≡◌, false};
ghost use Rattle.rules.specs.Records.{records};
ghost use Rattle.rules.specs.Grammar.{at_start, at_end, terminal_count};
ghost use Rattle.rules.specs.Lanes.{empty_past};
ghost use Rattle.grammar.specs.Asked.{InRange, Faultless};
ghost use Rattle.room.specs.Areas.{view};
ghost use Rattle.room.specs.Bounds.{LongEnough, IsState, IsColumn, FewTerminals};
ghost use Rattle.lane.specs.Changes.{start_entered, past_entered};
ghost use Rattle.lane.specs.Traces.{firsts_for, Traceable, BackTraced, ShiftTraced, CloseTraced};

use super::Lanes;
use super::table::add_lookahead;
use first::suffix::begin;
use grammar::items::{at_start, before_nonterminal};
use grammar::records::symbol;
use grammar_numbers::counts::start;
use lookahead::put_eof;
use marks::{Successors, Visited, has, mark};
use room::slots::hand_slot;
use rules::{ConflictIndex, StateIndex};
use state_graph::leads;
use states::{end_entry, first_entry, item};

// The start enters Eof.
fn enter_start(
    g: &[u8],
    n: usize,
    column: ConflictIndex,
    state: StateIndex,
    i: usize,
    work: &mut [u64],
)
    requires in_range { InRange i g.now × FewTerminals n × (n ≡ terminal_count (records g.now)) }
    requires long_enough { LongEnough work.old × IsState state × IsColumn column }
    ensures { view work.new ≡ start_entered (records g.now) state.0 column.0 i (view work.old) }
{
    if symbol(g, i) != start(g) {
        return;
    }
    let hand = hand_slot();
    put_eof(work, hand, n);
    add_lookahead(work, state, column, hand);
}

// FIRST of what follows the nonterminal behind the dot of item j is entered; says whether that can be empty.
fn enter_past(
    g: &[u8],
    n: usize,
    column: ConflictIndex,
    state: StateIndex,
    j: usize,
    work: &mut [u64],
) -> bool
    requires j_value { (at_end (records g.now) j ≡ false) × Faultless g.now × FewTerminals n × (n ≡ terminal_count (records g.now)) }
    requires long_enough { LongEnough work.old × IsState state × IsColumn column }
    ensures work_after { view work.new ≡ past_entered (records g.now) (firsts_for g.now (view work.old)) state.0 column.0 j (view work.old) }
    ensures value { result ≡ empty_past (records g.now) (firsts_for g.now (view work.old)) j }
{
    let hand = hand_slot();
    let empty = begin(g, n, j + 1, work, hand);
    add_lookahead(work, state, column, hand);
    empty
}

// The trace goes on from item i, by the half that its dot asks for. lane/mod.rs: continue_trace
#[cycle(un_close_un_shift)]
pub fn go_back(
    g: &[u8],
    lanes: Lanes,
    column: ConflictIndex,
    state: StateIndex,
    i: usize,
    work: &mut [u64],
)
    requires { Traceable g.now lanes column.0 state.0 i (view work.old) × LongEnough work.old }
    ensures { BackTraced g.now lanes column.0 state.0 i (view work.old) (view work.new) }
{
    if at_start(g, i) {
        un_close(g, lanes, column, state, i, work);
    } else {
        un_shift(g, lanes, column, state, i, work);
    }
}

// The dot of item i is past 0: every predecessor over the symbol before the dot gets the state as successor, and the trace goes on
// there. lane/mod.rs: continue_trace, the half that goes back over a symbol
#[cycle(un_close_un_shift)]
pub fn un_shift(
    g: &[u8],
    lanes: Lanes,
    column: ConflictIndex,
    state: StateIndex,
    i: usize,
    work: &mut [u64],
)
    requires { Traceable g.now lanes column.0 state.0 i (view work.old) × LongEnough work.old × (at_start (records g.now) i ≡ false) }
    ensures { ShiftTraced g.now lanes column.0 state.0 i (view work.old) (view work.new) }
{
    if has::<Visited>(work, state, i) {
        return;
    }
    mark::<Visited>(work, state, i);
    for next in 0..lanes.states {
        let p = StateIndex(next);
        if !leads(g, work, p, state, i) {
            continue;
        }
        mark::<Successors>(work, p, state);
        go_back(g, lanes, column, p, i - 1, work);
    }
}

// The dot of item i is 0: the start enters Eof; each item with the dot before this nonterminal enters FIRST of what follows, and if
// that can be empty the trace goes on with it in the same state. lane/mod.rs: continue_trace, the half that goes back over a closure
#[cycle(un_close_un_shift)]
pub fn un_close(
    g: &[u8],
    lanes: Lanes,
    column: ConflictIndex,
    state: StateIndex,
    i: usize,
    work: &mut [u64],
)
    requires { Traceable g.now lanes column.0 state.0 i (view work.old) × LongEnough work.old }
    ensures { CloseTraced g.now lanes column.0 state.0 i (view work.old) (view work.new) }
{
    if has::<Visited>(work, state, i) {
        return;
    }
    mark::<Visited>(work, state, i);
    let n = lanes.terminals;
    enter_start(g, n, column, state, i, work);
    let a = symbol(g, i);
    let first = first_entry(work, state);
    let end = end_entry(work, state);
    for k in first..end {
        let j = item(work, k);
        if !before_nonterminal(g, a, j) {
            continue;
        }
        if !enter_past(g, n, column, state, j, work) {
            continue;
        }
        go_back(g, lanes, column, state, j, work);
    }
}
