// Tokens are handed on to entries of a state: the set at hand is joined into their least sets.
ghost use Rattle.std.specs.Prelude.{◌≡◌, not, ◌≤◌, ◌<◌, length};
ghost use Rattle.rules.specs.Records.{records};
ghost use Rattle.grammar.specs.Asked.{InRange};
ghost use Rattle.room.specs.Areas.{view};
ghost use Rattle.room.specs.Bounds.{LongEnough, IsEntry};
ghost use Rattle.states.specs.StatesIn.{entry_in, Placed};
ghost use Rattle.least_steps.specs.Least.{least_slot, least_of, OnlyLeast};
ghost use Rattle.least_steps.specs.Giving.{is_given, entry_given, entry_lacks, Readable, RunGiven, run_has, given_least, has_least};

use grammar::items::at_start;
use grammar::records::symbol;
use lookahead::join_into;
use room::slots::hand_slot;
use rules::StateIndex;
use states::{end_entry, first_entry, item};

// The entries of a state that are given tokens: those of an item, or those of a nonterminal's items with their dots at the start.
#[derive(Clone, Copy)]
pub enum Receivers {
    Item(usize),
    OfNonterminal(usize),
}

// The slot of the least set of the entry at place k.
pub fn least_slot(k: usize) -> usize
    requires { IsEntry k }
    ensures { result ≡ least_slot k }
{
    2176 + k
}

// Item i is given tokens.
#[tactic(auto, unfolding(crate::specs::Giving::is_given, rules::specs::Grammar::is_left_side_of))]
fn is_given(g: &[u8], to: Receivers, i: usize) -> bool
    requires { InRange i g.now }
    ensures { result ≡ is_given (records g.now) to i }
{
    match to {
        Receivers::Item(x) => x == i,
        Receivers::OfNonterminal(a) => at_start(g, i) && symbol(g, i) == a,
    }
}

// The entry at place k is given the set at hand, if its item is given tokens; says whether it lacked some of it.
fn give_entry(g: &[u8], to: Receivers, k: usize, work: &mut [u64]) -> bool
    requires { LongEnough work.old × IsEntry k × InRange (entry_in (view work.old) k).item g.now }
    ensures work_after { view work.new ≡ entry_given g.now to k (view work.old) }
    ensures value { result ≡ entry_lacks g.now to k (view work.old) }
{
    let i = item(work, k);
    if !is_given(g, to, i) {
        return false;
    }
    join_into(work, least_slot(k), hand_slot())
}

// The entries from one place up to another are; says whether one of them lacked some of the set.
fn give_run(g: &[u8], to: Receivers, first: usize, end: usize, work: &mut [u64]) -> bool
    requires { Readable g.now work.old first end }
    ensures run_given { RunGiven g.now to work.old work.new first end }
    ensures value { result ≡ not (run_has g.now to work.old first end) }
{
    // No `any`, which stops at the first: each of them is given the set.
    let mut lacked = false;
    for k in first..end {
        lacked |= give_entry(g, to, k, work);
    }
    lacked
}

// The entries of a state are; says whether one of them lacked some of the set. There may be no such state.
pub fn give(g: &[u8], to: Receivers, state: StateIndex, count: usize, work: &mut [u64]) -> bool
    requires { LongEnough work.old × Placed (length (records g.now)) count (view work.old) }
    ensures work_after { least_of count work.new ≡ given_least g.now to state.0 count work.old }
    ensures only_least { OnlyLeast (view work.old) (view work.new) }
    ensures value { result ≡ not (has_least g.now to state.0 count work.old) }
{
    if count <= state.0 {
        return false;
    }
    let first = first_entry(work, state);
    let end = end_entry(work, state);
    give_run(g, to, first, end, work)
}
