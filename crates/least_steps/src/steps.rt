// The entry at a place hands on its least set to its moved dot, and what `first1` makes of it to the items of the nonterminal behind its
// dot.
ghost use Rattle.std.specs.Prelude.{◌≡◌, false, not, ◌+◌, ◌<◌, length};
ghost use Rattle.rules.specs.Records.{records};
ghost use Rattle.rules.specs.Grammar.{at_end, terminal_count};
ghost use Rattle.rules.specs.States.{closes as closes_of};
ghost use Rattle.rules.specs.FinalCheck.{moves as moves_of};
ghost use Rattle.grammar.specs.Asked.{Faultless};
ghost use Rattle.room.specs.Areas.{view};
ghost use Rattle.room.specs.Bounds.{LongEnough, IsEntry, FewTerminals};
ghost use Rattle.room.specs.Slots.{hand_slot};
ghost use Rattle.lookahead.specs.Sets.{copy_set};
ghost use Rattle.states.specs.StatesIn.{entry_in, Placed};
ghost use Rattle.least_steps.specs.Least.{least_slot, least_entry, least_of, OnlyLeast};
ghost use Rattle.least_steps.specs.Steps.{closing_put, moved_from, has_moved, closed_from, has_closing};

use super::give::{Receivers, give, least_slot};
use first::suffix::first1;
use grammar::items::{at_end, symbol_behind, terminal_behind};
use lookahead::{copy_set, is_empty};
use room::slots::hand_slot;
use rules::StateIndex;
use states::{item, next};

// The entry at a place has a least set, and a symbol behind its dot.
pub fn moves(g: &[u8], at: usize, work: &[u64]) -> bool
    requires { LongEnough work.now × IsEntry at × ((entry_in (view work.now) at).item < length (records g.now)) }
    ensures { result ≡ moves_of (records g.now) (least_entry (view work.now) at) }
{
    !is_empty(work, least_slot(at)) && !at_end(g, item(work, at))
}

// The entry at a place has a least set, and a nonterminal behind its dot.
pub fn closes(g: &[u8], at: usize, work: &[u64]) -> bool
    requires { LongEnough work.now × IsEntry at × ((entry_in (view work.now) at).item < length (records g.now)) }
    ensures { result ≡ closes_of (records g.now) (least_entry (view work.now) at).item (least_entry (view work.now) at).set }
{
    moves(g, at, work) && !terminal_behind(g, item(work, at))
}

// The least set of the entry at a place, into the set at hand.
fn put_own(at: usize, work: &mut [u64])
    requires { LongEnough work.old × IsEntry at }
    ensures { view work.new ≡ copy_set hand_slot (least_slot at) (view work.old) }
{
    let hand = hand_slot();
    let own = least_slot(at);
    copy_set(work, hand, own);
}

// The entry at a place hands on its least set to its moved dot; says whether that lacked some of it.
pub fn move_at(g: &[u8], at: usize, count: usize, work: &mut [u64]) -> bool
    requires { LongEnough work.old × Placed (length (records g.now)) count (view work.old) × IsEntry at }
    ensures work_after { least_of count work.new ≡ moved_from at count work.old }
    ensures only_least { OnlyLeast (view work.old) (view work.new) }
    ensures value { result ≡ not (has_moved at count work.old) }
{
    let x = item(work, at) + 1;
    let to = next(work, at);
    put_own(at, work);
    give(g, Receivers::Item(x), to, count, work)
}

// What the entry at a place hands on to the items of the nonterminal behind its dot, into the set at hand.
fn put_closing(g: &[u8], n: usize, at: usize, work: &mut [u64])
    requires long_enough { LongEnough work.old × IsEntry at × Faultless g.now × FewTerminals n }
    requires at_value { at_end (records g.now) (entry_in (view work.old) at).item ≡ false }
    ensures { view work.new ≡ closing_put g.now n at (view work.old) }
{
    let i = item(work, at);
    let hand = hand_slot();
    let own = least_slot(at);
    first1(g, n, i + 1, work, hand, own);
}

// The entry at a place, which is of the state, does so; says whether one of them lacked some of it.
pub fn close_at(
    g: &[u8],
    n: usize,
    state: StateIndex,
    at: usize,
    count: usize,
    work: &mut [u64],
) -> bool
    requires long_enough { LongEnough work.old × Placed (length (records g.now)) count (view work.old) × IsEntry at }
    requires faultless { Faultless g.now × (n ≡ terminal_count (records g.now)) × (at_end (records g.now) (entry_in (view work.old) at).item ≡ false) }
    ensures work_after { least_of count work.new ≡ closed_from g.now state.0 at count work.old }
    ensures only_least { OnlyLeast (view work.old) (view work.new) }
    ensures value { result ≡ not (has_closing g.now state.0 at count work.old) }
{
    let a = symbol_behind(g, item(work, at));
    put_closing(g, n, at, work);
    give(g, Receivers::OfNonterminal(a), state, count, work)
}
