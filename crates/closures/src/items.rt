// An item that hands on its set to the items of the nonterminal behind its dot.
ghost use Rattle.std.specs.Prelude.{◌≡◌, ◌+◌, ◌<◌};
ghost use Rattle.rules.specs.Records.{records};
ghost use Rattle.rules.specs.States.{closes};
ghost use Rattle.grammar.specs.Asked.{InRange};
ghost use Rattle.room.specs.Areas.{view};
ghost use Rattle.room.specs.Bounds.{LongEnough, IsSlot};
ghost use Rattle.room.specs.Slots.{hand_slot};
ghost use Rattle.lookahead.specs.Sets.{set_at};
ghost use Rattle.closures.specs.Closures.{is_canonical, Closable, ItemCloses, handed_on};

use first::suffix::first1;
use grammar::items::{at_end, symbol_behind, terminal_behind};
use lookahead::{copy_set, is_empty, join_into};
use room::slots::{closure_slot, hand_slot};
use rules::Mode;

// What item i, with the set of the slot `from`, hands on to the items of the nonterminal behind its dot becomes the set at hand.
fn hand_on(g: &[u8], mode: Mode, n: usize, i: usize, work: &mut [u64], from: usize)
    requires { Closable g.now n work.old × InRange (i + 1) g.now × (from < hand_slot) }
    ensures { view work.new ≡ handed_on g.now (is_canonical mode) n i from (view work.old) }
{
    let hand = hand_slot();
    match mode {
        Mode::Canonical => first1(g, n, i + 1, work, hand, from),
        Mode::Lane => copy_set(work, hand, from),
    }
}

// Item i, with the set of the slot, has a nonterminal behind its dot; the empty set means that the item is absent.
pub fn closes(g: &[u8], i: usize, work: &[u64], slot: usize) -> bool
    requires { LongEnough work.now × InRange i g.now × IsSlot slot }
    ensures { result ≡ closes (records g.now) i (set_at (view work.now) slot) }
{
    if is_empty(work, slot) {
        return false;
    }
    if at_end(g, i) {
        return false;
    }
    !terminal_behind(g, i)
}

// The items of the nonterminal behind the dot of item i get what it hands on; says whether they lacked some of it.
// The set of item i lies in the slot `from`.
pub fn close_item(g: &[u8], mode: Mode, n: usize, i: usize, work: &mut [u64], from: usize) -> bool
    requires { Closable g.now n work.old × InRange i g.now × (from < hand_slot) }
    ensures { ItemCloses g.now (is_canonical mode) n i from work.old work.new result }
{
    if !closes(g, i, work, from) {
        return false;
    }
    let own = closure_slot(symbol_behind(g, i));
    hand_on(g, mode, n, i, work, from);
    let hand = hand_slot();
    join_into(work, own, hand)
}
