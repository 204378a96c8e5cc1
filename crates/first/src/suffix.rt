// FIRST of what stands behind a dot: first/mod.rs, first0 and first1. The sets of the nonterminals lie in their slots.
ghost use Rattle.std.specs.Prelude.{◌≡◌};
ghost use Rattle.room.specs.Areas.{view};
ghost use Rattle.room.specs.Bounds.{LongEnough, IsSlot, FewTerminals};
ghost use Rattle.lookahead.specs.Sets.{set_at};
ghost use Rattle.first.specs.Asked.{NotFirst};
ghost use Rattle.first.specs.Rooms.{symbol_joined, symbol_goes_on, first0_put, beginning_put, behind_may_be_empty, first1_put};
ghost use Rattle.grammar.specs.Asked.{InRange, Faultless};

use grammar::items::at_start;
use grammar::records::{is_terminal, record_count, symbol};
use lookahead::{clear_set, insert, join_into, take};
use room::slots::first_slot;

// What can begin the symbol of record k is joined into the slot; says whether the symbols behind it count too.
fn join_symbol(g: &[u8], n: usize, k: usize, work: &mut [u64], slot: usize) -> bool
    requires in_range { InRange k g.now × Faultless g.now × FewTerminals n }
    requires long_enough { LongEnough work.old × NotFirst slot × IsSlot slot }
    ensures work_after { view work.new ≡ symbol_joined g.now n k slot (view work.old) }
    ensures value { result ≡ symbol_goes_on g.now n k slot (view work.old) }
{
    let a = symbol(g, k);
    if is_terminal(g, k) {
        insert(work, slot, a);
        return false;
    }
    let s = first_slot(a);
    join_into(work, slot, s);
    take(work, slot, n)
}

// FIRST of what stands behind the dot of item i, Eof as a mark if it derives the empty string, into a slot that is empty.
fn collect(g: &[u8], n: usize, i: usize, work: &mut [u64], slot: usize)
    requires in_range { InRange i g.now × Faultless g.now × FewTerminals n }
    requires long_enough { LongEnough work.old × NotFirst slot × IsSlot slot × (set_at (view work.old) slot ≡ 0) }
    ensures { view work.new ≡ first0_put g.now n i slot (view work.old) }
{
    let count = record_count(g);
    // A `for`: each turn writes into the room, and says whether the next is taken.
    for k in i + 1..count {
        if at_start(g, k) {
            insert(work, slot, n);
            return;
        }
        if !join_symbol(g, n, k, work, slot) {
            return;
        }
    }
    insert(work, slot, n);
}

// FIRST of what stands behind the dot of item i, Eof as a mark if it derives the empty string, into the slot. first/mod.rs: first0
pub fn first0(g: &[u8], n: usize, i: usize, work: &mut [u64], slot: usize)
    requires in_range { InRange i g.now × Faultless g.now × FewTerminals n }
    requires long_enough { LongEnough work.old × NotFirst slot × IsSlot slot }
    ensures { view work.new ≡ first0_put g.now n i slot (view work.old) }
{
    clear_set(work, slot);
    collect(g, n, i, work, slot);
}

// The terminals that can begin what stands behind the dot of item i, into the slot; says whether it derives the empty string.
// first/mod.rs: first0, its mark taken
pub fn begin(g: &[u8], n: usize, i: usize, work: &mut [u64], slot: usize) -> bool
    requires in_range { InRange i g.now × Faultless g.now × FewTerminals n }
    requires long_enough { LongEnough work.old × NotFirst slot × IsSlot slot }
    ensures work_after { view work.new ≡ beginning_put g.now n i slot (view work.old) }
    ensures value { result ≡ behind_may_be_empty g.now n i (view work.old) }
{
    first0(g, n, i, work, slot);
    take(work, slot, n)
}

// FIRST of what stands behind the dot of item i and of the lookahead behind that, into the slot. The lookahead lies in another slot.
// first/mod.rs: first1
pub fn first1(g: &[u8], n: usize, i: usize, work: &mut [u64], slot: usize, ahead: usize)
    requires in_range { InRange i g.now × Faultless g.now × FewTerminals n }
    requires long_enough { LongEnough work.old × NotFirst slot × IsSlot slot × IsSlot ahead × (ahead ≡ slot → ⊥) }
    ensures { view work.new ≡ first1_put g.now n i slot ahead (view work.old) }
{
    if begin(g, n, i, work, slot) {
        join_into(work, slot, ahead);
    }
}
