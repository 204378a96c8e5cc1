// The states in the work room: core/mod.rs, State and Item. The entries of a state are the places from `first_entry` to `end_entry`;
// the token set of the entry at place k lies in the slot `room::slots::entry_slot(k)`.
#![tactic(auto)]

ghost use Rattle.std.specs.Prelude.{◌≡◌, ◌+◌, ◌≤◌};
ghost use Rattle.room.specs.Areas.{view};
ghost use Rattle.room.specs.Bounds.{LongEnough, IsState, IsStateOrEnd, IsEntry, IsItem, IsSlot};
ghost use Rattle.states.specs.StatesIn.{entry_in, first_of, put_next, append_entry, end_state};
ghost use Rattle.rules.specs.Limits.{max_entries};

use lookahead::copy_set;
use packed::Entry;
use room::areas::{Entries, FirstEntries, get, put};
use room::slots::entry_slot;
use rules::StateIndex;

// How many states there may be.
pub const MAX_STATES: usize = 128;

// How many entries there may be in all.
pub const MAX_ENTRIES: usize = 2048;

// The place of the first entry of a state, or behind the last state the end of the entries.
pub fn first_entry(work: &[u64], state: StateIndex) -> usize
    requires { LongEnough work.now × IsStateOrEnd state }
    ensures { result ≡ first_of (view work.now) state.0 }
{
    get::<FirstEntries>(work, state) as usize
}

// The place behind the last entry of a state.
pub fn end_entry(work: &[u64], state: StateIndex) -> usize
    requires { LongEnough work.now × IsState state }
    ensures { result ≡ first_of (view work.now) (state.0 + 1) }
{
    get::<FirstEntries>(work, StateIndex(state.0 + 1)) as usize
}

// The item of the entry at place k.
pub fn item(work: &[u64], k: usize) -> usize
    requires { LongEnough work.now × IsEntry k }
    ensures { result ≡ (entry_in (view work.now) k).item }
{
    Entry::unpack(get::<Entries>(work, k)).item
}

// The state that the symbol behind the dot of the entry at place k leads to.
pub fn next(work: &[u64], k: usize) -> StateIndex
    requires { LongEnough work.now × IsEntry k }
    ensures { result.0 ≡ (entry_in (view work.now) k).next }
{
    Entry::unpack(get::<Entries>(work, k)).next
}

// The entry at place k leads to the state `next`.
pub fn put_next(work: &mut [u64], k: usize, next: StateIndex)
    requires { LongEnough work.old × IsEntry k × IsState next }
    ensures { view work.new ≡ put_next k next (view work.old) }
{
    let item = item(work, k);
    put::<Entries>(work, k, Entry { item, next }.pack());
}

// An entry is written at place k: it leads nowhere yet, and its set is that of the slot `from`.
pub fn append_entry(work: &mut [u64], k: usize, item: usize, from: usize)
    requires { LongEnough work.old × IsEntry k × IsItem item × IsSlot from }
    ensures { view work.new ≡ append_entry k item from (view work.old) }
{
    let entry = Entry {
        item,
        next: StateIndex(0),
    };
    put::<Entries>(work, k, entry.pack());
    copy_set(work, entry_slot(k), from);
}

// The entries of a state end before the place `end`, where those of the next state begin.
pub fn end_state(work: &mut [u64], state: StateIndex, end: usize)
    requires { LongEnough work.old × IsState state × (end ≤ max_entries) }
    ensures { view work.new ≡ end_state state end (view work.old) }
{
    put::<FirstEntries>(work, StateIndex(state.0 + 1), end as u64);
}
