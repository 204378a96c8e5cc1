// Clones of states, and the links to them: merge.rs.
#![tactic(auto)]

ghost use Rattle.std.specs.Prelude.{◌≡◌, ◌+◌, ◌≤◌, ◌<◌, length};
ghost use Rattle.rules.specs.Limits.{max_entries};
ghost use Rattle.rules.specs.Records.{records};
ghost use Rattle.room.specs.Areas.{view};
ghost use Rattle.room.specs.Bounds.{LongEnough, IsState, IsEntry};
ghost use Rattle.states.specs.StatesIn.{entry_in, PlacedAt};
ghost use Rattle.clones.specs.Clones.{entry_copied, Copied, Cloneable, Cloned, link_patched, Patched};

use grammar::items::at_end;
use lookahead::copy_set;
use room::areas::{Entries, Heads, Origins, get, put};
use room::slots::entry_slot;
use rules::StateIndex;
use states::{end_entry, end_state, first_entry, item, next, put_next};

// The entry at place `from`, with its set, is copied to place `to`.
fn copy_entry(work: &mut [u64], from: usize, to: usize)
    requires { LongEnough work.old × IsEntry from × IsEntry to }
    ensures { view work.new ≡ entry_copied from to (view work.old) }
{
    let entry = get::<Entries>(work, from);
    put::<Entries>(work, to, entry);
    copy_set(work, entry_slot(to), entry_slot(from));
}

// A run of entries is copied to the places from `at` on, which lie behind it.
fn copy_entries(work: &mut [u64], first: usize, size: usize, at: usize)
    requires { LongEnough work.old × (first + size ≤ at) × (at + size ≤ max_entries) }
    ensures { Copied first size at (view work.old) (view work.new) }
{
    for k in 0..size {
        copy_entry(work, first + k, at + k);
    }
}

// A clone of the state is added behind the last. merge.rs: clone
pub fn clone_state(work: &mut [u64], state: StateIndex, count: usize)
    requires { Cloneable state.0 count (view work.old) × LongEnough work.old }
    ensures { Cloned state.0 count (view work.old) (view work.new) }
{
    let clone = StateIndex(count);
    let first = first_entry(work, state);
    let size = end_entry(work, state) - first;
    let at = first_entry(work, clone);
    copy_entries(work, first, size, at);
    end_state(work, clone, at + size);
    let original = get::<Origins>(work, state);
    put::<Origins>(work, clone, original);
    put::<Heads>(work, clone, count as u64);
}

// The entry at place k leads to the clone if it led to the successor.
fn patch_link(g: &[u8], k: usize, successor: StateIndex, clone: StateIndex, work: &mut [u64])
    requires { LongEnough work.old × IsEntry k × ((entry_in (view work.old) k).item < length (records g.now)) × IsState clone }
    ensures { view work.new ≡ link_patched (records g.now) successor.0 clone k (view work.old) }
{
    let i = item(work, k);
    if at_end(g, i) {
        return;
    }
    if next(work, k).0 != successor.0 {
        return;
    }
    put_next(work, k, clone);
}

// The successor's number is replaced in the shifts and gotos of the state. merge.rs: patch_links
pub fn patch_links(
    g: &[u8],
    state: StateIndex,
    successor: StateIndex,
    clone: StateIndex,
    work: &mut [u64],
)
    requires { LongEnough work.old × IsState state × PlacedAt (length (records g.now)) (view work.old) state.0 × IsState clone }
    ensures { Patched (records g.now) state.0 successor.0 clone.0 (view work.old) (view work.new) }
{
    let first = first_entry(work, state);
    let end = end_entry(work, state);
    for k in first..end {
        patch_link(g, k, successor, clone, work);
    }
}
