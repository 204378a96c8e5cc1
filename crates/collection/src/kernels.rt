// The kernel of the state that is expanded next, written behind the last closed state.
ghost use Rattle.std.specs.Prelude.{◌≡◌, ◌+◌, ◌≤◌, ◌<◌, length};
ghost use Rattle.rules.specs.Limits.{max_bytes};
ghost use Rattle.room.specs.Areas.{view};
ghost use Rattle.room.specs.Bounds.{LongEnough, FewTerminals};
ghost use Rattle.states.specs.StatesIn.{write_entry};
ghost use Rattle.closures.specs.Closures.{is_canonical};
ghost use Rattle.lr.specs.Kernels.{Parented};
ghost use Rattle.collection.specs.Collections.{start_of};
ghost use Rattle.collection.specs.Expands.{OwnAppended, KernelAppended};

use lookahead::{put_all, put_eof};
use lr::append::append_kernel;
use lr::kernels::symbol_by;
use packed::{Entry, Parent};
use room::areas::{Entries, Parents, get, put};
use room::slots::entry_slot;
use rules::{Mode, StateIndex};
use states::{end_entry, first_entry};

// The start item is written at place 0: with Eof in canonical states, with every token in LR(0) states. core/mod.rs: Kernel::start
fn append_start(mode: Mode, n: usize, work: &mut [u64])
    requires { LongEnough work.old × FewTerminals n }
    ensures { view work.new ≡ write_entry 0 0 (start_of (is_canonical mode) n) (view work.old) }
{
    let slot = entry_slot(0);
    let entry = Entry {
        item: 0,
        next: StateIndex(0),
    };
    put::<Entries>(work, 0, entry.pack());
    match mode {
        Mode::Canonical => put_eof(work, slot, n),
        Mode::Lane => put_all(work, slot, n),
    }
}

// What the entries of the parent of state s become over the symbol that leads to s. core/mod.rs: Kernel::shifted
fn append_own(g: &[u8], s: StateIndex, work: &mut [u64]) -> Option<usize>
    requires { Parented g.now s.0 (s.0 + 1) work.old × (0 < s.0) × (length g.now ≤ max_bytes) }
    ensures { OwnAppended g.now s.0 (view work.old) (view work.new) result }
{
    let parent = Parent::unpack(get::<Parents>(work, s));
    let p = parent.state;
    let first = first_entry(work, p);
    let last = end_entry(work, p);
    let end = first_entry(work, s);
    let symbol = symbol_by(parent.kind, parent.symbol);
    append_kernel(g, symbol, first, last, end, work)
}

// The kernel of state s is written behind the entries of the states before it. kernel_set.rs: next
pub fn append_next(g: &[u8], mode: Mode, n: usize, s: StateIndex, work: &mut [u64]) -> Option<usize>
    requires { Parented g.now s.0 (s.0 + 1) work.old × FewTerminals n × (length g.now ≤ max_bytes) }
    ensures { KernelAppended g.now (start_of (is_canonical mode) n) s.0 (view work.old) (view work.new) result }
{
    if s.0 == 0 {
        append_start(mode, n, work);
        return Some(1);
    }
    append_own(g, s, work)
}
