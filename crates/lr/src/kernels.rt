// Kernels and their comparison: kernel_set.rs.
ghost use Rattle.std.specs.Prelude.{◌≡◌, ◌+◌, ◌<◌, length};
ghost use Rattle.base.specs.Loops.{place_below};
ghost use Rattle.rules.specs.Records.{records};
ghost use Rattle.rules.specs.Grammar.{is_before};
ghost use Rattle.rules.specs.States.{same_kernel};
ghost use Rattle.grammar.specs.Asked.{InRange};
ghost use Rattle.grammar.specs.Symbols.{symbol_named};
ghost use Rattle.room.specs.Areas.{view};
ghost use Rattle.room.specs.Bounds.{LongEnough, IsEntry, IsState};
ghost use Rattle.states.specs.StatesIn.{entry_in, PlacedRun};
ghost use Rattle.lr.specs.Kernels.{symbol_by, stands_before, first_before, same_entry, run_kernel, state_kernel, own_kernel, ReadableEntry, Parented, HasKernel, Comparable, KernelPlace};

use grammar::items::{before_nonterminal, before_terminal};
use grammar::symbols::Symbol;
use lookahead::is_equal;
use packed::Parent;
use room::areas::{Parents, get};
use room::slots::entry_slot;
use rules::StateIndex;
use states::{end_entry, first_entry, item};

// The symbol of a kind that is kept as a number, 0 nonterminal and 1 terminal: the cells of the room hold numbers alone.
#[tactic(auto, unfolding(crate::specs::Kernels::symbol_by))]
pub fn symbol_by(kind: usize, x: usize) -> Symbol
    ensures { symbol_named result ≡ symbol_by kind x }
{
    if kind == 1 {
        Symbol::Terminal(x)
    } else {
        Symbol::Nonterminal(x)
    }
}

// The symbol stands directly behind the dot of item i.
pub fn before(g: &[u8], symbol: Symbol, i: usize) -> bool
    requires { InRange i g.now }
    ensures { result ≡ is_before (records g.now) (symbol_named symbol) i }
{
    match symbol {
        Symbol::Nonterminal(a) => before_nonterminal(g, a, i),
        Symbol::Terminal(t) => before_terminal(g, t, i),
    }
}

// The entry at place k stands before the symbol.
#[tactic(auto, unfolding(crate::specs::Kernels::stands_before))]
fn stands_before(g: &[u8], symbol: Symbol, work: &[u64], k: usize) -> bool
    requires { ReadableEntry g.now work.now k }
    ensures { result ≡ stands_before (records g.now) (symbol_named symbol) (view work.now) k }
{
    before(g, symbol, item(work, k))
}

// The first place from `first` to `end` whose entry stands before the symbol.
pub fn find_before(
    g: &[u8],
    symbol: Symbol,
    work: &[u64],
    first: usize,
    end: usize,
) -> Option<usize>
    requires { LongEnough work.now × PlacedRun (length (records g.now)) (view work.now) first end }
    ensures { result ≡ place_below end (first_before (records g.now) (symbol_named symbol) (view work.now) first end) }
{
    (first..end).find(|k| stands_before(g, symbol, work, *k))
}

// The entries at two places have the same item and equal sets.
fn same_entry(work: &[u64], j: usize, k: usize) -> bool
    requires { LongEnough work.now × IsEntry j × IsEntry k }
    ensures { result ≡ same_entry (entry_in (view work.now) j) (entry_in (view work.now) k) }
{
    item(work, j) == item(work, k) && is_equal(work, entry_slot(j), entry_slot(k))
}

// What the entries from `first` to `end` and those from `other` to `last` become over the symbol is the same. Each walk skips entries of its
// own; a zip of the two would end with the shorter, and the rest of the longer would have to be looked for behind it.
fn same_kernel(
    g: &[u8],
    symbol: Symbol,
    work: &[u64],
    first: usize,
    end: usize,
    other: usize,
    last: usize,
) -> bool
    requires { LongEnough work.now × PlacedRun (length (records g.now)) (view work.now) first end × PlacedRun (length (records g.now)) (view work.now) other last }
    ensures { result ≡ same_kernel (run_kernel g.now (symbol_named symbol) (view work.now) first end) (run_kernel g.now (symbol_named symbol) (view work.now) other last) }
{
    let mut one = find_before(g, symbol, work, first, end);
    let mut two = find_before(g, symbol, work, other, last);
    while let Some(j) = one {
        let Some(k) = two else {
            return false;
        };
        if !same_entry(work, j, k) {
            return false;
        }
        one = find_before(g, symbol, work, j + 1, end);
        two = find_before(g, symbol, work, k + 1, last);
    }
    two.is_none()
}

// State t has the kernel that the entries of state s become over the symbol. Only a parent's symbol that is the same is looked into.
fn has_kernel(g: &[u8], symbol: Symbol, work: &[u64], s: StateIndex, t: StateIndex) -> bool
    requires { Comparable g.now (symbol_named symbol) s.0 t.0 work.now }
    ensures { result ≡ same_kernel (state_kernel g.now (symbol_named symbol) (view work.now) s.0) (own_kernel g.now (view work.now) t.0) }
{
    let parent = Parent::unpack(get::<Parents>(work, t));
    if symbol != symbol_by(parent.kind, parent.symbol) {
        return false;
    }
    let p = parent.state;
    let first = first_entry(work, s);
    let end = end_entry(work, s);
    let other = first_entry(work, p);
    let last = end_entry(work, p);
    same_kernel(g, symbol, work, first, end, other, last)
}

// The first state with the kernel that the entries of state s, the last closed one, become over the symbol.
// kernel_set.rs: add_state
pub fn find_kernel(
    g: &[u8],
    symbol: Symbol,
    work: &[u64],
    s: StateIndex,
    count: usize,
) -> Option<usize>
    requires parented { Parented g.now (s.0 + 1) count work.now × IsState s × (0 < count) }
    requires has_kernel { HasKernel (records g.now) (symbol_named symbol) (view work.now) s.0 }
    ensures { KernelPlace g.now (symbol_named symbol) s.0 count work.now result }
{
    (1..count).find(|t| has_kernel(g, symbol, work, s, StateIndex(*t)))
}
