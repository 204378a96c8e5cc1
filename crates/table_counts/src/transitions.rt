// Where the symbols of a kind lead from a state, by one walk over its entries. `targets` has for each symbol the state that it leads to, if
// the state has a transition over it.
ghost use Rattle.std.specs.Prelude.{◌≡◌, false, ◌+◌};
ghost use Rattle.rules.specs.Records.{at, records};
ghost use Rattle.rules.specs.Grammar.{at_end};
ghost use Rattle.grammar.specs.Asked.{Faultless};
ghost use Rattle.room.specs.Areas.{view};
ghost use Rattle.room.specs.Bounds.{LongEnough, IsEntry};
ghost use Rattle.states.specs.StatesIn.{entry_in};
ghost use Rattle.table_counts.specs.Asked.{Readable, ReadableEntry};
ghost use Rattle.lr.specs.Kernels.{symbol_by};
ghost use Rattle.grammar.specs.Symbols.{symbol_named};
ghost use Rattle.table_counts.specs.Sides.{side_number};
ghost use Rattle.table_counts.specs.Targets.{IsSymbol, HasAll, NoTargets, EntryGathered, Gathered};

use grammar::items::{at_end, symbol_behind};
use grammar::symbols::Symbol;
use lr::kernels::before;
use rules::StateIndex;
use states::{end_entry, first_entry, item, next};

// How many symbols of a kind there can be.
pub const SYMBOLS: usize = 64;

// The symbols of one kind.
#[derive(Clone, Copy, PartialEq, Eq)]
pub enum Side {
    Nonterminals,
    Terminals,
}

// Symbol x of a side.
#[tactic(auto, unfolding(lr::specs::Kernels::symbol_by))]
fn symbol_of(side: Side, x: usize) -> Symbol
    ensures { symbol_named result ≡ symbol_by (side_number side) x }
{
    match side {
        Side::Nonterminals => Symbol::Nonterminal(x),
        Side::Terminals => Symbol::Terminal(x),
    }
}

// The symbol behind the dot of item i.
fn own_symbol(g: &[u8], i: usize) -> usize
    requires { Faultless g.now × (at_end (records g.now) i ≡ false) }
    ensures { (result ≡ (at (records g.now) (i + 1)).symbol) × IsSymbol result }
{
    symbol_behind(g, i)
}

// The entry at place k tells where the symbol behind its dot leads, if it is of the side and no entry before it has told.
fn gather_entry(
    g: &[u8],
    side: Side,
    k: usize,
    work: &[u64],
    targets: &mut [Option<StateIndex>; SYMBOLS],
)
    requires { ReadableEntry g.now work.now k × Faultless g.now × HasAll targets.old }
    ensures { EntryGathered g.now work.now (side_number side) k targets.old targets.new }
{
    let i = item(work, k);
    if at_end(g, i) {
        return;
    }
    let x = own_symbol(g, i);
    if !before(g, symbol_of(side, x), i) {
        return;
    }
    if targets[x].is_some() {
        return;
    }
    targets[x] = Some(next(work, k));
}

// Where each symbol of the side leads from the state.
pub fn gather(
    g: &[u8],
    side: Side,
    state: StateIndex,
    work: &[u64],
    targets: &mut [Option<StateIndex>; SYMBOLS],
)
    requires { Readable g.now work.now state.0 × Faultless g.now × NoTargets targets.old }
    ensures { Gathered g.now work.now state.0 (side_number side) targets.new }
{
    let first = first_entry(work, state);
    let end = end_entry(work, state);
    for k in first..end {
        gather_entry(g, side, k, work, targets);
    }
}
