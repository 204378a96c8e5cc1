// Entries lead to the state that the symbol behind their dot leads to.
ghost use Rattle.std.specs.Prelude.{◌≡◌, length};
ghost use Rattle.base.specs.Pick.{pick};
ghost use Rattle.rules.specs.Records.{records};
ghost use Rattle.grammar.specs.Asked.{InRange};
ghost use Rattle.grammar.specs.Symbols.{symbol_named};
ghost use Rattle.room.specs.Areas.{view};
ghost use Rattle.room.specs.Bounds.{LongEnough, IsEntry, IsState};
ghost use Rattle.states.specs.StatesIn.{entry_in, PlacedRun, put_next};
ghost use Rattle.lr.specs.Kernels.{stands_before};
ghost use Rattle.lr.specs.Links.{Leads};

use super::kernels::before;
use grammar::symbols::Symbol;
use rules::StateIndex;
use states::{item, put_next};

// The entry at place k leads to state t if it stands before the symbol.
fn lead_at(g: &[u8], symbol: Symbol, k: usize, t: StateIndex, work: &mut [u64])
    requires { LongEnough work.old × IsEntry k × IsState t × InRange (entry_in (view work.old) k).item g.now }
    ensures { view work.new ≡ pick (stands_before (records g.now) (symbol_named symbol) (view work.old) k) (put_next k t (view work.old)) (view work.old) }
{
    let i = item(work, k);
    if before(g, symbol, i) {
        put_next(work, k, t);
    }
}

// Every entry from `first` to `end` that stands before the symbol leads to state t.
pub fn lead(g: &[u8], symbol: Symbol, first: usize, end: usize, t: StateIndex, work: &mut [u64])
    requires { LongEnough work.old × IsState t × PlacedRun (length (records g.now)) (view work.old) first end }
    ensures { Leads g.now (symbol_named symbol) first end t.0 work.old work.new }
{
    for k in first..end {
        lead_at(g, symbol, k, t, work);
    }
}
