// Kernels written behind the last state.
ghost use Rattle.std.specs.Prelude.{◌≤◌, length};
ghost use Rattle.rules.specs.Limits.{max_bytes, max_entries};
ghost use Rattle.rules.specs.Records.{records};
ghost use Rattle.grammar.specs.Symbols.{symbol_named};
ghost use Rattle.room.specs.Areas.{view};
ghost use Rattle.room.specs.Bounds.{LongEnough};
ghost use Rattle.states.specs.StatesIn.{PlacedRun};
ghost use Rattle.closures.specs.Runs.{AppendedRun};
ghost use Rattle.lr.specs.Kernels.{run_kernel};

use super::kernels::before;
use grammar::symbols::Symbol;
use room::slots::entry_slot;
use states::{MAX_ENTRIES, append_entry, item};

// What the entries from `first` to `last` become over the symbol is appended at the place `end`, behind them. Where it ends, or none if it passes
// the limit.
pub fn append_kernel(
    g: &[u8],
    symbol: Symbol,
    first: usize,
    last: usize,
    end: usize,
    work: &mut [u64],
) -> Option<usize>
    requires long_enough { LongEnough work.old × (length g.now ≤ max_bytes) × (last ≤ end) × (end ≤ max_entries) }
    requires placed_run { PlacedRun (length (records g.now)) (view work.old) first last }
    ensures { AppendedRun end (run_kernel g.now (symbol_named symbol) (view work.old) first last) (view work.old) (view work.new) result }
{
    let mut to = end;
    for k in first..last {
        let i = item(work, k);
        if !before(g, symbol, i) {
            continue;
        }
        if to == MAX_ENTRIES {
            return None;
        }
        let slot = entry_slot(k);
        append_entry(work, to, i + 1, slot);
        to += 1;
    }
    Some(to)
}
