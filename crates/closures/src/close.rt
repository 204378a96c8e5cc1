// The closed state: behind its kernel the left-side records of every nonterminal that has a set, ascending.
ghost use Rattle.std.specs.Prelude.{◌≡◌, ◌&&◌, not, ◌≤◌, length};
ghost use Rattle.base.specs.Lists.{some_of};
ghost use Rattle.rules.specs.Limits.{max_entries};
ghost use Rattle.rules.specs.Records.{at, records};
ghost use Rattle.rules.specs.Tokens.{is_empty_set};
ghost use Rattle.rules.specs.Grammar.{at_start, terminal_count, nonterminal_count};
ghost use Rattle.rules.specs.First.{set_of};
ghost use Rattle.grammar.specs.Asked.{InRange};
ghost use Rattle.room.specs.Areas.{view};
ghost use Rattle.room.specs.Bounds.{LongEnough, IsEntry};
ghost use Rattle.states.specs.StatesIn.{entry_in, run_in, PlacedRun};
ghost use Rattle.closures.specs.Closures.{is_canonical, Closable, closures_in, entry_closes};
ghost use Rattle.closures.specs.Runs.{AppendedRun, Closes, present_in};

use super::items::closes;
use super::rounds::closure_sets;
use grammar::items::at_start;
use grammar::records::{record_count, symbol};
use lookahead::is_empty;
use room::slots::{closure_slot, entry_slot};
use rules::Mode;
use states::{MAX_ENTRIES, append_entry, item};

// Some entry of the run from `first` to `end` closes.
fn some_closes(g: &[u8], first: usize, end: usize, work: &[u64]) -> bool
    requires { LongEnough work.now × PlacedRun (length (records g.now)) (view work.now) first end }
    ensures { result ≡ some_of (entry_closes (records g.now)) (run_in (view work.now) first end) }
{
    (first..end).any(
        |k|
            requires { LongEnough work.now × IsEntry k × InRange (entry_in (view work.now) k).item g.now }
        { closes(g, item(work, k), work, entry_slot(k)) },
    )
}

// Record i is a left side whose nonterminal has a set.
fn is_present(g: &[u8], n: usize, i: usize, work: &[u64]) -> bool
    requires { Closable g.now n work.now × InRange i g.now }
    ensures { result ≡ (at_start (records g.now) i && not (is_empty_set (set_of (closures_in (records g.now) (view work.now)) (at (records g.now) i).symbol))) }
{
    if !at_start(g, i) {
        return false;
    }
    let own = closure_slot(symbol(g, i));
    !is_empty(work, own)
}

// The entries of the left-side records that are present are appended at the place `end`. Where they end, or none if they pass the limit.
fn append_left_sides(g: &[u8], n: usize, end: usize, work: &mut [u64]) -> Option<usize>
    requires { Closable g.now n work.old × (end ≤ max_entries) }
    ensures { AppendedRun end (present_in g.now (view work.old)) (view work.old) (view work.new) result }
{
    let count = record_count(g);
    let mut to = end;
    for i in 0..count {
        if !is_present(g, n, i, work) {
            continue;
        }
        if to == MAX_ENTRIES {
            return None;
        }
        let own = closure_slot(symbol(g, i));
        append_entry(work, to, i, own);
        to += 1;
    }
    Some(to)
}

// The kernel that lies from `first` to `end` is closed: behind it the left-side records of its closure are appended; where no entry closes,
// there are none. Where its entries end, or none if they pass the limit. n and m are the grammar's numbers of terminals and nonterminals. build/mod.rs: transitive_closure
pub fn close(
    g: &[u8],
    mode: Mode,
    n: usize,
    m: usize,
    first: usize,
    end: usize,
    work: &mut [u64],
) -> Option<usize>
    requires closable { Closable g.now n work.old × PlacedRun (length (records g.now)) (view work.old) first end }
    requires n_value { (n ≡ terminal_count (records g.now)) × (m ≡ nonterminal_count (records g.now)) }
    ensures { Closes g.now (is_canonical mode) n first end work.old work.new result }
{
    if !some_closes(g, first, end, work) {
        return Some(end);
    }
    closure_sets(g, mode, n, m, first, end, work);
    append_left_sides(g, n, end, work)
}
