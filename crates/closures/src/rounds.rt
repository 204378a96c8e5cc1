// The set of every nonterminal in the closure of a kernel, collected from the kernel and then in rounds over the left sides.
ghost use Rattle.std.specs.Prelude.{◌≡◌, ◌+◌, ◌*◌, ◌≤◌, length};
ghost use Rattle.rules.specs.Limits.{max_nonterminals};
ghost use Rattle.rules.specs.Records.{records};
ghost use Rattle.rules.specs.Grammar.{terminal_count, nonterminal_count};
ghost use Rattle.grammar.specs.Asked.{InRange};
ghost use Rattle.room.specs.Areas.{view};
ghost use Rattle.states.specs.StatesIn.{PlacedRun};
ghost use Rattle.closures.specs.Closures.{is_canonical, Closable, LeftSideCloses, LeftSidesClose, RoundsClose, KernelCloses, ClosuresCleared, ClosureFound};

use super::items::close_item;
use grammar::items::at_start;
use grammar::records::{record_count, symbol};
use lookahead::clear_set;
use room::slots::{closure_slot, entry_slot, hand_slot};
use rules::Mode;
use states::item;

// Record i, if it is a left side, hands on the set of its nonterminal; says whether something was lacking.
fn close_left_side(g: &[u8], mode: Mode, n: usize, i: usize, work: &mut [u64]) -> bool
    requires { Closable g.now n work.old × InRange i g.now }
    ensures { LeftSideCloses g.now (is_canonical mode) n i work.old work.new result }
{
    if !at_start(g, i) {
        return false;
    }
    let own = closure_slot(symbol(g, i));
    close_item(g, mode, n, i, work, own)
}

// One round over the left sides; says whether something was lacking.
fn round(g: &[u8], mode: Mode, n: usize, work: &mut [u64]) -> bool
    requires { Closable g.now n work.old }
    ensures { LeftSidesClose g.now (is_canonical mode) n work.old work.new result }
{
    let count = record_count(g);
    let mut changed = false;
    for i in 0..count {
        changed |= close_left_side(g, mode, n, i, work);
    }
    changed
}

// Rounds until one finds nothing that is lacking, at most m (n + 1) of them.
fn rounds(g: &[u8], mode: Mode, n: usize, m: usize, work: &mut [u64])
    requires { Closable g.now n work.old × (m ≤ max_nonterminals) }
    ensures { RoundsClose g.now (is_canonical mode) n (m * (n + 1)) work.old work.new }
{
    let bound = m * (n + 1);
    for turn in 0..bound {
        if !round(g, mode, n, work) {
            return;
        }
    }
}

// Every entry of the run from `first` to `end` hands on its set.
fn close_kernel(g: &[u8], mode: Mode, n: usize, first: usize, end: usize, work: &mut [u64])
    requires { Closable g.now n work.old × PlacedRun (length (records g.now)) (view work.old) first end }
    ensures { KernelCloses g.now (is_canonical mode) n first end work.old work.new }
{
    for k in first..end {
        let i = item(work, k);
        let from = entry_slot(k);
        close_item(g, mode, n, i, work, from);
    }
}

// The m nonterminals have no set.
fn clear_closures(g: &[u8], n: usize, m: usize, work: &mut [u64])
    requires { Closable g.now n work.old × (m ≡ nonterminal_count (records g.now)) }
    ensures { ClosuresCleared g.now m work.old work.new }
{
    for a in 0..m {
        let slot = closure_slot(a);
        clear_set(work, slot);
    }
}

// The set of each nonterminal in the closure of the kernel that lies from `first` to `end`, into its slot. The set at hand is left empty.
// n and m are the grammar's numbers of terminals and nonterminals.
pub fn closure_sets(
    g: &[u8],
    mode: Mode,
    n: usize,
    m: usize,
    first: usize,
    end: usize,
    work: &mut [u64],
)
    requires closable { Closable g.now n work.old × PlacedRun (length (records g.now)) (view work.old) first end }
    requires n_value { (n ≡ terminal_count (records g.now)) × (m ≡ nonterminal_count (records g.now)) }
    ensures { ClosureFound g.now (is_canonical mode) n first end work.old work.new }
{
    clear_closures(g, n, m, work);
    close_kernel(g, mode, n, first, end, work);
    rounds(g, mode, n, m, work);
    let hand = hand_slot();
    clear_set(work, hand);
}
