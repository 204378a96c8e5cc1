// Least sets, collected in rounds over the entries of all states: each hands on to its moved dot, and then to the items behind its dot.
ghost use Rattle.std.specs.Prelude.{◌≡◌, not, ◌+◌, ◌<◌};
ghost use Rattle.rules.specs.Limits.{max_states};
ghost use Rattle.rules.specs.Records.{records};
ghost use Rattle.rules.specs.Grammar.{terminal_count};
ghost use Rattle.room.specs.Areas.{view};
ghost use Rattle.room.specs.Bounds.{LongEnough, IsEntry};
ghost use Rattle.states.specs.StatesIn.{first_of};
ghost use Rattle.least_steps.specs.Least.{least_of, OnlyLeast};
ghost use Rattle.least_sets.specs.Steps.{Ready, HasEntry, moved_least, is_moved, closed_least, is_closed};
ghost use Rattle.least_sets.specs.Steps.{settled_least, is_settled, state_least, is_state_settled, round_least, is_round_settled};
ghost use Rattle.least_sets.specs.Rounds.{rounds_least};

use least_steps::steps::{close_at, closes, move_at, moves};
use rules::StateIndex;
use states::{end_entry, first_entry};

// The place of entry k of the state.
fn place(work: &[u64], state: StateIndex, k: usize) -> usize
    requires { LongEnough work.now × (state.0 < max_states) × IsEntry (first_of (view work.now) state.0 + k) }
    ensures { result ≡ first_of (view work.now) state.0 + k }
{
    first_entry(work, state) + k
}

// Entry k of the state hands on to its moved dot, if it has a symbol behind its dot; says whether something was lacking.
fn move_entry(g: &[u8], state: StateIndex, k: usize, count: usize, work: &mut [u64]) -> bool
    requires { LongEnough work.old × Ready g.now count (view work.old) × HasEntry count (view work.old) state.0 k }
    ensures work_after { least_of count work.new ≡ moved_least g.now state.0 k count work.old }
    ensures only_least { OnlyLeast (view work.old) (view work.new) }
    ensures value { result ≡ not (is_moved g.now state.0 k count work.old) }
{
    let at = place(work, state, k);
    if !moves(g, at, work) {
        return false;
    }
    move_at(g, at, count, work)
}

// Entry k of the state hands on to the items behind its dot, if it has a nonterminal there; says whether something was lacking.
fn close_entry(
    g: &[u8],
    n: usize,
    state: StateIndex,
    k: usize,
    count: usize,
    work: &mut [u64],
) -> bool
    requires long_enough { LongEnough work.old × Ready g.now count (view work.old) × HasEntry count (view work.old) state.0 k }
    requires n_value { n ≡ terminal_count (records g.now) }
    ensures work_after { least_of count work.new ≡ closed_least g.now state.0 k count work.old }
    ensures only_least { OnlyLeast (view work.old) (view work.new) }
    ensures value { result ≡ not (is_closed g.now state.0 k count work.old) }
{
    let at = place(work, state, k);
    if !closes(g, at, work) {
        return false;
    }
    close_at(g, n, state, at, count, work)
}

// Entry k of the state hands on; says whether something was lacking.
fn settle_entry(
    g: &[u8],
    n: usize,
    state: StateIndex,
    k: usize,
    count: usize,
    work: &mut [u64],
) -> bool
    requires long_enough { LongEnough work.old × Ready g.now count (view work.old) × HasEntry count (view work.old) state.0 k }
    requires n_value { n ≡ terminal_count (records g.now) }
    ensures work_after { least_of count work.new ≡ settled_least g.now state.0 k count work.old }
    ensures only_least { OnlyLeast (view work.old) (view work.new) }
    ensures value { result ≡ not (is_settled g.now state.0 k count work.old) }
{
    let moved = move_entry(g, state, k, count, work);
    let closed = close_entry(g, n, state, k, count, work);
    moved | closed
}

// Each entry of the state hands on; says whether something was lacking.
fn settle_state(g: &[u8], n: usize, state: StateIndex, count: usize, work: &mut [u64]) -> bool
    requires { LongEnough work.old × Ready g.now count (view work.old) × (state.0 < count) × (n ≡ terminal_count (records g.now)) }
    ensures work_after { least_of count work.new ≡ state_least g.now state.0 count work.old }
    ensures only_least { OnlyLeast (view work.old) (view work.new) }
    ensures value { result ≡ not (is_state_settled g.now state.0 count work.old) }
{
    let size = end_entry(work, state) - first_entry(work, state);
    // No `any`, which stops at the first: each of them hands on.
    let mut lacked = false;
    for k in 0..size {
        lacked |= settle_entry(g, n, state, k, count, work);
    }
    lacked
}

// One round over the states; says whether something was lacking.
fn round(g: &[u8], n: usize, count: usize, work: &mut [u64]) -> bool
    requires { LongEnough work.old × Ready g.now count (view work.old) × (n ≡ terminal_count (records g.now)) }
    ensures work_after { least_of count work.new ≡ round_least g.now count work.old }
    ensures only_least { OnlyLeast (view work.old) (view work.new) }
    ensures value { result ≡ not (is_round_settled g.now count work.old) }
{
    // No `any`, which stops at the first: each of them hands on.
    let mut lacked = false;
    for s in 0..count {
        lacked |= settle_state(g, n, StateIndex(s), count, work);
    }
    lacked
}

// Rounds until one finds nothing that is lacking, at most as many as there are pairs of entry and token.
pub fn rounds(g: &[u8], n: usize, count: usize, work: &mut [u64])
    requires { LongEnough work.old × Ready g.now count (view work.old) × (n ≡ terminal_count (records g.now)) }
    ensures work_after { least_of count work.new ≡ rounds_least g.now n count work.old }
    ensures only_least { OnlyLeast (view work.old) (view work.new) }
{
    let entries = first_entry(work, StateIndex(count));
    let bound = entries * (n + 1);
    for turn in 0..bound {
        if !round(g, n, count, work) {
            return;
        }
    }
}
