// The actions of a state, put into their area in the order of their columns: lane_table/mod.rs, conflicting_actions. An action past the
// last column is counted and not put.
ghost use Rattle.std.specs.Prelude.{◌≡◌, [], ◌∷◌, ◌+◌, ◌≤◌, ◌<◌, length};
ghost use Rattle.rules.specs.Limits.{max_terminals};
ghost use Rattle.rules.specs.Records.{records};
ghost use Rattle.rules.specs.Grammar.{terminal_count};
ghost use Rattle.grammar.specs.Asked.{Faultless};
ghost use Rattle.room.specs.Areas.{view};
ghost use Rattle.room.specs.Bounds.{LongEnough, IsState, FewTerminals};
ghost use Rattle.lookahead.specs.Sets.{IsToken};
ghost use Rattle.states.specs.StatesIn.{run_in, entry_in, PlacedAt};
ghost use Rattle.conflicts.specs.Counts.{Readable};
ghost use Rattle.lane_table.specs.Actions.{action_of, ActionFits};
ghost use Rattle.lane_table.specs.Numbers.{number_of};
ghost use Rattle.actions.specs.Puts.{max_actions, is_shift_put, is_all, is_put, Added, ShiftAdded, ShiftsAdded, ReductionAdded, ReductionsAdded, EntriesAdded, ActionsPut};

use super::{reduce_conflicts, shift_conflicts};
use conflicts::is_shifted;
use grammar::items::at_end;
use lane_table::area::{Action, write_action};
use rules::{ConflictIndex, StateIndex};
use states::{end_entry, first_entry, item};

const MAX_COLUMNS: usize = 16;

// An action is put into column c; the column behind it.
fn add_action(g: &[u8], c: usize, action: Action, work: &mut [u64]) -> usize
    requires { LongEnough work.old × (c < max_actions) × ActionFits g.now (number_of action) }
    ensures { Added g.now (action_of (number_of action) ∷ []) c result (view work.old) (view work.new) × (result ≡ c + 1) }
{
    if c >= MAX_COLUMNS {
        return c + 1;
    }
    write_action(work, ConflictIndex(c), action);
    c + 1
}

// The entries of a state, by their places, and the number of the grammar's terminals.
#[derive(Clone, Copy)]
struct Run {
    terminals: usize,
    first: usize,
    end: usize,
}

// Which reductions are put: those that are in a conflict, or all.
#[derive(Clone, Copy)]
enum Reductions {
    Conflicting,
    All,
}

// The state shifts terminal t, and the shift is in a conflict.
#[tactic(auto, unfolding(crate::specs::Puts::is_shift_put))]
fn is_shift_put(g: &[u8], run: Run, t: usize, work: &[u64]) -> bool
    requires { Readable g.now work.now run.first run.end × IsToken t }
    ensures { result ≡ is_shift_put (records g.now) (run_in (view work.now) run.first run.end) t }
{
    is_shifted(g, t, run.first, run.end, work) && shift_conflicts(g, t, run.first, run.end, work)
}

// The shift of terminal t is put, if the state has one to be put.
fn put_shift(g: &[u8], run: Run, t: usize, c: usize, work: &mut [u64]) -> usize
    requires { Readable g.now work.old run.first run.end × (c < max_actions) × IsToken t }
    ensures { ShiftAdded g.now run.first run.end t c result (view work.old) (view work.new) × (result ≤ c + 1) }
{
    if !is_shift_put(g, run, t, work) {
        return c;
    }
    add_action(g, c, Action::Shift(t), work)
}

// The shifts that are in a conflict are put, ascending.
fn put_shifts(g: &[u8], run: Run, work: &mut [u64]) -> usize
    requires { Readable g.now work.old run.first run.end × FewTerminals run.terminals × (run.terminals ≡ terminal_count (records g.now)) }
    ensures { ShiftsAdded g.now run.first run.end result (view work.old) (view work.new) × (result ≤ run.terminals) }
{
    let mut c: usize = 0;
    for t in 0..run.terminals {
        c = put_shift(g, run, t, c, work);
    }
    c
}

// The entry at place k is a reduction that is to be put.
#[tactic(auto, unfolding(crate::specs::Puts::is_put))]
fn is_put(g: &[u8], run: Run, which: Reductions, k: usize, work: &[u64]) -> bool
    requires { Readable g.now work.now run.first run.end × (run.first ≤ k) × (k < run.end) × FewTerminals run.terminals × (run.terminals ≡ terminal_count (records g.now)) }
    ensures { result ≡ is_put (records g.now) (is_all which) (run_in (view work.now) run.first run.end) (entry_in (view work.now) k) }
{
    at_end(g, item(work, k))
        && match which {
            Reductions::Conflicting => {
                reduce_conflicts(g, run.terminals, k, run.first, run.end, work)
            }
            Reductions::All => true,
        }
}

// The reduction at place k is put, if there is one to be put.
fn put_reduction(
    g: &[u8],
    run: Run,
    which: Reductions,
    k: usize,
    c: usize,
    work: &mut [u64],
) -> usize
    requires { Readable g.now work.old run.first run.end × (run.first ≤ k) × (k < run.end) × (c < max_actions) × FewTerminals run.terminals × (run.terminals ≡ terminal_count (records g.now)) }
    ensures { ReductionAdded g.now (is_all which) run.first run.end k c result (view work.old) (view work.new) × (result ≤ c + 1) }
{
    if !is_put(g, run, which, k, work) {
        return c;
    }
    add_action(g, c, Action::Reduce(item(work, k)), work)
}

// The reductions are put from column `from` on, in the order of the entries.
fn put_reductions(g: &[u8], run: Run, which: Reductions, from: usize, work: &mut [u64]) -> usize
    requires { Readable g.now work.old run.first run.end × (from ≤ max_terminals) × FewTerminals run.terminals × (run.terminals ≡ terminal_count (records g.now)) }
    ensures { ReductionsAdded g.now (is_all which) run.first run.end from result (view work.old) (view work.new) }
{
    let mut c = from;
    for k in run.first..run.end {
        c = put_reduction(g, run, which, k, c, work);
    }
    c
}

// The actions of the entries are put: those that are in any conflict; if there are none, all reductions.
fn put_entries(g: &[u8], run: Run, work: &mut [u64]) -> usize
    requires { Readable g.now work.old run.first run.end × FewTerminals run.terminals × (run.terminals ≡ terminal_count (records g.now)) }
    ensures { EntriesAdded g.now run.first run.end result (view work.old) (view work.new) }
{
    let shifts = put_shifts(g, run, work);
    let count = put_reductions(g, run, Reductions::Conflicting, shifts, work);
    if count != 0 {
        return count;
    }
    put_reductions(g, run, Reductions::All, 0, work)
}

// The actions of a state are put into their area. How many they are, or none if they are more than there are columns. n is the grammar's
// number of terminals.
pub fn put_actions(g: &[u8], n: usize, state: StateIndex, work: &mut [u64]) -> Option<usize>
    requires faultless { Faultless g.now × (n ≡ terminal_count (records g.now)) }
    requires long_enough { LongEnough work.old × IsState state × PlacedAt (length (records g.now)) (view work.old) state.0 }
    ensures { ActionsPut g.now state.0 (view work.old) result (view work.new) }
{
    let run = Run {
        terminals: n,
        first: first_entry(work, state),
        end: end_entry(work, state),
    };
    let count = put_entries(g, run, work);
    if count > MAX_COLUMNS {
        return None;
    }
    Some(count)
}
