// The builder: the whole call. Refusals 1 to 3 come first, then 4 to 8, then 9 to 12 where the construction meets them, then 13, then 14.
// n and m are the grammar's numbers of terminals and nonterminals.
#![tactic(auto)]

ghost use Rattle.std.specs.Prelude.{◌≡◌};
ghost use Rattle.rules.specs.Limits.{limits};
ghost use Rattle.rules.specs.Records.{records};
ghost use Rattle.rules.specs.Grammar.{grammar_answer, terminal_count};
ghost use Rattle.rules.specs.First.{first_sets};
ghost use Rattle.rules.specs.States.{done};
ghost use Rattle.rules.specs.Merge as Merge;
ghost use Rattle.rules.specs.FinalCheck.{checked};
ghost use Rattle.rules.specs.Build.{constructed, build_coded};
ghost use Rattle.rules.specs.Build as Build;
ghost use Rattle.rules.specs.Modes.{mode_number};
ghost use Rattle.room.specs.Areas.{view};
ghost use Rattle.room.specs.Bounds.{LongEnough};
ghost use Rattle.first.specs.Firsts.{firsts_in};
ghost use Rattle.states.specs.StatesIn.{states_in};
ghost use Rattle.least_sets.specs.Steps.{Ready};
ghost use Rattle.collection.specs.Collections.{Collectable};
ghost use Rattle.visits.specs.Visits.{Constructs};
ghost use Rattle.table_records.specs.Result.{gave_in};
ghost use Rattle.builder.specs.Results.{Gives};

use collection::build::build_canonical_states;
use final_check::final_check;
use first::rounds::first_sets;
use grammar_check::check_grammar;
use grammar_numbers::counts::{nonterminal_count, terminal_count};
use room::{WORK, clear};
use rules::{BuildRefusal, Mode, TableSize};
use table_records::result::write_states;
use visits::lanes;

// The states, or 13 with the lowest state that fails the final check.
fn check_states(g: &[u8], n: usize, count: usize, work: &mut [u64]) -> Result<usize, BuildRefusal>
    requires { LongEnough work.old × Ready g.now count (view work.old) × (n ≡ terminal_count (records g.now)) }
    ensures { Constructs g.now (checked (records g.now) (done (states_in (view work.old) count))) (view work.old) (view work.new) result }
{
    match final_check(g, n, count, work) {
        Some(state) => Err(BuildRefusal::FinalCheck(state)),
        None => Ok(count),
    }
}

// The states of lane mode, with the final check.
fn lane_states(g: &[u8], n: usize, m: usize, work: &mut [u64]) -> Result<usize, BuildRefusal>
    requires { Collectable g.now n m work.old × (firsts_in (records g.now) (view work.old) ≡ first_sets (records g.now)) }
    ensures { Constructs g.now (checked (records g.now) (Merge.lanes limits (records g.now))) (view work.old) (view work.new) result }
{
    let count = lanes(g, n, m, work)?;
    check_states(g, n, count, work)
}

// The states that a mode gives.
fn construct_states(
    mode: Mode,
    g: &[u8],
    n: usize,
    m: usize,
    work: &mut [u64],
) -> Result<usize, BuildRefusal>
    requires { Collectable g.now n m work.old × (firsts_in (records g.now) (view work.old) ≡ first_sets (records g.now)) }
    ensures { Constructs g.now (constructed limits (records g.now) (mode_number mode)) (view work.old) (view work.new) result }
{
    match mode {
        Mode::Lane => lane_states(g, n, m, work),
        Mode::Canonical => build_canonical_states(g, n, m, work),
    }
}

// The table of a grammar: refusals 3 to 14.
fn build_table(
    mode: Mode,
    g: &[u8],
    table: &mut [u8],
    work: &mut [u64],
) -> Result<TableSize, BuildRefusal>
    requires { LongEnough work.old }
    ensures gives { Gives (build_coded limits (mode_number mode) g.now (grammar_answer limits g.now) table.old) result table.new }
    ensures work_unchanged { (view work.new).rest ≡ (view work.old).rest }
{
    check_grammar(g)?;
    let n = terminal_count(g);
    let m = nonterminal_count(g);
    first_sets(g, n, m, work);
    match construct_states(mode, g, n, m, work) {
        Err(why) => Err(why),
        Ok(count) => write_states(g, n, m, count, work, table),
    }
}

// The builder's call: mode 0 is lane, 1 canonical. The mode is a number, since every other one has its refusal.
#[tactic(auto, using(crate::proofs::Calling::bad_mode))]
pub fn build(
    mode: u64,
    g: &[u8],
    table: &mut [u8],
    work: &mut [u64],
) -> Result<TableSize, BuildRefusal>
    ensures { gave_in result table.new work.new ≡ Build.build limits mode g.now table.old work.old }
{
    let mode = Mode::try_from(mode)?;
    if work.len() < WORK {
        return Err(BuildRefusal::WorkRoom);
    }
    let answer = build_table(mode, g, table, work);
    clear(work);
    answer
}
