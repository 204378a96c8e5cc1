// The visits of lane mode: construct/mod.rs. States are visited by number, clones included as they appear.
#![tactic(auto)]

ghost use Rattle.std.specs.Prelude.{◌<◌, ◌≡◌};
ghost use Rattle.rules.specs.Limits.{limits};
ghost use Rattle.rules.specs.Records.{records};
ghost use Rattle.rules.specs.First.{first_sets};
ghost use Rattle.rules.specs.Merge.{lanes};
ghost use Rattle.room.specs.Areas.{view};
ghost use Rattle.room.specs.Bounds.{LongEnough};
ghost use Rattle.first.specs.Firsts.{firsts_in};
ghost use Rattle.collection.specs.Collections.{Collectable};
ghost use Rattle.visits.specs.Visits.{Visitable, Resolves, ResolvesAll, Constructs};

use actions::put::put_actions;
use collection::build::build_lr0_states;
use lane::Lanes;
use lane_table::build::build_lane_table;
use merging::resolve_by;
use rules::{BuildRefusal, StateIndex};

// The visit of a state: its actions, 11 if there are too many of them, then its lane table. A state with no action is left. n is the
// grammar's number of terminals. construct/mod.rs: resolve_inconsistencies
fn resolve(
    g: &[u8],
    n: usize,
    count: usize,
    state: StateIndex,
    work: &mut [u64],
) -> Result<usize, BuildRefusal>
    requires { Visitable g.now n count (view work.old) × LongEnough work.old × (state.0 < count) }
    ensures { Resolves g.now n state.0 count (view work.old) result (view work.new) }
{
    let columns = put_actions(g, n, state, work).ok_or(BuildRefusal::Actions(state))?;
    if columns == 0 {
        return Ok(count);
    }
    let lanes = Lanes {
        terminals: n,
        states: count,
        columns: columns,
    };
    build_lane_table(g, lanes, state, work);
    resolve_by(g, lanes, state, work)
}

// The visits of all states, by number. Clones are visited too, so the bound of the loop grows as it runs. construct/mod.rs: construct, its loop
fn resolve_all(g: &[u8], n: usize, states: usize, work: &mut [u64]) -> Result<usize, BuildRefusal>
    requires { Visitable g.now n states (view work.old) × LongEnough work.old }
    ensures { ResolvesAll g.now n states (view work.old) result (view work.new) }
{
    let mut count = states;
    let mut next: usize = 0;
    while next < count {
        let state = StateIndex(next);
        next += 1;
        count = resolve(g, n, count, state, work)?;
    }
    Ok(count)
}

// Lane mode up to the final check, from FIRST as it lies in the room. n and m are the grammar's numbers of terminals and nonterminals.
// construct/mod.rs: construct
pub fn lanes(g: &[u8], n: usize, m: usize, work: &mut [u64]) -> Result<usize, BuildRefusal>
    requires { Collectable g.now n m work.old × (firsts_in (records g.now) (view work.old) ≡ first_sets (records g.now)) }
    ensures { Constructs g.now (lanes limits (records g.now)) (view work.old) (view work.new) result }
{
    let count = build_lr0_states(g, n, m, work)?;
    resolve_all(g, n, count, work)
}
