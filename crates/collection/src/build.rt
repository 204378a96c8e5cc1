// All states, from state 0 on: build/mod.rs, build_states. n and m are the grammar's numbers of terminals and nonterminals.
ghost use Rattle.std.specs.Prelude.{◌≡◌, length};
ghost use Rattle.rules.specs.Limits.{limits};
ghost use Rattle.rules.specs.Records.{records};
ghost use Rattle.rules.specs.First.{first_sets};
ghost use Rattle.rules.specs.Grammar.{terminal_count};
ghost use Rattle.rules.specs.States.{lr0_states, canonical};
ghost use Rattle.grammar.specs.Asked.{Faultless};
ghost use Rattle.room.specs.Areas.{view};
ghost use Rattle.room.specs.Bounds.{LongEnough};
ghost use Rattle.first.specs.Firsts.{firsts_in};
ghost use Rattle.states.specs.StatesIn.{first_of, Placed};
ghost use Rattle.closures.specs.Closures.{is_canonical};
ghost use Rattle.collection.specs.Collections.{Collectable, all_states, StatesBuilt, ConflictsCounted};

use super::expand::expand_next;
use conflicts::conflict_count;
use room::areas::{FirstEntries, put};
use rules::{BuildRefusal, Mode, StateIndex};

// States are expanded in the order of their numbers until each is. The entries begin at place 0. The bound of the loop grows as it runs.
fn expand_all(
    g: &[u8],
    mode: Mode,
    n: usize,
    m: usize,
    work: &mut [u64],
) -> Result<usize, BuildRefusal>
    requires { Collectable g.now n m work.old × (first_of (view work.old) 0 ≡ 0) }
    ensures { StatesBuilt g.now (all_states g.now (is_canonical mode) n (view work.old)) (view work.old) (view work.new) result }
{
    let mut count = 1;
    let mut next = 0;
    while next < count {
        let s = next;
        next += 1;
        count = expand_next(g, mode, n, m, StateIndex(s), count, work)?;
    }
    Ok(count)
}

// The states of either construction.
fn build_states(
    g: &[u8],
    mode: Mode,
    n: usize,
    m: usize,
    work: &mut [u64],
) -> Result<usize, BuildRefusal>
    requires { Collectable g.now n m work.old }
    ensures { StatesBuilt g.now (all_states g.now (is_canonical mode) n (view work.old)) (view work.old) (view work.new) result }
{
    put::<FirstEntries>(work, StateIndex(0), 0);
    expand_all(g, mode, n, m, work)
}

// The LR(0) states, in which every reduction has every token. build/mod.rs: build_lr0_states
pub fn build_lr0_states(
    g: &[u8],
    n: usize,
    m: usize,
    work: &mut [u64],
) -> Result<usize, BuildRefusal>
    requires { Collectable g.now n m work.old }
    ensures { StatesBuilt g.now (lr0_states limits (records g.now)) (view work.old) (view work.new) result }
{
    build_states(g, Mode::Lane, n, m, work)
}

// Refusal 12 with the number of conflicts, if the states have any.
fn unless_conflict(g: &[u8], n: usize, count: usize, work: &[u64]) -> Result<usize, BuildRefusal>
    requires { Faultless g.now × (n ≡ terminal_count (records g.now)) × LongEnough work.now × Placed (length (records g.now)) count (view work.now) }
    ensures { ConflictsCounted g.now count (view work.now) result }
{
    let conflicts = conflict_count(g, n, count, work);
    if conflicts != 0 {
        return Err(BuildRefusal::Conflicts(conflicts));
    }
    Ok(count)
}

// The canonical states, from FIRST as it lies in the room; 12 with the number of their conflicts if there are any.
// build/mod.rs: build_lr1_states_legacy
pub fn build_canonical_states(
    g: &[u8],
    n: usize,
    m: usize,
    work: &mut [u64],
) -> Result<usize, BuildRefusal>
    requires { Collectable g.now n m work.old × (firsts_in (records g.now) (view work.old) ≡ first_sets (records g.now)) }
    ensures { StatesBuilt g.now (canonical limits (records g.now)) (view work.old) (view work.new) result }
{
    let count = build_states(g, Mode::Canonical, n, m, work)?;
    unless_conflict(g, n, count, work)
}
