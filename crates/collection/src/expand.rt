// A state is closed, and its transitions are added: build/mod.rs, a turn of build_states.
ghost use Rattle.std.specs.Prelude.{◌+◌, ◌<◌, is_some};
ghost use Rattle.closures.specs.Closures.{is_canonical};
ghost use Rattle.lr.specs.Kernels.{Parented};
ghost use Rattle.collection.specs.Collections.{Collectable};
ghost use Rattle.collection.specs.Expands.{ClosesNext, ExpandsNext};

use super::kernels::append_next;
use closures::close::close;
use lr::transitions::add_transitions;
use rules::{BuildRefusal, Mode, StateIndex};
use states::{end_state, first_entry};

// State s is closed behind the states before it; none if its entries pass the limit.
fn close_next(
    g: &[u8],
    mode: Mode,
    n: usize,
    m: usize,
    s: StateIndex,
    work: &mut [u64],
) -> Option<()>
    requires { Collectable g.now n m work.old × Parented g.now s.0 (s.0 + 1) work.old }
    ensures { ClosesNext g.now (is_canonical mode) n s.0 work.old work.new (is_some result) }
{
    let first = first_entry(work, s);
    let end = append_next(g, mode, n, s, work)?;
    let to = close(g, mode, n, m, first, end, work)?;
    end_state(work, s, to);
    Some(())
}

// State s is closed, where 10 is met, and its transitions are added. There are `count` states, and those before s are expanded.
pub fn expand_next(
    g: &[u8],
    mode: Mode,
    n: usize,
    m: usize,
    s: StateIndex,
    count: usize,
    work: &mut [u64],
) -> Result<usize, BuildRefusal>
    requires { Collectable g.now n m work.old × Parented g.now s.0 count work.old × (s.0 < count) }
    ensures { ExpandsNext g.now (is_canonical mode) n s.0 count work.old work.new result }
{
    close_next(g, mode, n, m, s, work).ok_or(BuildRefusal::Items)?;
    add_transitions(g, n, m, s, count, work)
}
