// The state graph: state_graph.rs. It is made once for each lane table: bit p of the links of state s says that an entry of state p leads
// to s. Who asks for the predecessors of a state looks only into the states that link to it.
#![tactic(auto)]

ghost use Rattle.std.specs.Prelude.{◌≡◌, ◌≤◌, ◌<◌, length};
ghost use Rattle.base.specs.Lists.{some_of};
ghost use Rattle.rules.specs.Limits.{max_states};
ghost use Rattle.rules.specs.Records.{records};
ghost use Rattle.rules.specs.Grammar.{is_before};
ghost use Rattle.grammar.specs.Asked.{InRange};
ghost use Rattle.room.specs.Areas.{view};
ghost use Rattle.room.specs.Bounds.{LongEnough, IsState, IsEntry};
ghost use Rattle.states.specs.StatesIn.{entry_in, state_in, PlacedAt, Placed};
ghost use Rattle.state_graph.specs.Graph.{leads_to, symbol_at};
ghost use Rattle.state_graph.specs.Links.{OnlyLinks, LinkedAt, EntryLinked, StateLinked, StatesLinked};

use grammar::items::{at_end, before_nonterminal, before_terminal};
use grammar::records::{is_terminal, symbol};
use marks::{Links, clear, has, mark};
use rules::StateIndex;
use states::{MAX_STATES, end_entry, first_entry, item, next};

// No state links to any of the first states.
fn clear_graph(count: usize, work: &mut [u64])
    requires { LongEnough work.old × (count ≤ max_states) }
    ensures { OnlyLinks (view work.old) (view work.new) }
{
    for s in 0..count {
        clear::<Links>(work, StateIndex(s));
    }
}

// The state p links to the state that the entry at place k leads to, if its dot stands before a symbol.
fn link_entry(g: &[u8], p: StateIndex, k: usize, work: &mut [u64])
    requires { LongEnough work.old × IsState p × IsEntry k × ((entry_in (view work.old) k).item < length (records g.now)) }
    ensures { EntryLinked g.now p.0 k (view work.old) (view work.new) }
{
    if at_end(g, item(work, k)) {
        return;
    }
    let to = next(work, k);
    if to.0 >= MAX_STATES {
        return;
    }
    mark::<Links>(work, to, p);
}

// The state p links to each state that one of its entries leads to.
fn link_state(g: &[u8], p: StateIndex, work: &mut [u64])
    requires { LongEnough work.old × IsState p × PlacedAt (length (records g.now)) (view work.old) p.0 }
    ensures { StateLinked g.now p.0 (view work.old) (view work.new) }
{
    let first = first_entry(work, p);
    let end = end_entry(work, p);
    for k in first..end {
        link_entry(g, p, k, work);
    }
}

// The graph of the first states is made. state_graph.rs: new
pub fn link_states(g: &[u8], count: usize, work: &mut [u64])
    requires { LongEnough work.old × Placed (length (records g.now)) count (view work.old) }
    ensures { StatesLinked g.now count (view work.old) (view work.new) }
{
    clear_graph(count, work);
    for p in 0..count {
        link_state(g, StateIndex(p), work);
    }
}

// The symbol of record i stands directly behind the dot of item j.
#[tactic(auto, unfolding(rules::specs::Grammar::symbol_of))]
fn before_symbol(g: &[u8], i: usize, j: usize) -> bool
    requires { InRange i g.now × InRange j g.now }
    ensures { result ≡ is_before (records g.now) (symbol_at g.now i) j }
{
    let x = symbol(g, i);
    if is_terminal(g, i) {
        before_terminal(g, x, j)
    } else {
        before_nonterminal(g, x, j)
    }
}

// The entry at place k leads to the state over the symbol of record i.
#[tactic(auto, unfolding(crate::specs::Graph::leads_to))]
fn leads_by(g: &[u8], work: &[u64], k: usize, state: StateIndex, i: usize) -> bool
    requires { LongEnough work.now × IsEntry k × InRange i g.now × ((entry_in (view work.now) k).item < length (records g.now)) }
    ensures { result ≡ leads_to (records g.now) state.0 (symbol_at g.now i) (entry_in (view work.now) k) }
{
    next(work, k).0 == state.0 && before_symbol(g, i, item(work, k))
}

// The state p leads to the state over the symbol of record i; only a state that links to it can. state_graph.rs: predecessors
pub fn leads(g: &[u8], work: &[u64], p: StateIndex, state: StateIndex, i: usize) -> bool
    requires long_enough { LongEnough work.now × InRange i g.now × IsState p × IsState state }
    requires placed_at { PlacedAt (length (records g.now)) (view work.now) p.0 × LinkedAt g.now (view work.now) p.0 }
    ensures { result ≡ some_of (leads_to (records g.now) state.0 (symbol_at g.now i)) (state_in (view work.now) p.0) }
{
    has::<Links>(work, state, p)
        && (first_entry(work, p)..end_entry(work, p)).any(|k| leads_by(g, work, k, state, i))
}
