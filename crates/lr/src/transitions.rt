// The transitions of a state: build/mod.rs. Until a state is closed it is just its parent and the symbol that leads to it.
ghost use Rattle.std.specs.Prelude.{◌≡◌, ◌+◌, ◌≤◌, ◌<◌};
ghost use Rattle.rules.specs.Limits.{max_nonterminals};
ghost use Rattle.rules.specs.Records.{records};
ghost use Rattle.rules.specs.Grammar.{terminal_count, nonterminal_count};
ghost use Rattle.rules.specs.States.{symbols};
ghost use Rattle.grammar.specs.Symbols.{symbol_named, number_named};
ghost use Rattle.packed.specs.Packed.{low, middle, high};
ghost use Rattle.room.specs.Bounds.{IsState, IsNonterminal, FewTerminals};
ghost use Rattle.lr.specs.Kernels.{symbol_by, Parented};
ghost use Rattle.lr.specs.Expansions.{Transition, Transitions};

use super::kernels::{find_before, find_kernel};
use super::links::lead;
use grammar::symbols::Symbol;
use packed::Parent;
use room::areas::{Parents, put};
use rules::{BuildRefusal, StateIndex};
use states::{MAX_STATES, end_entry, first_entry};

// The word of a parent: state s, and the symbol over which it leads.
fn parent_over(s: StateIndex, symbol: Symbol) -> u64
    requires { IsState s × IsNonterminal (number_named symbol) }
    ensures { (low result ≡ s.0) × (symbol_by (high result) (middle result) ≡ symbol_named symbol) × (high result < 2) }
{
    match symbol {
        Symbol::Nonterminal(a) => Parent {
            state: s,
            symbol: a,
            kind: 0,
        }
        .pack(),
        Symbol::Terminal(t) => Parent {
            state: s,
            symbol: t,
            kind: 1,
        }
        .pack(),
    }
}

// The transition of state s over a symbol: a state with an equal kernel is reused, else the next number is given, and 9 is met there.
// Inlined into both loops of `add_transitions`: a call for each symbol costs a large canonical build a quarter more instructions.
#[inline(always)]
fn add_transition(
    g: &[u8],
    symbol: Symbol,
    s: StateIndex,
    count: usize,
    work: &mut [u64],
) -> Result<usize, BuildRefusal>
    requires { Parented g.now (s.0 + 1) count work.old × IsState s × IsNonterminal (number_named symbol) × (0 < count) }
    ensures { Transition g.now (symbol_named symbol) s.0 count work.old work.new result }
{
    let first = first_entry(work, s);
    let end = end_entry(work, s);
    if find_before(g, symbol, work, first, end).is_none() {
        return Ok(count);
    }
    if let Some(t) = find_kernel(g, symbol, work, s, count) {
        lead(g, symbol, first, end, StateIndex(t), work);
        return Ok(count);
    }
    if count == MAX_STATES {
        return Err(BuildRefusal::States);
    }
    put::<Parents>(work, StateIndex(count), parent_over(s, symbol));
    lead(g, symbol, first, end, StateIndex(count), work);
    Ok(count + 1)
}

// All transitions of state s: over nonterminals, then terminals, each ascending. n and m are the grammar's numbers of terminals and
// nonterminals.
pub fn add_transitions(
    g: &[u8],
    n: usize,
    m: usize,
    s: StateIndex,
    count: usize,
    work: &mut [u64],
) -> Result<usize, BuildRefusal>
    requires parented { Parented g.now (s.0 + 1) count work.old × IsState s × (0 < count) × FewTerminals n × (m ≤ max_nonterminals) }
    requires n_value { (n ≡ terminal_count (records g.now)) × (m ≡ nonterminal_count (records g.now)) }
    ensures { Transitions g.now (symbols (records g.now)) s.0 count work.old work.new result }
{
    let mut states = count;
    for a in 0..m {
        states = add_transition(g, Symbol::Nonterminal(a), s, states, work)?;
    }
    for t in 0..n {
        states = add_transition(g, Symbol::Terminal(t), s, states, work)?;
    }
    Ok(states)
}
