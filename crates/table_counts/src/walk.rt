// The records of the states, each handed to a sink: state by state its shifts, its gotos and its reductions. `at` is the number of the
// records before; each function returns the number of those up to the last that it has handed on. The loops are no folds, since each turn
// lends the room on.
ghost use Rattle.std.specs.Prelude.{◌≡◌, ◌+◌, ◌≤◌, length};
ghost use Rattle.rules.specs.Limits.{max_nonterminals};
ghost use Rattle.rules.specs.Records.{records};
ghost use Rattle.rules.specs.Grammar.{terminal_count, nonterminal_count};
ghost use Rattle.rules.specs.Table.{table_of};
ghost use Rattle.grammar.specs.Asked.{Faultless};
ghost use Rattle.room.specs.Areas.{view};
ghost use Rattle.room.specs.Bounds.{LongEnough, FewTerminals};
ghost use Rattle.lookahead.specs.Sets.{IsToken};
ghost use Rattle.states.specs.StatesIn.{states_in, Placed};
ghost use Rattle.table_counts.specs.Asked.{Readable, ReadableEntry};
ghost use Rattle.table_counts.specs.Records.{kind_over, over_symbol, on_entry, on_token, of_state, in_turn};
ghost use Rattle.record.specs.Kinds.{kind_number};
ghost use Rattle.table_counts.specs.Sides.{side_number};
ghost use Rattle.table_counts.specs.Sinks.{Took};
ghost use Rattle.table_counts.specs.Targets.{IsSymbol, to_target};

use super::sinks::{Record, Sink};
use super::transitions::{SYMBOLS, Side, gather};
use grammar::items::at_end;
use grammar::records::production;
use lookahead::contains;
use record::kinds::Kind;
use room::slots::entry_slot;
use rules::StateIndex;
use states::{end_entry, first_entry, item};

// The kind of a record over a symbol: over a terminal it is a shift, over a nonterminal a goto.
#[tactic(auto, unfolding(crate::specs::Records::kind_over))]
fn kind_over(side: Side) -> Kind
    ensures { kind_number result ≡ kind_over (side_number side) }
{
    match side {
        Side::Nonterminals => Kind::Goto,
        Side::Terminals => Kind::Shift,
    }
}

// The record of a state over symbol x, if the symbol leads somewhere.
fn take_over<S: Sink>(
    targets: &[Option<StateIndex>; SYMBOLS],
    side: Side,
    x: usize,
    state: StateIndex,
    room: &mut [u8],
    at: usize,
) -> usize
    requires { IsSymbol x × S.holds (at + length (to_target state.0 (side_number side) targets.now x)) room.old }
    ensures { Took S.taken (to_target state.0 (side_number side) targets.now x) at room.old room.new result }
{
    match targets[x] {
        None => at,
        Some(to) => {
            let one = Record {
                state,
                kind: kind_over(side),
                symbol: x,
                target: to.0,
            };
            S::take(room, at, one)
        }
    }
}

// The records of a state over the symbols of a side, ascending. There are `symbols` of them.
fn take_transitions<S: Sink>(
    g: &[u8],
    side: Side,
    symbols: usize,
    state: StateIndex,
    work: &[u64],
    room: &mut [u8],
    at: usize,
) -> usize
    requires readable { Readable g.now work.now state.0 × Faultless g.now × (symbols ≤ max_nonterminals) }
    requires holds { S.holds (at + length (in_turn (over_symbol g.now work.now state.0 (side_number side)) 0 symbols)) room.old }
    ensures { Took S.taken (in_turn (over_symbol g.now work.now state.0 (side_number side)) 0 symbols) at room.old room.new result }
{
    let mut targets: [Option<StateIndex>; SYMBOLS] = [None; SYMBOLS];
    gather(g, side, state, work, &mut targets);
    let mut to = at;
    for x in 0..symbols {
        to = take_over::<S>(&targets, side, x, state, room, to);
    }
    to
}

// The record of the entry at place k for token t, if it is a reduction on that token.
fn take_entry<S: Sink>(
    g: &[u8],
    t: usize,
    k: usize,
    state: StateIndex,
    work: &[u64],
    room: &mut [u8],
    at: usize,
) -> usize
    requires readable { ReadableEntry g.now work.now k × IsToken t }
    requires holds { S.holds (at + length (on_entry g.now work.now state.0 t k)) room.old }
    ensures { Took S.taken (on_entry g.now work.now state.0 t k) at room.old room.new result }
{
    let i = item(work, k);
    if !at_end(g, i) {
        return at;
    }
    if !contains(work, entry_slot(k), t) {
        return at;
    }
    let one = Record {
        state,
        kind: Kind::Reduce,
        symbol: t,
        target: production(g, i),
    };
    S::take(room, at, one)
}

// The records of a state's reductions on token t, in the order of its entries.
fn take_on<S: Sink>(
    g: &[u8],
    t: usize,
    state: StateIndex,
    work: &[u64],
    room: &mut [u8],
    at: usize,
) -> usize
    requires readable { Readable g.now work.now state.0 × IsToken t }
    requires holds { S.holds (at + length (on_token g.now work.now state.0 t)) room.old }
    ensures { Took S.taken (on_token g.now work.now state.0 t) at room.old room.new result }
{
    let first = first_entry(work, state);
    let end = end_entry(work, state);
    let mut to = at;
    for k in first..end {
        to = take_entry::<S>(g, t, k, state, work, room, to);
    }
    to
}

// The records of a state's reductions, by tokens ascending. n is the grammar's number of terminals, and Eof is token n.
fn take_reductions<S: Sink>(
    g: &[u8],
    n: usize,
    state: StateIndex,
    work: &[u64],
    room: &mut [u8],
    at: usize,
) -> usize
    requires readable { Readable g.now work.now state.0 × FewTerminals n }
    requires holds { S.holds (at + length (in_turn (on_token g.now work.now state.0) 0 (n + 1))) room.old }
    ensures { Took S.taken (in_turn (on_token g.now work.now state.0) 0 (n + 1)) at room.old room.new result }
{
    let tokens = n + 1;
    let mut to = at;
    for t in 0..tokens {
        to = take_on::<S>(g, t, state, work, room, to);
    }
    to
}

// The records of a state: shifts, gotos, reductions. n and m are the grammar's numbers of terminals and nonterminals.
fn take_state<S: Sink>(
    g: &[u8],
    n: usize,
    m: usize,
    state: StateIndex,
    work: &[u64],
    room: &mut [u8],
    at: usize,
) -> usize
    requires readable { Readable g.now work.now state.0 × Faultless g.now × FewTerminals n × (m ≤ max_nonterminals) }
    requires n_value { (n ≡ terminal_count (records g.now)) × (m ≡ nonterminal_count (records g.now)) }
    requires holds { S.holds (at + length (of_state g.now work.now state.0)) room.old }
    ensures { Took S.taken (of_state g.now work.now state.0) at room.old room.new result }
{
    let shifted = take_transitions::<S>(g, Side::Terminals, n, state, work, room, at);
    let gone = take_transitions::<S>(g, Side::Nonterminals, m, state, work, room, shifted);
    take_reductions::<S>(g, n, state, work, room, gone)
}

// The records of all states. Returns how many there are.
pub fn take_records<S: Sink>(
    g: &[u8],
    n: usize,
    m: usize,
    count: usize,
    work: &[u64],
    room: &mut [u8],
) -> usize
    requires faultless { Faultless g.now × (n ≡ terminal_count (records g.now)) × (m ≡ nonterminal_count (records g.now)) }
    requires long_enough { LongEnough work.now × Placed (length (records g.now)) count (view work.now) }
    requires holds { S.holds (length (table_of (records g.now) (states_in (view work.now) count))) room.old }
    ensures { Took S.taken (table_of (records g.now) (states_in (view work.now) count)) 0 room.old room.new result }
{
    let mut at: usize = 0;
    for s in 0..count {
        at = take_state::<S>(g, n, m, StateIndex(s), work, room, at);
    }
    at
}
