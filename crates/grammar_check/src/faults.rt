// Refusals 3 to 5: the length of the bytes, and what one record may hold and where it may stand.
ghost use Rattle.std.specs.Prelude.{◌≡◌, ◌-◌, ◌<◌, length};
ghost use Rattle.base.specs.Loops.{place_below};
ghost use Rattle.rules.specs.Limits.{limits};
ghost use Rattle.rules.specs.Records.{at, records, bad_length, bad_record, comes_behind, in_sequence, out_of_sequence};
ghost use Rattle.rules.specs.Grammar.{first_fault, fault_at};
ghost use Rattle.grammar.specs.Asked.{InRange};
ghost use Rattle.grammar.specs.Tests.{is_fault};
ghost use Rattle.grammar_check.specs.Tests.{terminal_left};

use grammar::records::{RECORD, TERMINAL};
use rules::GrammarRefusal;

// The limits of document 01 on bytes, terminals, nonterminals, productions, and symbols on a right side.
const MAX_BYTES: usize = 4096;

const MAX_TERMINALS: usize = 62;

const MAX_NONTERMINALS: usize = 64;

const MAX_PRODUCTIONS: usize = 128;

const MAX_SYMBOLS: usize = 16;

// Refusal 3: the length is 0, over 4,096, or no multiple of 8.
#[tactic(auto, unfolding(rules::specs::Records::bad_length, rules::specs::Limits::limits))]
pub fn bad_length(g: &[u8]) -> bool
    ensures { result ≡ bad_length limits g.now }
{
    let len = g.len();
    len == 0 || MAX_BYTES < len || len % RECORD != 0
}

// Refusal 4: byte 5 of record i is not zero, its kind is over 1, or its symbol is a terminal over 61 or a nonterminal over 63.
#[tactic(auto, unfolding(rules::specs::Records::bad_record, rules::specs::Records::is_terminal, rules::specs::Limits::limits))]
pub fn bad_record(g: &[u8], i: usize) -> bool
    requires { InRange i g.now }
    ensures { result ≡ bad_record limits (at (records g.now) i) }
{
    let kind = grammar::records::kind(g, i);
    let limit = if kind == TERMINAL {
        MAX_TERMINALS
    } else {
        MAX_NONTERMINALS
    };
    grammar::records::zero_byte(g, i) != 0
        || TERMINAL < kind
        || limit <= grammar::records::symbol(g, i)
}

// Record i comes directly behind the one before it: the next position of its production, or the next production's left side.
#[tactic(auto, unfolding(rules::specs::Records::comes_behind))]
fn comes_behind(g: &[u8], i: usize) -> bool
    requires { (0 < i) × InRange i g.now }
    ensures { result ≡ comes_behind (at (records g.now) (i - 1)) (at (records g.now) i) }
{
    let here = grammar::records::production(g, i);
    let before = grammar::records::production(g, i - 1);
    let position = grammar::records::position(g, i);
    (here == before && position == grammar::records::position(g, i - 1) + 1)
        || (here == before + 1 && position == 0)
}

// Record i stands in sequence: the first begins production 0, each other comes directly behind the one before it.
#[tactic(auto, unfolding(rules::specs::Records::in_sequence))]
fn in_sequence(g: &[u8], i: usize) -> bool
    requires { InRange i g.now }
    ensures { result ≡ in_sequence (records g.now) i }
{
    if i == 0 {
        grammar::records::production(g, i) == 0 && grammar::records::position(g, i) == 0
    } else {
        comes_behind(g, i)
    }
}

// Record i is a left side that names a terminal.
#[tactic(auto, unfolding(crate::specs::Tests::terminal_left, rules::specs::Records::is_left_side))]
fn terminal_left(g: &[u8], i: usize) -> bool
    requires { InRange i g.now }
    ensures { result ≡ terminal_left (at (records g.now) i) }
{
    grammar::records::position(g, i) == 0 && grammar::records::is_terminal(g, i)
}

// Refusal 5: record i is out of sequence, its position is 0 and it names no nonterminal, its production is over 127, or its position
// over 16.
#[tactic(auto, unfolding(rules::specs::Records::out_of_sequence, crate::specs::Tests::terminal_left, rules::specs::Limits::limits))]
pub fn out_of_sequence(g: &[u8], i: usize) -> bool
    requires { InRange i g.now }
    ensures { result ≡ out_of_sequence limits (records g.now) i }
{
    !in_sequence(g, i)
        || terminal_left(g, i)
        || MAX_PRODUCTIONS <= grammar::records::production(g, i)
        || MAX_SYMBOLS < grammar::records::position(g, i)
}

// Record i meets refusal 4 or 5.
#[tactic(auto, unfolding(grammar::specs::Tests::is_fault))]
fn is_fault(g: &[u8], i: usize) -> bool
    requires { InRange i g.now }
    ensures { result ≡ is_fault (records g.now) i }
{
    bad_record(g, i) || out_of_sequence(g, i)
}

// The first record that meets refusal 4 or 5.
pub fn first_fault(g: &[u8]) -> Option<usize>
    ensures { result ≡ place_below (length (records g.now)) (first_fault limits (records g.now)) }
{
    (0..grammar::records::record_count(g)).find(|i| is_fault(g, *i))
}

// The refusal of a faulty record: 4 before 5.
#[tactic(auto, unfolding(rules::specs::Grammar::fault_at))]
pub fn fault_at(g: &[u8], fault: usize) -> GrammarRefusal
    requires { InRange fault g.now }
    ensures { result ≡ fault_at limits (records g.now) fault }
{
    if bad_record(g, fault) {
        GrammarRefusal::BadRecord(fault)
    } else {
        GrammarRefusal::OutOfSequence(fault)
    }
}
