// Refusal 8: a nonterminal derives no string of terminals. The nonterminals that derive one are kept as the bits of one number and
// collected in rounds over the productions. The grammar has passed refusals 4 and 5, so that each nonterminal is below 64.
#![tactic(auto)]

ghost use Rattle.std.specs.Prelude.{◌≡◌, ◌<◌};
ghost use Rattle.base.specs.Lists.{fold_over};
ghost use Rattle.base.specs.Loops.{place_below};
ghost use Rattle.rules.specs.Limits.{max_nonterminals};
ghost use Rattle.rules.specs.Records.{at, records};
ghost use Rattle.rules.specs.Tokens.{has, single, join};
ghost use Rattle.rules.specs.Grammar.{symbol_of, left_sides, symbol_derives, side_derives, collect, all_collected, productive, first_barren, nonterminal_count};
ghost use Rattle.grammar.specs.Asked.{InRange, Faultless};
ghost use Rattle.productive.specs.Tests.{uncollected, collect_at, is_barren};

// Nonterminal a is among those found.
#[tactic(auto, unfolding(rules::specs::Tokens::has))]
fn has(found: u64, a: usize) -> bool
    requires { a < max_nonterminals }
    ensures { result ≡ has found a }
{
    (found >> (a as u64)) % 2 == 1
}

// Those found, and nonterminal a.
fn with(found: u64, a: usize) -> u64
    requires { a < max_nonterminals }
    ensures { result ≡ join found (single a) }
{
    found | (1 << (a as u64))
}

// The symbol of record i is a terminal or among those found.
#[tactic(auto, using(grammar::proofs::Coded::symbol_read), unfolding(rules::specs::Grammar::symbol_derives, rules::specs::Grammar::symbol_of))]
fn symbol_derives(g: &[u8], found: u64, i: usize) -> bool
    requires { InRange i g.now × Faultless g.now }
    ensures { result ≡ symbol_derives found (symbol_of (at (records g.now) i)) }
{
    grammar::records::is_terminal(g, i) || has(found, grammar::records::symbol(g, i))
}

// All symbols behind the dot of item i are terminals or among those found.
fn side_derives(g: &[u8], found: u64, i: usize) -> bool
    requires { InRange i g.now × Faultless g.now }
    ensures { result ≡ side_derives (records g.now) found i }
{
    (i + 1..grammar::records::record_count(g))
        .take_while(|k| !grammar::items::at_start(g, *k))
        .all(|k| symbol_derives(g, found, k))
}

// Those found, and the left side of record i's production if its right side derives a string.
#[tactic(auto, using(grammar::proofs::Coded::symbol_read), unfolding(rules::specs::Grammar::collect))]
fn collect(g: &[u8], i: usize, found: u64) -> u64
    requires { InRange i g.now × Faultless g.now }
    ensures { result ≡ collect (records g.now) i found }
{
    if side_derives(g, found, i) {
        with(found, grammar::records::symbol(g, i))
    } else {
        found
    }
}

// One turn of a round: a left-side record's production is looked at, any other record passed over.
#[tactic(auto, unfolding(crate::specs::Tests::collect_at))]
fn collect_at(g: &[u8], i: usize, found: u64) -> u64
    requires { InRange i g.now × Faultless g.now }
    ensures { result ≡ collect_at (records g.now) i found }
{
    if grammar::items::at_start(g, i) {
        collect(g, i, found)
    } else {
        found
    }
}

// One round over the productions.
fn round(g: &[u8], found: u64) -> u64
    requires { Faultless g.now }
    ensures { result ≡ fold_over (collect (records g.now)) (left_sides (records g.now)) found }
{
    let n = grammar::records::record_count(g);
    let mut set = found;
    for i in 0..n {
        set = collect_at(g, i, set);
    }
    set
}

// Record i is a left side that is not among those found though its right side derives a string.
#[tactic(auto, using(grammar::proofs::Coded::symbol_read), unfolding(crate::specs::Tests::uncollected, crate::specs::Tests::is_collected))]
fn uncollected(g: &[u8], found: u64, i: usize) -> bool
    requires { InRange i g.now × Faultless g.now }
    ensures { result ≡ uncollected (records g.now) found i }
{
    grammar::items::at_start(g, i)
        && side_derives(g, found, i)
        && !has(found, grammar::records::symbol(g, i))
}

// Every production whose right side derives a string has its left side among those found.
fn all_collected(g: &[u8], found: u64) -> bool
    requires { Faultless g.now }
    ensures { result ≡ all_collected (records g.now) found }
{
    (0..grammar::records::record_count(g)).all(|i| !uncollected(g, found, i))
}

// The nonterminals that derive a string of terminals: rounds until all are collected, at most m.
fn productive(g: &[u8]) -> u64
    requires { Faultless g.now }
    ensures { result ≡ productive (records g.now) }
{
    let m = grammar_numbers::counts::nonterminal_count(g);
    let mut found: u64 = 0;
    // A `for`: the set goes from round to round, and the rounds stop early.
    for turn in 0..m {
        if all_collected(g, found) {
            return found;
        }
        found = round(g, found);
    }
    found
}

// Nonterminal a is not among those found.
#[tactic(auto, unfolding(crate::specs::Tests::is_barren))]
fn is_barren(found: u64, a: usize) -> bool
    requires { a < max_nonterminals }
    ensures { result ≡ is_barren found a }
{
    !has(found, a)
}

// Refusal 8: the lowest nonterminal that derives no string of terminals.
pub fn first_barren(g: &[u8]) -> Option<usize>
    requires { Faultless g.now }
    ensures { result ≡ place_below (nonterminal_count (records g.now)) (first_barren (records g.now)) }
{
    let found = productive(g);
    (0..grammar_numbers::counts::nonterminal_count(g)).find(|a| is_barren(found, *a))
}
