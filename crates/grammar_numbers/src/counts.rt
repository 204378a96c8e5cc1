// The numbers of the grammar: n terminals, m nonterminals, the productions, the start.
ghost use Rattle.std.specs.Prelude.{◌≡◌, ◌+◌, ◌≤◌};
ghost use Rattle.rules.specs.Records.{at, records};
ghost use Rattle.rules.specs.Grammar.{start, terminal_count, nonterminal_count, production_count};
ghost use Rattle.grammar.specs.Asked.{InRange, max_number};
ghost use Rattle.grammar.specs.Tests.{count_named};
ghost use Rattle.grammar_numbers.specs.Tests.{is_of_terminals, highest_named};

// The two kinds of symbols.
#[derive(Clone, Copy, PartialEq, Eq)]
enum Kind {
    Terminal,
    Nonterminal,
}

// One more than the symbol of record i if it is of the kind, else 0.
#[tactic(auto, unfolding(grammar::specs::Tests::count_named))]
fn count_named(g: &[u8], kind: Kind, i: usize) -> usize
    requires { InRange i g.now }
    ensures { (result ≡ count_named (is_of_terminals kind) (at (records g.now) i)) × (result ≤ max_number + 1) }
{
    let named = if grammar::records::is_terminal(g, i) {
        Kind::Terminal
    } else {
        Kind::Nonterminal
    };
    if named == kind {
        grammar::records::symbol(g, i) + 1
    } else {
        0
    }
}

// One more than the highest symbol named of the kind; 0 if none is.
fn highest_named(g: &[u8], kind: Kind) -> usize
    ensures { (result ≡ highest_named (is_of_terminals kind) (records g.now)) × (result ≤ max_number + 1) }
{
    let n = grammar::records::record_count(g);
    let mut highest: usize = 0;
    // A `for`, not `map` and `max`: the bound of the answer comes from the bound of each number.
    for i in 0..n {
        highest = highest.max(count_named(g, kind, i));
    }
    highest
}

// n: one more than the highest terminal named, 0 if none is.
#[tactic(auto, unfolding(crate::specs::Tests::highest_named, rules::specs::Grammar::terminal_count))]
pub fn terminal_count(g: &[u8]) -> usize
    ensures { (result ≡ terminal_count (records g.now)) × (result ≤ max_number + 1) }
{
    highest_named(g, Kind::Terminal)
}

// m: one more than the highest nonterminal named, 0 if none is.
#[tactic(auto, unfolding(crate::specs::Tests::highest_named, rules::specs::Grammar::nonterminal_count))]
pub fn nonterminal_count(g: &[u8]) -> usize
    ensures { (result ≡ nonterminal_count (records g.now)) × (result ≤ max_number + 1) }
{
    highest_named(g, Kind::Nonterminal)
}

// The start: the left side of production 0.
#[tactic(auto, unfolding(rules::specs::Grammar::start))]
pub fn start(g: &[u8]) -> usize
    requires { InRange 0 g.now }
    ensures { result ≡ start (records g.now) }
{
    grammar::records::symbol(g, 0)
}

// How many productions there are: the left-side records.
pub fn production_count(g: &[u8]) -> usize
    ensures { result ≡ production_count (records g.now) }
{
    let n = grammar::records::record_count(g);
    (0..n).filter(|i| grammar::items::at_start(g, *i)).count()
}
