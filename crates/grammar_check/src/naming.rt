// Refusals 6 and 7: the start is named again, and a nonterminal has no production.
ghost use Rattle.std.specs.Prelude.{◌≡◌, length};
ghost use Rattle.base.specs.Loops.{place_below};
ghost use Rattle.rules.specs.Records.{records};
ghost use Rattle.rules.specs.Grammar.{names_start, first_start, is_left_side_of, first_without, nonterminal_count};
ghost use Rattle.grammar.specs.Asked.{InRange};
ghost use Rattle.grammar_check.specs.Tests.{lacks_production};

// Record i, not the first, names the start.
#[tactic(auto, unfolding(rules::specs::Grammar::names_start))]
fn names_start(g: &[u8], i: usize) -> bool
    requires { InRange i g.now }
    ensures { result ≡ names_start (records g.now) i }
{
    i != 0
        && !grammar::records::is_terminal(g, i)
        && grammar::records::symbol(g, i) == grammar_numbers::counts::start(g)
}

// Refusal 6: the first record behind the first that names the start.
pub fn first_start(g: &[u8]) -> Option<usize>
    ensures { result ≡ place_below (length (records g.now)) (first_start (records g.now)) }
{
    (0..grammar::records::record_count(g)).find(|i| names_start(g, *i))
}

// Record i is a left side that names nonterminal a.
#[tactic(auto, unfolding(rules::specs::Grammar::is_left_side_of))]
fn is_left_side_of(g: &[u8], a: usize, i: usize) -> bool
    requires { InRange i g.now }
    ensures { result ≡ is_left_side_of (records g.now) a i }
{
    grammar::items::at_start(g, i) && grammar::records::symbol(g, i) == a
}

// Nonterminal a has no production.
fn lacks_production(g: &[u8], a: usize) -> bool
    ensures { result ≡ lacks_production (records g.now) a }
{
    !(0..grammar::records::record_count(g)).any(|i| is_left_side_of(g, a, i))
}

// Refusal 7: the lowest nonterminal below m that has no production.
pub fn first_without(g: &[u8]) -> Option<usize>
    ensures { result ≡ place_below (nonterminal_count (records g.now)) (first_without (records g.now)) }
{
    (0..grammar_numbers::counts::nonterminal_count(g)).find(|a| lacks_production(g, *a))
}
