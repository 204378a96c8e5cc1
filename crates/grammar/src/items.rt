// The items of the grammar: an item is a record, and the dot stands right behind it.
ghost use Rattle.std.specs.Prelude.{◌≡◌, false, ◌+◌, ◌≤◌, ◌<◌};
ghost use Rattle.rules.specs.Limits.{max_nonterminals};
ghost use Rattle.rules.specs.Records.{at, records, is_terminal};
ghost use Rattle.rules.specs.Grammar.{Symbol, at_start, at_end, is_before};
ghost use Rattle.grammar.specs.Asked.{InRange, Faultless};
ghost use Rattle.grammar.specs.Tests.{item_left_side, item_left};

// The dot of item i is at the start: record i is a left side.
#[tactic(auto, unfolding(rules::specs::Grammar::at_start))]
pub fn at_start(g: &[u8], i: usize) -> bool
    requires { InRange i g.now }
    ensures { result ≡ at_start (records g.now) i }
{
    crate::records::position(g, i) == 0
}

// The dot of item i is at the end: no symbol stands behind it. (core/mod.rs: can_reduce)
#[tactic(auto, using(crate::proofs::Laws::past_end), unfolding(rules::specs::Grammar::at_end))]
pub fn at_end(g: &[u8], i: usize) -> bool
    requires { InRange i g.now }
    ensures { result ≡ at_end (records g.now) i }
{
    crate::records::record_count(g) <= i + 1 || crate::records::position(g, i + 1) == 0
}

// The symbol behind the dot of item i is a terminal. (core/mod.rs: shift_symbol)
#[tactic(auto, using(crate::proofs::Laws::behind_dot))]
pub fn terminal_behind(g: &[u8], i: usize) -> bool
    requires { at_end (records g.now) i ≡ false }
    ensures { result ≡ is_terminal (at (records g.now) (i + 1)) }
{
    crate::records::is_terminal(g, i + 1)
}

// The symbol behind the dot of item i. (core/mod.rs: shift_symbol)
#[tactic(auto, using(crate::proofs::Laws::behind_dot))]
pub fn symbol_behind(g: &[u8], i: usize) -> usize
    requires { at_end (records g.now) i ≡ false }
    ensures { result ≡ (at (records g.now) (i + 1)).symbol }
{
    crate::records::symbol(g, i + 1)
}

// Nonterminal a stands directly behind the dot of item i. (core/mod.rs: can_shift_nonterminal)
#[tactic(auto, unfolding(rules::specs::Grammar::is_before))]
pub fn before_nonterminal(g: &[u8], a: usize, i: usize) -> bool
    requires { InRange i g.now }
    ensures { result ≡ is_before (records g.now) (Symbol.nonterminal a) i }
{
    !at_end(g, i) && !terminal_behind(g, i) && symbol_behind(g, i) == a
}

// Terminal t stands directly behind the dot of item i.
#[tactic(auto, unfolding(rules::specs::Grammar::is_before))]
pub fn before_terminal(g: &[u8], t: usize, i: usize) -> bool
    requires { InRange i g.now }
    ensures { result ≡ is_before (records g.now) (Symbol.terminal t) i }
{
    !at_end(g, i) && terminal_behind(g, i) && symbol_behind(g, i) == t
}

// The left-side record of item i's production: it stands as many records back as the position says.
#[tactic(auto, using(crate::proofs::LeftSides::reaches, crate::proofs::LeftSides::left_there))]
pub fn left_record(g: &[u8], i: usize) -> usize
    requires { InRange i g.now × Faultless g.now }
    ensures { (result ≡ item_left_side (records g.now) i) × (result ≤ i) }
{
    i - crate::records::position(g, i)
}

// The nonterminal on the left of item i's production.
pub fn left_of(g: &[u8], i: usize) -> usize
    requires { InRange i g.now × Faultless g.now }
    ensures { (result ≡ item_left (records g.now) i) × (result < max_nonterminals) }
{
    crate::records::symbol(g, left_record(g, i))
}
