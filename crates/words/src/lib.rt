// A set as one word: bit t is number t. Sets in several words are defined in specs/Bits.antt.
#![tactic(auto)]

ghost use Rattle.std.specs.Prelude.{◌≡◌, ◌+◌};
ghost use Rattle.rules.specs.Tokens.{has, single, join, disjoint, within, without, all};
ghost use Rattle.words.specs.Bits.{IsBit};

// How many numbers a word has room for.
pub const WORD_BITS: usize = 64;

// Only t.
#[tactic(auto, using(crate::proofs::Shifts::shifted_one))]
pub fn single_word(t: usize) -> u64
    requires { IsBit t }
    ensures { result ≡ single t }
{
    1u64 << t
}

// n and every number below it.
#[tactic(auto, using(crate::proofs::Shifts::single_positive, crate::proofs::Shifts::all_is))]
pub fn all_word(n: usize) -> u64
    requires { IsBit (n + 1) }
    ensures { result ≡ all n }
{
    single_word(n + 1) - 1
}

// t is in the set.
#[tactic(auto, unfolding(rules::specs::Tokens::has))]
pub fn word_has(s: u64, t: usize) -> bool
    requires { IsBit t }
    ensures { result ≡ has s t }
{
    (s >> t) % 2 == 1
}

// The set without t.
#[tactic(auto, using(crate::proofs::Shifts::had_le, crate::proofs::Shifts::without_had, crate::proofs::Shifts::without_lacked))]
pub fn word_without(s: u64, t: usize) -> u64
    requires { IsBit t }
    ensures { result ≡ without s t }
{
    if word_has(s, t) {
        s - single_word(t)
    } else {
        s
    }
}

// What is in either set.
#[tactic(auto, unfolding(rules::specs::Tokens::join))]
pub fn word_join(a: u64, b: u64) -> u64
    ensures { result ≡ join a b }
{
    a | b
}

// Nothing is in both sets.
#[tactic(auto, unfolding(rules::specs::Tokens::disjoint, rules::specs::Tokens::meet))]
pub fn word_disjoint(a: u64, b: u64) -> bool
    ensures { result ≡ disjoint a b }
{
    a & b == 0
}

// All that is in a is in b.
#[tactic(auto, unfolding(rules::specs::Tokens::within, rules::specs::Tokens::meet))]
pub fn word_within(a: u64, b: u64) -> bool
    ensures { result ≡ within a b }
{
    a & b == a
}
