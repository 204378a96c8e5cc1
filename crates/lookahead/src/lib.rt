// Token sets by slot of the work room: lookahead.rs. A caller names slots and tokens, and never sees how a set is kept. Each function is one
// operation on the words of a slot or two: one for all of them would take the operation as a closure and be longer than they are.
#![tactic(auto)]

ghost use Rattle.std.specs.Prelude.{◌≡◌, not, ◌≤◌, eqb};
ghost use Rattle.rules.specs.Tokens.{single, disjoint, within, eof, all};
ghost use Rattle.room.specs.Areas.{view};
ghost use Rattle.room.specs.Bounds.{LongEnough, IsSlot, FewTerminals};
ghost use Rattle.lookahead.specs.Sets.{max_tokens, IsToken, set_at, put_set, copy_set, join_set, lacks_some, insert_token, take_token, has_token, lacks_token, lacks_below};

use room::areas::{Sets, get, put};
use words::{all_word, single_word, word_disjoint, word_has, word_join, word_within, word_without};

// The set in a slot, as a word.
#[tactic(auto, unfolding(crate::specs::Sets::load_set))]
fn load(work: &[u64], slot: usize) -> u64
    requires { LongEnough work.now × IsSlot slot }
    ensures { result ≡ set_at (view work.now) slot }
{
    get::<Sets>(work, slot)
}

// s becomes the set in a slot.
#[tactic(auto, unfolding(crate::specs::Sets::store_set))]
fn store(work: &mut [u64], slot: usize, s: u64)
    requires { LongEnough work.old × IsSlot slot }
    ensures { view work.new ≡ put_set slot s (view work.old) }
{
    put::<Sets>(work, slot, s);
}

// The empty set. lookahead.rs: TokenSet::new
pub fn clear_set(work: &mut [u64], slot: usize)
    requires { LongEnough work.old × IsSlot slot }
    ensures { view work.new ≡ put_set slot 0 (view work.old) }
{
    store(work, slot, 0);
}

// Only the token. lookahead.rs: From<Token>
pub fn put_single(work: &mut [u64], slot: usize, token: usize)
    requires { LongEnough work.old × IsSlot slot × IsToken token }
    ensures { view work.new ≡ put_set slot (single token) (view work.old) }
{
    let s = single_word(token);
    store(work, slot, s);
}

// Only Eof, with n terminals. lookahead.rs: TokenSet::eof
#[tactic(auto, unfolding(rules::specs::Tokens::eof))]
pub fn put_eof(work: &mut [u64], slot: usize, n: usize)
    requires { LongEnough work.old × IsSlot slot × FewTerminals n }
    ensures { view work.new ≡ put_set slot (eof n) (view work.old) }
{
    put_single(work, slot, n);
}

// The n terminals and Eof. lookahead.rs: TokenSet::all
pub fn put_all(work: &mut [u64], slot: usize, n: usize)
    requires { LongEnough work.old × IsSlot slot × FewTerminals n }
    ensures { view work.new ≡ put_set slot (all n) (view work.old) }
{
    let s = all_word(n);
    store(work, slot, s);
}

// The set of the slot `from` in the slot `to` too. lookahead.rs: Clone
pub fn copy_set(work: &mut [u64], to: usize, from: usize)
    requires { LongEnough work.old × IsSlot to × IsSlot from }
    ensures { view work.new ≡ copy_set to from (view work.old) }
{
    let s = load(work, from);
    store(work, to, s);
}

// The set of the slot `from` is joined into that of the slot `into`; says whether that gave it a token that it lacked.
// lookahead.rs: union_with
pub fn join_into(work: &mut [u64], into: usize, from: usize) -> bool
    requires { LongEnough work.old × IsSlot into × IsSlot from }
    ensures work_after { view work.new ≡ join_set into from (view work.old) }
    ensures value { result ≡ lacks_some into from (view work.old) }
{
    let a = load(work, into);
    let b = load(work, from);
    let s = word_join(a, b);
    store(work, into, s);
    !word_within(b, a)
}

// The token is joined in; says whether the set lacked it. lookahead.rs: insert
pub fn insert(work: &mut [u64], slot: usize, token: usize) -> bool
    requires { LongEnough work.old × IsSlot slot × IsToken token }
    ensures work_after { view work.new ≡ insert_token slot token (view work.old) }
    ensures value { result ≡ not (has_token slot token (view work.old)) }
{
    let a = load(work, slot);
    let b = single_word(token);
    let s = word_join(a, b);
    store(work, slot, s);
    !word_has(a, token)
}

// Eof, or any token, is taken out; says whether it was in. lookahead.rs: take_eof
pub fn take(work: &mut [u64], slot: usize, token: usize) -> bool
    requires { LongEnough work.old × IsSlot slot × IsToken token }
    ensures work_after { view work.new ≡ take_token slot token (view work.old) }
    ensures value { result ≡ has_token slot token (view work.old) }
{
    let a = load(work, slot);
    let b = word_without(a, token);
    store(work, slot, b);
    word_has(a, token)
}

// lookahead.rs: contains
pub fn contains(work: &[u64], slot: usize, token: usize) -> bool
    requires { LongEnough work.now × IsSlot slot × IsToken token }
    ensures { result ≡ has_token slot token (view work.now) }
{
    let a = load(work, slot);
    word_has(a, token)
}

// No token is in the set.
pub fn is_empty(work: &[u64], slot: usize) -> bool
    requires { LongEnough work.now × IsSlot slot }
    ensures { result ≡ eqb (set_at (view work.now) slot) 0 }
{
    load(work, slot) == 0
}

// The two sets are equal. lookahead.rs: Eq
pub fn is_equal(work: &[u64], x: usize, y: usize) -> bool
    requires { LongEnough work.now × IsSlot x × IsSlot y }
    ensures { result ≡ eqb (set_at (view work.now) x) (set_at (view work.now) y) }
{
    load(work, x) == load(work, y)
}

// No token is in both sets. lookahead.rs: is_disjoint
pub fn is_disjoint(work: &[u64], x: usize, y: usize) -> bool
    requires { LongEnough work.now × IsSlot x × IsSlot y }
    ensures { result ≡ disjoint (set_at (view work.now) x) (set_at (view work.now) y) }
{
    let a = load(work, x);
    let b = load(work, y);
    word_disjoint(a, b)
}

// Every token of the slot x is in the slot y.
pub fn is_within(work: &[u64], x: usize, y: usize) -> bool
    requires { LongEnough work.now × IsSlot x × IsSlot y }
    ensures { result ≡ within (set_at (view work.now) x) (set_at (view work.now) y) }
{
    let a = load(work, x);
    let b = load(work, y);
    word_within(a, b)
}

// The token is in the slot `from`, and the slot `into` lacks it.
#[tactic(auto, unfolding(crate::specs::Sets::lacks_token))]
pub fn lacks(work: &[u64], into: usize, from: usize, token: usize) -> bool
    requires { LongEnough work.now × IsSlot into × IsSlot from × IsToken token }
    ensures { result ≡ lacks_token into from (view work.now) token }
{
    contains(work, from, token) && !contains(work, into, token)
}

// How many tokens are to be asked for to find one that the slot `from` has and the slot `into` lacks: none if there is none, else all
// that a set has room for.
pub fn lacking_end(work: &[u64], into: usize, from: usize) -> usize
    requires { LongEnough work.now × IsSlot into × IsSlot from }
    ensures { (result ≤ max_tokens) × (lacks_below into from (view work.now) result ≡ lacks_some into from (view work.now)) }
{
    let a = load(work, from);
    let b = load(work, into);
    if word_within(a, b) {
        return 0;
    }
    words::WORD_BITS
}
