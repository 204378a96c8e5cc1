// Sets of states and of items, bit by bit in the work room. A caller names states and items, and never sees in which word a bit lies.
#![tactic(auto)]

ghost use Rattle.std.specs.Prelude.{◌≡◌, ◌%◌, ◌<◌, ℕ};
ghost use Rattle.rules.specs.Tokens.{TokenSet, has};
ghost use Rattle.room.specs.Areas.{Room, view};
ghost use Rattle.room.specs.Bounds.{LongEnough};
ghost use Rattle.words.specs.Bits.{word_bits};
ghost use Rattle.marks.specs.Marks.{with_bit};
ghost use Rattle.marks.specs.MarksLaws.{IsMarks};

use room::areas::Place;
use words::{WORD_BITS, single_word, word_has, word_join};

mod kinds;

pub use kinds::{Links, Successors, Visited, Walked};

// A kind of set: what has a set of it, the members, the set's words in the room, and the room with a member more and with the set emptied.
pub trait Marks {
    type Owner: Copy;

    type Member: Place;

    ghost can_own: { Self.Owner → Type 0 };

    ghost bound: { ℕ };

    ghost WORDS: { ℕ };

    ghost word: { Self.Owner → ℕ → Room → ℕ };

    ghost put_word: { Self.Owner → ℕ → ℕ → Room → Room };

    ghost members: { Room → Self.Owner → TokenSet };

    ghost marked: { Self.Owner → ℕ → Room → Room };

    ghost cleared: { Self.Owner → Room → Room };

    // How many words a set has.
    const WORDS: usize;

    // A word of a set.
    fn word(work: &[u64], of: Self::Owner, k: usize) -> u64
        requires { LongEnough work.now × can_own of × (k < WORDS) }
        ensures { result ≡ word of k (view work.now) };

    // v becomes a word of a set.
    fn put_word(work: &mut [u64], of: Self::Owner, k: usize, v: u64)
        requires { LongEnough work.old × can_own of × (k < WORDS) }
        ensures { view work.new ≡ put_word of k v (view work.old) };

    ghost laws: { IsMarks bound WORDS word put_word members marked cleared };
}

// The word has the bit of number t.
fn has_bit(word: u64, t: usize) -> bool
    ensures { result ≡ has word (t % word_bits) }
{
    word_has(word, t % WORD_BITS)
}

// The word with the bit of number t.
fn with_bit(word: u64, t: usize) -> u64
    ensures { result ≡ with_bit word t }
{
    let bit = single_word(t % WORD_BITS);
    word_join(word, bit)
}

// The set has the member.
pub fn has<M: Marks>(work: &[u64], of: M::Owner, member: M::Member) -> bool
    requires { LongEnough work.now × M.can_own of × (M.Member.number member < M.bound) }
    ensures { result ≡ has (M.members (view work.now) of) (M.Member.number member) }
{
    let t = member.number();
    let word = M::word(work, of, t / WORD_BITS);
    has_bit(word, t)
}

// The set gets the member.
pub fn mark<M: Marks>(work: &mut [u64], of: M::Owner, member: M::Member)
    requires { LongEnough work.old × M.can_own of × (M.Member.number member < M.bound) }
    ensures { view work.new ≡ M.marked of (M.Member.number member) (view work.old) }
{
    let t = member.number();
    let at = t / WORD_BITS;
    let word = M::word(work, of, at);
    let more = with_bit(word, t);
    M::put_word(work, of, at, more);
}

// The set becomes empty.
pub fn clear<M: Marks>(work: &mut [u64], of: M::Owner)
    requires { LongEnough work.old × M.can_own of }
    ensures { view work.new ≡ M.cleared of (view work.old) }
{
    for k in 0..M::WORDS {
        M::put_word(work, of, k, 0);
    }
}
