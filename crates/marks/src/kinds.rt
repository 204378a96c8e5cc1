// The kinds of sets: the successors of each state in the lane table, the items that a trace has visited in each state, the states that the
// merge has walked, and the states that link to each state while a lane table is traced.
ghost use Rattle.rules.specs.Limits.{max_states};
ghost use Rattle.room.specs.Bounds.{IsState, max_items, visited_words, successor_words, walked_words};
ghost use Rattle.marks.specs.Marks.{successors_in, visited_in, walked_in, links_in, successor_word, visited_word, walked_word, link_word, put_successor_word, put_visited_word, put_walked_word, put_link_word, successor_added, item_visited, state_walked, link_added, successors_cleared, visited_cleared, walked_cleared, links_cleared};
ghost use Rattle.marks.specs.MarksLaws.{successors_marks, visited_marks, walked_marks, links_marks};

use super::Marks;
use room::areas::{Heads, Origins, get, put};
pub use room::areas::{Successors, Visited, Walked};
use rules::StateIndex;

// A state's successors. table/mod.rs: add_successor
impl Marks for Successors {
    type Owner = StateIndex;

    type Member = StateIndex;

    ghost can_own = { λ state. IsState state };

    ghost bound = { max_states };

    ghost WORDS = { successor_words };

    ghost word = { λ state k r. successor_word r state.0 k };

    ghost put_word = { λ state k v r. put_successor_word state.0 k v r };

    ghost members = { λ r state. successors_in r state.0 };

    ghost marked = { λ state successor r. successor_added state.0 successor r };

    ghost cleared = { λ state r. successors_cleared state.0 r };

    ghost laws = { successors_marks (λ state. state.0) };

    const WORDS: usize = 2;

    fn word(work: &[u64], state: StateIndex, k: usize) -> u64 {
        get::<Successors>(work, Self::WORDS * state.0 + k)
    }

    fn put_word(work: &mut [u64], state: StateIndex, k: usize, v: u64) {
        put::<Successors>(work, Self::WORDS * state.0 + k, v);
    }
}

// The items visited in a state.
impl Marks for Visited {
    type Owner = StateIndex;

    type Member = usize;

    ghost can_own = { λ state. IsState state };

    ghost bound = { max_items };

    ghost WORDS = { visited_words };

    ghost word = { λ state k r. visited_word r state.0 k };

    ghost put_word = { λ state k v r. put_visited_word state.0 k v r };

    ghost members = { λ r state. visited_in r state.0 };

    ghost marked = { λ state item r. item_visited state.0 item r };

    ghost cleared = { λ state r. visited_cleared state.0 r };

    ghost laws = { visited_marks (λ state. state.0) };

    const WORDS: usize = 8;

    fn word(work: &[u64], state: StateIndex, k: usize) -> u64 {
        get::<Visited>(work, Self::WORDS * state.0 + k)
    }

    fn put_word(work: &mut [u64], state: StateIndex, k: usize, v: u64) {
        put::<Visited>(work, Self::WORDS * state.0 + k, v);
    }
}

// The states walked: one set.
impl Marks for Walked {
    type Owner = ();

    type Member = StateIndex;

    ghost can_own = { λ of. Unit {0} };

    ghost bound = { max_states };

    ghost WORDS = { walked_words };

    ghost word = { λ of k r. walked_word r k };

    ghost put_word = { λ of k v r. put_walked_word k v r };

    ghost members = { λ r of. walked_in r };

    ghost marked = { λ of state r. state_walked state r };

    ghost cleared = { λ of r. walked_cleared r };

    ghost laws = { walked_marks };

    const WORDS: usize = 2;

    fn word(work: &[u64], of: (), k: usize) -> u64 {
        get::<Walked>(work, k)
    }

    fn put_word(work: &mut [u64], of: (), k: usize, v: u64) {
        put::<Walked>(work, k, v);
    }
}

// The states that link to a state. The first word lies among the origins, the second among the heads.
pub struct Links;

impl Marks for Links {
    type Owner = StateIndex;

    type Member = StateIndex;

    ghost can_own = { λ to. IsState to };

    ghost bound = { max_states };

    ghost WORDS = { 2 };

    ghost word = { λ to k r. link_word r to.0 k };

    ghost put_word = { λ to k v r. put_link_word to.0 k v r };

    ghost members = { λ r to. links_in r to.0 };

    ghost marked = { λ to from r. link_added from to.0 r };

    ghost cleared = { λ to r. links_cleared to.0 r };

    ghost laws = { links_marks (λ to. to.0) };

    const WORDS: usize = 2;

    fn word(work: &[u64], to: StateIndex, k: usize) -> u64 {
        if k == 0 {
            get::<Origins>(work, to)
        } else {
            get::<Heads>(work, to)
        }
    }

    fn put_word(work: &mut [u64], to: StateIndex, k: usize, v: u64) {
        if k == 0 {
            put::<Origins>(work, to, v);
        } else {
            put::<Heads>(work, to, v);
        }
    }
}
