// The areas of the work room, and one get and one put for all of them. Their contracts speak of the room as a record of areas.
ghost use Rattle.std.specs.Prelude.{◌≡◌, ◌<◌, ℕ, List, get_or};
ghost use Rattle.room.specs.Areas.{Room, view, put_entry, put_first_entry, put_visited, put_entered, put_successors, put_origin, put_head, put_walked, put_action, put_set_word};
ghost use Rattle.room.specs.Bounds.{LongEnough};
ghost use Rattle.room.specs.AreaLaws.{IsArea};
ghost use Rattle.room.specs.AreaProofs.{entries_area, first_entries_area, visited_area, entered_area, successors_area, origins_area, heads_area, walked_area, actions_area, sets_area};

use rules::{ConflictIndex, StateIndex};

// What names a place of an area.
pub trait Place {
    ghost number: { Self → ℕ };

    fn number(self) -> usize
        ensures { result ≡ number self };
}

impl Place for usize {
    ghost number = { λ n. n };

    fn number(self) -> usize {
        self
    }
}

impl Place for StateIndex {
    ghost number = { λ state. state.0 };

    fn number(self) -> usize {
        self.0
    }
}

impl Place for ConflictIndex {
    ghost number = { λ column. column.0 };

    fn number(self) -> usize {
        self.0
    }
}

// An area: what names its places, where it begins and how long it is, its numbers, and the room with one of them changed.
pub trait Area {
    type Index: Place;

    ghost START: { ℕ };

    ghost size: { ℕ };

    ghost numbers: { Room → List ℕ };

    ghost put: { ℕ → ℕ → Room → Room };

    ghost laws: { IsArea START size numbers put };

    const START: usize;
}

// The item and the next state of each entry, packed.
pub struct Entries;

impl Area for Entries {
    type Index = usize;

    ghost START = { 0 };

    ghost size = { 2048 };

    ghost numbers = { λ r. r.entries };

    ghost put = { put_entry };

    ghost laws = { entries_area };

    const START: usize = 0;
}

// The first entry of each state, and behind the last state the end of the entries.
pub struct FirstEntries;

impl Area for FirstEntries {
    type Index = StateIndex;

    ghost START = { 2048 };

    ghost size = { 129 };

    ghost numbers = { λ r. r.first_entries };

    ghost put = { put_first_entry };

    ghost laws = { first_entries_area };

    const START: usize = 2048;
}

// The state and the symbol that each state was first reached by, packed.
pub struct Parents;

impl Area for Parents {
    type Index = StateIndex;

    ghost START = { 2177 };

    ghost size = { 1024 };

    ghost numbers = { λ r. r.visited };

    ghost put = { put_visited };

    ghost laws = { visited_area };

    const START: usize = 2177;
}

// The words of the items visited in the states, eight for each state.
pub struct Visited;

impl Area for Visited {
    type Index = usize;

    ghost START = { 2177 };

    ghost size = { 1024 };

    ghost numbers = { λ r. r.visited };

    ghost put = { put_visited };

    ghost laws = { visited_area };

    const START: usize = 2177;
}

// 1 for each state at which something was entered.
pub struct Entered;

impl Area for Entered {
    type Index = StateIndex;

    ghost START = { 3201 };

    ghost size = { 128 };

    ghost numbers = { λ r. r.entered };

    ghost put = { put_entered };

    ghost laws = { entered_area };

    const START: usize = 3201;
}

// The words of the states' successors, two for each state.
pub struct Successors;

impl Area for Successors {
    type Index = usize;

    ghost START = { 3329 };

    ghost size = { 256 };

    ghost numbers = { λ r. r.successors };

    ghost put = { put_successors };

    ghost laws = { successors_area };

    const START: usize = 3329;
}

// The state that each state was cloned of, or the first word of the states that link to it.
pub struct Origins;

impl Area for Origins {
    type Index = StateIndex;

    ghost START = { 3585 };

    ghost size = { 128 };

    ghost numbers = { λ r. r.origins };

    ghost put = { put_origin };

    ghost laws = { origins_area };

    const START: usize = 3585;
}

// The head of each state's group, or the second word of the states that link to it.
pub struct Heads;

impl Area for Heads {
    type Index = StateIndex;

    ghost START = { 3713 };

    ghost size = { 128 };

    ghost numbers = { λ r. r.heads };

    ghost put = { put_head };

    ghost laws = { heads_area };

    const START: usize = 3713;
}

// The words of the states walked.
pub struct Walked;

impl Area for Walked {
    type Index = usize;

    ghost START = { 3841 };

    ghost size = { 2 };

    ghost numbers = { λ r. r.walked };

    ghost put = { put_walked };

    ghost laws = { walked_area };

    const START: usize = 3841;
}

// The action in each column.
pub struct Actions;

impl Area for Actions {
    type Index = ConflictIndex;

    ghost START = { 3843 };

    ghost size = { 16 };

    ghost numbers = { λ r. r.actions };

    ghost put = { put_action };

    ghost laws = { actions_area };

    const START: usize = 3843;
}

// The word of each slot's token set.
pub struct Sets;

impl Area for Sets {
    type Index = usize;

    ghost START = { 3859 };

    ghost size = { 4225 };

    ghost numbers = { λ r. r.sets };

    ghost put = { put_set_word };

    ghost laws = { sets_area };

    const START: usize = 3859;
}

// The number at a place of an area.
pub fn get<A: Area>(work: &[u64], at: A::Index) -> u64
    requires { LongEnough work.now × (A.Index.number at < A.size) }
    ensures { result ≡ get_or (A.numbers (view work.now)) (A.Index.number at) 0 }
{
    let place = A::START + at.number();
    work[place]
}

// v becomes the number at a place of an area.
pub fn put<A: Area>(work: &mut [u64], at: A::Index, v: u64)
    requires { LongEnough work.old × (A.Index.number at < A.size) }
    ensures { view work.new ≡ A.put (A.Index.number at) v (view work.old) }
{
    work[A::START + at.number()] = v;
}
