// Entries and parents as single numbers of the room: put together by `+ *`, taken apart by `/ %`.
#![tactic(auto)]

ghost use Rattle.std.specs.Prelude.{◌≡◌};
ghost use Rattle.packed.specs.Packed.{IsPart, packed, low, middle, high, entry_of, parent_of};

use rules::StateIndex;

#[tactic(auto, unfolding(crate::specs::Packed::packed))]
fn pack(a: usize, b: usize, c: usize) -> u64
    requires { IsPart a × IsPart b × IsPart c }
    ensures { result ≡ packed a b c }
{
    (a + 65536 * b + 4294967296 * c) as u64
}

#[tactic(auto, unfolding(crate::specs::Packed::low))]
fn low_of(v: u64) -> usize
    ensures { result ≡ low v }
{
    (v % 65536) as usize
}

#[tactic(auto, unfolding(crate::specs::Packed::middle))]
fn middle_of(v: u64) -> usize
    ensures { result ≡ middle v }
{
    (v / 65536 % 65536) as usize
}

#[tactic(auto, unfolding(crate::specs::Packed::high))]
fn high_of(v: u64) -> usize
    ensures { result ≡ high v }
{
    (v / 4294967296) as usize
}

// An entry of a state: its item, and the state that the symbol behind the dot leads to.
#[derive(Clone, Copy)]
pub struct Entry {
    pub item: usize,
    pub next: StateIndex,
}

impl Entry {
    // The entry as a number of the room.
    pub fn pack(self) -> u64
        requires { IsPart self.item × IsPart self.next.0 }
        ensures { result ≡ entry_of self.item self.next }
    {
        pack(self.item, self.next.0, 0)
    }

    // The entry of a number of the room.
    pub fn unpack(entry: u64) -> Entry
        ensures item { result.item ≡ low entry }
        ensures next { result.next.0 ≡ middle entry }
    {
        Entry {
            item: low_of(entry),
            next: StateIndex(middle_of(entry)),
        }
    }
}

// A state's parent: the state that led to it, and the number and kind of the symbol.
#[derive(Clone, Copy)]
pub struct Parent {
    pub state: StateIndex,
    pub symbol: usize,
    pub kind: usize,
}

impl Parent {
    // The parent as a number of the room.
    pub fn pack(self) -> u64
        requires { IsPart self.state.0 × IsPart self.symbol × IsPart self.kind }
        ensures { result ≡ parent_of self.state self.symbol self.kind }
    {
        pack(self.state.0, self.symbol, self.kind)
    }

    // The parent of a number of the room.
    pub fn unpack(parent: u64) -> Parent
        ensures state { result.state.0 ≡ low parent }
        ensures symbol { result.symbol ≡ middle parent }
        ensures kind { result.kind ≡ high parent }
    {
        Parent {
            state: StateIndex(low_of(parent)),
            symbol: middle_of(parent),
            kind: high_of(parent),
        }
    }
}
