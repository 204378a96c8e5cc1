// FIRST of every nonterminal, collected in rounds over the productions: first/mod.rs, FirstSets::new.
ghost use Rattle.std.specs.Prelude.{◌≡◌, true, ◌≤◌, replicate};
ghost use Rattle.rules.specs.Limits.{max_nonterminals};
ghost use Rattle.rules.specs.Records.{records};
ghost use Rattle.rules.specs.Grammar.{at_start};
ghost use Rattle.rules.specs.First.{first_sets};
ghost use Rattle.grammar.specs.Asked.{InRange, Faultless};
ghost use Rattle.room.specs.Areas.{view};
ghost use Rattle.room.specs.Bounds.{LongEnough, FewTerminals};
ghost use Rattle.first.specs.Asked.{Counted};
ghost use Rattle.first.specs.Firsts.{OnlyFirsts, FirstsCleared, FirstsFound};
ghost use Rattle.first.specs.Rooms.{firsts_of, first_added, adds_first, first_added_at, adds_first_at, round_made, round_adds};

use super::suffix::first0;
use grammar::items::at_start;
use grammar::records::{record_count, symbol};
use lookahead::{clear_set, join_into};
use room::slots::{first_slot, hand_slot};

// The left side of record i's production gets what begins its right side; says whether it lacked some of it.
fn add_first(g: &[u8], n: usize, i: usize, work: &mut [u64]) -> bool
    requires in_range { InRange i g.now × Faultless g.now × FewTerminals n }
    requires long_enough { LongEnough work.old × (at_start (records g.now) i ≡ true) }
    ensures work_after { firsts_of g.now work.new ≡ first_added g.now n i work.old }
    ensures only_firsts { OnlyFirsts (records g.now) (view work.old) (view work.new) }
    ensures value { result ≡ adds_first g.now n i work.old }
{
    let a = symbol(g, i);
    let own = first_slot(a);
    let hand = hand_slot();
    first0(g, n, i, work, hand);
    join_into(work, own, hand)
}

// One turn of a round: the production of a left-side record is looked at, any other record passed over.
fn add_first_at(g: &[u8], n: usize, i: usize, work: &mut [u64]) -> bool
    requires { InRange i g.now × Faultless g.now × FewTerminals n × LongEnough work.old }
    ensures work_after { firsts_of g.now work.new ≡ first_added_at g.now n i work.old }
    ensures only_firsts { OnlyFirsts (records g.now) (view work.old) (view work.new) }
    ensures value { result ≡ adds_first_at g.now n i work.old }
{
    at_start(g, i) && add_first(g, n, i, work)
}

// One round over the productions; says whether a left side lacked something.
fn round(g: &[u8], n: usize, work: &mut [u64]) -> bool
    requires { Faultless g.now × FewTerminals n × LongEnough work.old }
    ensures work_after { firsts_of g.now work.new ≡ round_made g.now n work.old }
    ensures only_firsts { OnlyFirsts (records g.now) (view work.old) (view work.new) }
    ensures value { result ≡ round_adds g.now n work.old }
{
    let count = record_count(g);
    let mut changed = false;
    for i in 0..count {
        changed |= add_first_at(g, n, i, work);
    }
    changed
}

// Rounds until one finds nothing that is lacking, at most m (n + 1) of them.
fn rounds(g: &[u8], n: usize, m: usize, work: &mut [u64])
    requires faultless { Faultless g.now × Counted g.now n m }
    requires long_enough { LongEnough work.old × (firsts_of g.now work.old ≡ replicate m 0) }
    ensures work_after { firsts_of g.now work.new ≡ first_sets (records g.now) }
    ensures only_firsts { OnlyFirsts (records g.now) (view work.old) (view work.new) }
{
    let bound = m * (n + 1);
    // A `for`: each round writes into the room, and the first that adds nothing is the last.
    for turn in 0..bound {
        if !round(g, n, work) {
            return;
        }
    }
}

// Nothing begins the first m nonterminals: their slots are empty.
fn clear_firsts(m: usize, work: &mut [u64])
    requires { LongEnough work.old × (m ≤ max_nonterminals) }
    ensures { FirstsCleared m (view work.old) (view work.new) }
{
    for a in 0..m {
        let own = first_slot(a);
        clear_set(work, own);
    }
}

// FIRST of every nonterminal, into its slot. The set at hand is left empty.
// n and m are the grammar's numbers of terminals and nonterminals. first/mod.rs: FirstSets::new
pub fn first_sets(g: &[u8], n: usize, m: usize, work: &mut [u64])
    requires { Faultless g.now × Counted g.now n m × LongEnough work.old }
    ensures { FirstsFound (records g.now) (view work.old) (view work.new) }
{
    clear_firsts(m, work);
    rounds(g, n, m, work);
    let hand = hand_slot();
    clear_set(work, hand);
}
