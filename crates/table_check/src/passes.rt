// The lowest record with a fault. One pass looks for a reduction's shift among the records before it, where it stands if all ascend;
// where that pass meets a fault, a second looks among all records, up to there.
ghost use Rattle.std.specs.Prelude.{◌≡◌, true, length};
ghost use Rattle.base.specs.Loops.{place_below};
ghost use Rattle.rules.specs.Limits.{limits};
ghost use Rattle.rules.specs.Records.{records};
ghost use Rattle.rules.specs.Table.{table_records};
ghost use Rattle.rules.specs.Drive.{first_malformed};
ghost use Rattle.grammar.specs.Asked.{InRange};
ghost use Rattle.record.specs.Search.{Searchable};
ghost use Rattle.table_check.specs.Faults.{faulty_so_far, faulty, first_faulty};

use crate::faults::Sizes;

// Record i has a fault, as far as the records up to it show. It differs from `faulty` in where a shift is looked for, a word each.
#[tactic(auto, unfolding(crate::specs::Faults::faulty_so_far))]
fn faulty_so_far(t: &[u8], i: usize, sizes: Sizes) -> bool
    requires { InRange i t.now × Searchable i t.now }
    ensures { result ≡ faulty_so_far sizes.terminals sizes.nonterminals sizes.productions (table_records t.now) i }
{
    crate::faults::misplaced(t, i, sizes) || crate::faults::shifted_before(t, i)
}

// Record i has a fault.
#[tactic(auto, unfolding(crate::specs::Faults::faulty))]
fn faulty(t: &[u8], i: usize, sizes: Sizes) -> bool
    requires { InRange i t.now }
    ensures { result ≡ faulty sizes.terminals sizes.nonterminals sizes.productions (table_records t.now) i }
{
    crate::faults::misplaced(t, i, sizes) || crate::faults::reduces_shifted(t, i)
}

// The lowest record with a fault, where record k has one.
fn lowest_up_to(t: &[u8], k: usize, sizes: Sizes) -> usize
    requires { InRange k t.now × (faulty sizes.terminals sizes.nonterminals sizes.productions (table_records t.now) k ≡ true) }
    ensures { result ≡ first_faulty sizes.terminals sizes.nonterminals sizes.productions (table_records t.now) }
{
    (0..k)
        .find(
            |i|
                requires { InRange i.now t.now }
            { faulty(t, *i, sizes) },
        )
        .unwrap_or(k)
}

// The lowest record with a fault.
fn first_faulty(t: &[u8], sizes: Sizes) -> Option<usize>
    ensures { result ≡ place_below (length (table_records t.now)) (first_faulty sizes.terminals sizes.nonterminals sizes.productions (table_records t.now)) }
{
    let count = record::records::record_count(t);
    // A turn asks that the records before its own ascend, which the turns before it have shown: no clause of a closure can say that.
    for i in 0..count {
        if faulty_so_far(t, i, sizes) {
            return Some(lowest_up_to(t, i, sizes));
        }
    }
    None
}

// The lowest record of the table that has a fault by document 01.
#[tactic(auto, using(crate::proofs::Lowest::malformed_first))]
pub fn first_malformed(g: &[u8], t: &[u8]) -> Option<usize>
    ensures { result ≡ place_below (length (table_records t.now)) (first_malformed limits (records g.now) (table_records t.now)) }
{
    let sizes = Sizes {
        terminals: grammar_numbers::counts::terminal_count(g),
        nonterminals: grammar_numbers::counts::nonterminal_count(g),
        productions: grammar_numbers::counts::production_count(g),
    };
    first_faulty(t, sizes)
}
