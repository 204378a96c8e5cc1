// The productions of the grammar by number. Records ascend by production, so the left side of one is found by halving.
ghost use Rattle.std.specs.Prelude.{◌≡◌, ◌≤◌, length};
ghost use Rattle.rules.specs.Records.{records};
ghost use Rattle.rules.specs.Grammar.{left_side_of, left_of, symbols_behind};
ghost use Rattle.rules.specs.Run.{side_length};
ghost use Rattle.grammar.specs.Asked.{Faultless};

// The left-side record of production p, or the number of records if there is none: behind it stand no symbols, as `side_length` counts.
pub fn left_side_of(g: &[u8], p: usize) -> usize
    requires { Faultless g.now }
    ensures { (result ≡ left_side_of (records g.now) p) × (result ≤ length (records g.now)) }
{
    let n = grammar::records::record_count(g);
    base::partition_point(n, |i| grammar::records::production(g, i) < p)
}

// The nonterminal on the left of production p, or 0 if there is no such production, as `left_of` of rules has it.
pub fn left_symbol(g: &[u8], p: usize) -> usize
    requires { Faultless g.now }
    ensures { result ≡ left_of (records g.now) p }
{
    let left = left_side_of(g, p);
    if left < grammar::records::record_count(g) {
        return grammar::records::symbol(g, left);
    }
    0
}

// How many symbols stand behind the dot of item i.
fn count_behind(g: &[u8], i: usize) -> usize
    requires { i ≤ length (records g.now) }
    ensures { result ≡ length (symbols_behind (records g.now) i) }
{
    let n = grammar::records::record_count(g);
    (i + 1..n)
        .take_while(|k| !grammar::items::at_start(g, *k))
        .count()
}

// How many symbols production p has on its right, 0 if there is no such production.
pub fn side_length(g: &[u8], p: usize) -> usize
    requires { Faultless g.now }
    ensures { result ≡ side_length (records g.now) p }
{
    count_behind(g, left_side_of(g, p))
}
