// The place of a record in a table that ascends by state, kind and symbol, found by halving.
ghost use Rattle.std.specs.Prelude.{◌≡◌, ◌<◌, IfSome};
ghost use Rattle.base.specs.Loops.{place_below};
ghost use Rattle.rules.specs.Table.{table_record, table_records, is_for};
ghost use Rattle.rules.specs.Drive.{table_at, ascends};
ghost use Rattle.grammar.specs.Asked.{InRange};
ghost use Rattle.record.specs.Search.{Searchable, first_for};

use crate::keys::Key;

// Record i comes before the place of a record for the key. Field by field, as the search runs in each step of a run: the derived order of two
// keys, which reads all fields of the record, took a sixth more instructions a step.
#[tactic(auto, using(crate::proofs::Ways::by_state, crate::proofs::Ways::by_kind, crate::proofs::Ways::by_symbol))]
pub fn before(t: &[u8], i: usize, key: Key) -> bool
    requires { InRange i t.now }
    ensures { result ≡ ascends (table_at (table_records t.now) i) (table_record key.state key.kind key.symbol 0) }
{
    let state = crate::records::state(t, i);
    if state != key.state {
        return state < key.state;
    }
    let kind = crate::records::kind(t, i);
    if kind != key.kind {
        return kind < key.kind;
    }
    crate::records::symbol(t, i) < key.symbol
}

// Record i is for the key.
#[tactic(auto, unfolding(rules::specs::Table::is_for))]
pub fn is_for(t: &[u8], i: usize, key: Key) -> bool
    requires { InRange i t.now }
    ensures { result ≡ is_for key.state key.kind key.symbol (table_at (table_records t.now) i) }
{
    crate::records::state(t, i) == key.state
        && crate::records::kind(t, i) == key.kind
        && crate::records::symbol(t, i) == key.symbol
}

// The first of n ascending records that is for the key.
pub fn find(t: &[u8], n: usize, key: Key) -> Option<usize>
    requires { Searchable n t.now }
    ensures place { result ≡ place_below n (first_for (table_records t.now) n key.state key.kind key.symbol) }
    ensures within { IfSome result (λ at. at < n) }
{
    let at = base::partition_point(n, |i| before(t, i, key));
    (at < n && is_for(t, at, key)).then_some(at)
}
