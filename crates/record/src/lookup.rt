// What a table says of a state: its action at a token, and where it goes over a nonterminal.
ghost use Rattle.std.specs.Prelude.{◌≡◌};
ghost use Rattle.rules.specs.Table.{table_records, target_of, table_in};
ghost use Rattle.record.specs.Search.{Ascends};
ghost use Rattle.record.specs.Lookup.{found_in, act_in};
ghost use Rattle.record.specs.Kinds.{kind_number};

use crate::keys::Key;
use crate::kinds::Kind;

// What a state does at a token.
#[derive(Clone, Copy, PartialEq, Eq)]
pub enum Act {
    Shift(u16),
    Reduce(u16),
}

// The target of the record for the state, kind and symbol, if there is one.
#[tactic(auto, using(crate::proofs::Targets::target_missing, crate::proofs::Targets::target_found))]
fn target_of(t: &[u8], state: usize, kind: Kind, symbol: usize) -> Option<u16>
    requires { Ascends t.now }
    ensures { found_in result ≡ target_of (table_records t.now) state (kind_number kind) symbol }
{
    let n = crate::records::record_count(t);
    let key = Key {
        state,
        kind: usize::from(kind),
        symbol,
    };
    let at = crate::search::find(t, n, key)?;
    Some(crate::records::target(t, at) as u16)
}

// What the state does at the token, if anything.
#[tactic(auto, using(crate::proofs::Targets::acts_shift, crate::proofs::Targets::acts_reduce, crate::proofs::Targets::acts_not))]
pub fn action(t: &[u8], state: usize, token: usize) -> Option<Act>
    requires { Ascends t.now }
    ensures { act_in result ≡ (table_in (table_records t.now)).act state token }
{
    if let Some(to) = target_of(t, state, Kind::Shift, token) {
        return Some(Act::Shift(to));
    }
    let production = target_of(t, state, Kind::Reduce, token)?;
    Some(Act::Reduce(production))
}

// Where the state goes over the nonterminal, if anywhere.
#[tactic(auto, using(crate::proofs::Targets::goes_to))]
pub fn goto(t: &[u8], state: usize, nonterminal: usize) -> Option<u16>
    requires { Ascends t.now }
    ensures { found_in result ≡ (table_in (table_records t.now)).goto state nonterminal }
{
    target_of(t, state, Kind::Goto, nonterminal)
}
