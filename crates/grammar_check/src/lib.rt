// Which bytes are a coded grammar: refusals 3 to 8.
#![tactic(auto)]

mod faults;
mod naming;

ghost use Rattle.std.specs.Prelude.{◌≡◌};
ghost use Rattle.rules.specs.Limits.{limits};
ghost use Rattle.rules.specs.Records.{records};
ghost use Rattle.rules.specs.Grammar.{grammar_answer};
ghost use Rattle.grammar.specs.Asked.{Faultless};
ghost use Rattle.grammar_check.specs.Tests.{answer_from_six};

use rules::GrammarRefusal;

// Refusals 6 to 8, in that order, of bytes that meet none of 3 to 5.
fn check_symbols(g: &[u8]) -> Result<(), GrammarRefusal>
    requires { Faultless g.now }
    ensures { result ≡ answer_from_six (records g.now) }
{
    if let Some(again) = naming::first_start(g) {
        let production = grammar::records::production(g, again);
        return Err(GrammarRefusal::StartAgain(production));
    }
    if let Some(without) = naming::first_without(g) {
        return Err(GrammarRefusal::NoProduction(without));
    }
    if let Some(barren) = productive::first_barren(g) {
        return Err(GrammarRefusal::NoString(barren));
    }
    Ok(())
}

// The bytes are a coded grammar, or the first of refusals 3 to 8 that they meet, with its place.
pub fn check_grammar(g: &[u8]) -> Result<(), GrammarRefusal>
    ensures { result ≡ grammar_answer limits g.now }
{
    if faults::bad_length(g) {
        return Err(GrammarRefusal::Length);
    }
    if let Some(fault) = faults::first_fault(g) {
        return Err(faults::fault_at(g, fault));
    }
    check_symbols(g)
}
