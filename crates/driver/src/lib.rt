// The driver: a run of a table over tokens. Refusals 3 to 8 come first, then 15, then 16, then the run.
#![tactic(auto)]

pub mod moves;
pub mod runs;

ghost use Rattle.std.specs.Prelude.{◌≡◌};
ghost use Rattle.rules.specs.Limits.{limits};
ghost use Rattle.rules.specs.Grammar.{grammar_answer};
ghost use Rattle.rules.specs.Drive.{drive_coded, drive};
ghost use Rattle.driver.specs.Results.{drove_in};

use rules::{DriveRefusal, RunAnswer};

// The drive of a coded grammar: 15, then 16, then the run.
#[tactic(auto, using(grammar::proofs::Coded::coded_faultless, crate::proofs::Driving::table_ascends, crate::proofs::Driving::bad_length_lem, crate::proofs::Driving::bad_table, crate::proofs::Driving::bad_token))]
fn drive_coded(
    g: &[u8],
    t: &[u8],
    tokens: &[u8],
    limit: u64,
    stack: &mut [u16],
    list: &mut [u16],
) -> Result<RunAnswer, DriveRefusal>
    requires { grammar_answer limits g.now ≡ Ok tt }
    ensures { drove_in result stack.new list.new
        ≡ drive_coded limits g.now (Ok tt) t.now tokens.now limit stack.old list.old }
{
    if t.len() % grammar::records::RECORD != 0 {
        return Err(DriveRefusal::Table(0));
    }
    if let Some(fault) = table_check::passes::first_malformed(g, t) {
        return Err(DriveRefusal::Table(fault));
    }
    if let Some(place) = runs::first_no_token(g, tokens) {
        return Err(DriveRefusal::Token(place));
    }
    Ok(runs::run(g, t, tokens, limit, stack, list))
}

// The driver's call.
pub fn drive(
    g: &[u8],
    t: &[u8],
    tokens: &[u8],
    limit: u64,
    stack: &mut [u16],
    list: &mut [u16],
) -> Result<RunAnswer, DriveRefusal>
    ensures { drove_in result stack.new list.new
        ≡ drive limits g.now t.now tokens.now limit stack.old list.old }
{
    grammar_check::check_grammar(g)?;
    drive_coded(g, t, tokens, limit, stack, list)
}
