// The number that a word of the call says.
ghost use Rattle.std.specs.Prelude.{◌≡◌};
ghost use Rattle.input.specs.Numbers.{with_digit, number_said};

// The number with one more digit behind it; none if the byte is no digit, or the number has more than 64 bits.
#[tactic(auto, using(crate::proofs::Digits::no_digit))]
fn with_digit(n: u64, byte: u8) -> Option<u64>
    ensures { result ≡ with_digit n byte }
{
    if !byte.is_ascii_digit() {
        return None;
    }
    n.checked_mul(10)?.checked_add(u64::from(byte - b'0'))
}

// The number that the word says in decimal digits; none if something else stands there, or nothing.
pub fn said(word: &[u8]) -> Option<u64>
    ensures { result ≡ number_said word.now }
{
    if word.is_empty() {
        return None;
    }
    let mut n = 0;
    for &byte in word {
        n = with_digit(n, byte)?;
    }
    Some(n)
}
