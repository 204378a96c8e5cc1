// The definitions that the contracts of every crate cite, and their laws. Its only code is a search by halving.
#![tactic(auto)]

ghost use Rattle.std.specs.Prelude.{ℕ, ◌≡◌, ◌<◌, ◌≤◌, Bool, not};
ghost use Rattle.base.specs.Loops.{first_from};
ghost use Rattle.base.specs.Halving.{Answers, PassInFront};

// The first of 0, 1, .., count - 1 that does not come before, or count if each does. It is found by halving: those that come before
// stand in front.
pub fn partition_point<F: Fn(usize) -> bool>(count: usize, before: F) -> usize
    requires { (i : ℕ) → i < count → F.pre before i }
    ensures within { result ≤ count }
    ensures point { (test : ℕ → Bool) → Answers count (F.post before) test → PassInFront count test → result ≡ first_from (λ i. not (test i)) count 0 }
{
    let mut low: usize = 0;
    let mut high = count;
    // a search by halving: no iterator takes such steps
    while low < high {
        let middle = low + (high - low) / 2;
        if before(middle) {
            low = middle + 1;
        } else {
            high = middle;
        }
    }
    low
}
