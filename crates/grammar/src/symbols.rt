// A symbol, as the code names it: its kind, and its number among those of the kind.
#[derive(Clone, Copy, PartialEq, Eq)]
pub enum Symbol {
    Nonterminal(usize),
    Terminal(usize),
}
