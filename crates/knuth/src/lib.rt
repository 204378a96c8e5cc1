// What LR(1) means, proved once over the grammars of `rules`. Definitions and theorems only: there is no code here.
#![tactic(auto)]
