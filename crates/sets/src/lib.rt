// Laws of token sets, for sets of any width. There is no code here: specs/ counts tokens, proofs/Laws.antt has the laws.
#![tactic(auto)]
