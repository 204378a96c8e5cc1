// Laws of the traces of lane mode, which code and theory share. Definitions and theorems only: there is no code here.
#![tactic(auto)]
