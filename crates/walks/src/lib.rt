// Laws of lane mode's collection, visits and walks, which code and theory share. Definitions and theorems only: there is no code here.
#![tactic(auto)]
