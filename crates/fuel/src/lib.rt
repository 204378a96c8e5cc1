// Every recursion by fuel in `rules` stops on its test before its fuel runs out: specs/Enough.antt says it on one page.
// Definitions and theorems only: there is no code here.
#![tactic(auto)]
