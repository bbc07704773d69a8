// That the ranges of `loss` and `position` are those of the type table is said in specs/ and proved in proofs/: there is no code here.
#![tactic(auto)]
