// What the programs print, for encodings and for whole batches, is proved in proofs/: there is no code here.
#![tactic(auto)]
