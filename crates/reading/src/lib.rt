// Condition 3 of document 00, for the file that compile writes: laws only (proofs/Reading.antt).
#![tactic(auto)]
