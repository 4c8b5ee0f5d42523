// Document 01's Depot M: the cases marked P, shown for the definitions (proofs/Cases.antt).
#![tactic(auto)]
