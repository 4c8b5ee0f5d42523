// What an accepted point keeps in exact numbers (specs/Exactly.antt), and that the check's 0 says it (proofs/Exactly.antt).
#![tactic(auto)]
