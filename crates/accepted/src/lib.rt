// What an accepted point is (specs/Accepted.antt), and that the check says 0 exactly there (proofs/Kept.antt).
#![tactic(auto)]
