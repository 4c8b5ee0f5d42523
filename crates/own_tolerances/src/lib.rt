// Request (c) of document 02, the carrier's own tolerances: laws only. specs/Before.antt says what the check answered with one tolerance of
// 1e-6, proofs/AsBefore.antt that it answers so where all eight are 1e-6, proofs/Wider.antt that a wider list accepts what a narrower one
// does.
#![tactic(auto)]
