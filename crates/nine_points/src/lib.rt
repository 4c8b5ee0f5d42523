// Request (b) of document 02, nine points a curve: laws only. specs/Before.antt says what a network got before, proofs/AsBefore.antt that
// one with no curve above nine points gets it still, proofs/Refused.antt which networks are refused for a curve.
#![tactic(auto)]
