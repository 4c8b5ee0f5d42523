// What row values are (request (a) of document 02): laws only. proofs/Outcomes.antt has those of any file, proofs/Compiled.antt those of
// the file that compile writes.
#![tactic(auto)]
