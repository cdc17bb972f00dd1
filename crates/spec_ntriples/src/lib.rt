// What must be believed of N-Triples, its texts and the dictionary: definitions (specs/), their theory and worked examples (proofs/).
#![tactic(auto)]
