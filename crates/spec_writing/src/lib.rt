// What must be believed of rows written as canonical N-Triples: definitions (specs/), their theory and worked examples (proofs/).
#![tactic(auto)]
