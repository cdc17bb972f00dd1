// A section of facts as one batch: what its entries come to together (specs/), and that this is what they come to one by one (proofs/).
#![tactic(auto)]
