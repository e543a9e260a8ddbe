// Demand 3, and no code: its statement stands in specs/, its proof in proofs/.
#![tactic(auto)]
