// The settled cases, and no code: their table and what they show stand in specs/, the proofs in proofs/. The program `cases` runs them.
#![tactic(auto)]
