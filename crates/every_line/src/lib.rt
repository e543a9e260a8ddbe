// Theorems on every line, and no code: what each call does, that cuts are together one replay over the joined bytes, and demand 3 over the
// records that came off the line. The statements stand in specs/, their proofs in proofs/.
#![tactic(auto)]
