// Theorems on setup files, and no code: what is written is read back, what is read is written back byte for byte, and what the parts of a
// file are. Their statements stand in specs/, their proofs in proofs/.
#![tactic(auto)]
