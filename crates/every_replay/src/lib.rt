// Theorems on every replay, and no code: its counts and its ending, that a batch is replayed part by part, and that what holds of every step's
// answer holds of every answer of a run. The statements of the promises stand in specs/, all proofs in proofs/.
#![tactic(auto)]
