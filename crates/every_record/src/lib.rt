// Theorems on every record, and no code: refused records leave both chips as they were, each refusal number comes in its own case, and the
// three records on a controller alone do what they do on the bench. The statements stand in specs/, their proofs in proofs/.
#![tactic(auto)]
