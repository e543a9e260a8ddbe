// Theorems on the controller, and no code: frames begin when demand 3 says, the scan is at its place at each time after a reset, and every
// controller that calls can reach stays within its widths. The statements stand in specs/, their proofs in proofs/.
#![tactic(auto)]
