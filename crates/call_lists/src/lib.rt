// Theorems on the program `cuts`, and no code: it shows the calls that a list says, in their order, and refuses what is no list. The
// statement stands in specs/, its proof in proofs/.
#![tactic(auto)]
