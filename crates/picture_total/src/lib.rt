// A theorem on what is counted of a frame, and no code: the picture total by columns, rows and lines. Its statement stands in specs/, its
// proof in proofs/.
#![tactic(auto)]
