// What the multiplexer visits, as theorems: every refresh row within sixteen falls of HS, and the bytes of a picture, line by line,
// in each display mode. There is no code here: the statements stand in specs/, their proofs in proofs/.
#![tactic(auto)]
