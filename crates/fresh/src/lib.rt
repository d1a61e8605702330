// The fresh assembly that a relaxed finish is measured by, and the rounds that choose its long jumps: definitions in specs/, theorems in proofs/.
// There is no code here.

#![tactic(auto)]
