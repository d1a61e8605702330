// What recordings made by calls look like: definitions in specs/, theorems in proofs/. There is no code here.

#![tactic(auto)]
