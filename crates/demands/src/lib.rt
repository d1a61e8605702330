// What finished code means by the manuals (demand 2): definitions in specs/, theorems in proofs/. There is no code here.

#![tactic(auto)]
