// Equations as text: the grammar and what a system of equations says, in specs/, theorems in proofs/. No code.
#![tactic(auto)]
