// What follows for a sheet that keeps the rules: definitions in specs/, theorems in proofs/. No code.
#![tactic(auto)]
