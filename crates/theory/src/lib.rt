// Graph theory of the mapper: definitions in specs/, theorems in proofs/. No code, no bytes, no limits.
#![tactic(auto)]
