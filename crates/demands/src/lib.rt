// The association's demands, as theorems over the promises of the compiler, the mapper and the inspector: statements in specs/, proofs in proofs/. No code.
#![tactic(auto)]
