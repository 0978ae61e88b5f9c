// The paper's small drawings: the table of cases in specs/, its one proof in proofs/, and there the traps, statements that wrong readings fail. No code.
#![tactic(auto)]
