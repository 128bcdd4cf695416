// Worked cases of request 3/13, E, R and the vector bit: specs/ has the table, proofs/ its theorem.
#![tactic(auto)]
