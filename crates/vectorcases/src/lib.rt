// Worked cases of request 1/13, a full-size vector: specs/ has the two tables, proofs/ a theorem for each.
#![tactic(auto)]
