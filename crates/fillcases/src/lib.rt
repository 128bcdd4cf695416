// Worked cases of request 2/13, records filled from images: specs/ has the table, proofs/ its theorem.
#![tactic(auto)]
