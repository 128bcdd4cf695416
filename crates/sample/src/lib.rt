// Case F1 of document 01 as an input of `acsroute`, and the two lines that it prints: specs/ has both,
// proofs/ the theorem.
#![tactic(auto)]
