// Fabric F of document 01, and what it must do: specs/ has the table, proofs/ its one theorem.
#![tactic(auto)]
