// What the office is told of transactions, held against the ledger, on demand 3's lists: specs/ says it, proofs/ that it holds. There is no code.
#![tactic(auto)]
