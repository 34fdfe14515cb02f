// Lists of calls on one store, over the definitions that the calls' contracts cite: specs/ has them, proofs/ what holds of them. There is no code.
#![tactic(auto)]
