// What the kept transactions read, over lists of calls: specs/ has the definitions, proofs/ what holds of them. There is no code.
#![tactic(auto)]
