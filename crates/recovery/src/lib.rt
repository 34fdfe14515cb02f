// The 1993 recovery method without bytes: specs/ has its definitions, proofs/ its laws. There is no code.
#![tactic(auto)]
