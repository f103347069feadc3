// No code: proofs/Theorems.antt has the theorems that a reader looks for.
#![tactic(auto)]
