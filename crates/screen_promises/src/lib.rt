// No code: specs/ has demand 3 of the exported calls, proofs/ the theorem.
#![tactic(auto)]
