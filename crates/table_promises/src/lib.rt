// No code: specs/ has demand 3 of the calls and of the typed completion, proofs/ the theorems, and what an accepted call leaves.
#![tactic(auto)]
