// No code: specs/ has the statements of the promises that only the doors cite, proofs/ the theorems.
#![tactic(auto)]
