// No code: proofs/ has what is shown of all public calls together.

#![tactic(auto)]
