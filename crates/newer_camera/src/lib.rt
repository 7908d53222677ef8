// No code: specs/ says what a newer camera may put into a payload, and proofs/ has what an old reader makes of it.

#![tactic(auto)]
