// No code: specs/ says what a payload is read as, over the tree of its items, and proofs/ has the laws of that.

#![tactic(auto)]
