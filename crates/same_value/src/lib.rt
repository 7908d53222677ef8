// No code: specs/ says when the value of a row is the same in a newer camera's payload, and proofs/ that it is, of each old row.

#![tactic(auto)]
