// Theorems only, over the definitions of the crates below: what is guaranteed. The statements stand in specs/, each
// with the demand it answers; their proofs stand in proofs/.
#![tactic(auto)]
