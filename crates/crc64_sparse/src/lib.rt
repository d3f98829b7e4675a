// The law of the sparse multiple: theorems alone, in proofs/.
#![tactic(auto)]
