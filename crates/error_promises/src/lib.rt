// Theorems only, over the definitions and statements of the crates that read errors: what document 02's A10 asks to be
// proved. The statements stand in specs/, their proofs in proofs/.
#![tactic(auto)]
