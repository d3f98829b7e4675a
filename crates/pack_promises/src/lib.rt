// No code: what is guaranteed of packing (document 02, A11), in specs/, and its proofs.
#![tactic(auto)]
