// No code: what is guaranteed of YSON (document 02, A4), in specs/, and its proofs.
#![tactic(auto)]
