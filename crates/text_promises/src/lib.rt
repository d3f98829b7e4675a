// No code: what is guaranteed of a rowset's text (document 02, A1), in specs/, and its proofs.
#![tactic(auto)]
