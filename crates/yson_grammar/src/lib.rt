// No code: the grammar of YSON's binary form and the place where an input fails, a machine over tokens that the code
// follows, and the proof that grammar and machine agree (specs/, proofs/).
#![tactic(auto)]
