// Theorems alone: how the reading of a rowset's text goes on at a byte, and what was read so far.
#![tactic(auto)]
