// Theorems alone: what document 02's A9 asks to be proved of what a person is told.
#![tactic(auto)]
