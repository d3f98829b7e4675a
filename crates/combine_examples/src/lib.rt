// Theorems alone: examples of what `combine` gives, as computed tests. They take several times as long as the check of
// `combine` itself, so they stand apart from it and its edits.
#![tactic(auto)]
