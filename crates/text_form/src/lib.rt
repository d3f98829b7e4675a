// Theorems alone: rows as tab-separated text, and where such a text goes wrong.
#![tactic(auto)]
