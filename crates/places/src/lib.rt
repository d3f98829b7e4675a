// Theorems only: where a text goes wrong, for any set of accepted texts, and machines that find the place.
#![tactic(auto)]
