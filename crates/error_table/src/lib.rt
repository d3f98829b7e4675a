// The lent tables of errors that are to be written: document 02's 18, by its rules.
#![tactic(auto)]

pub mod table;
