// The first walk over a TError: every check but those of the room, and how many errors and attributes there are. It
// touches no table.
#![tactic(auto)]

pub mod walk;
