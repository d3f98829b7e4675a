// A TError read as protobuf into two lent tables: document 02's A10. The first walk (`error_walk`) checks and counts;
// the second fills the tables once it is known that they have the room.
#![tactic(auto)]

pub mod decode;
mod fill;
