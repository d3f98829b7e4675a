// Protobuf fields read at an offset of a slice, up to an end that they may not pass: document 02's A10. Any bytes,
// offset and end are taken; where the input does not reach to the end, no field is whole.
#![tactic(auto)]

pub mod field;
