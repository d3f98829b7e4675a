// The static library's interface by its version, in the name of a function: a caller that was made for another version
// does not link. ../face.h declares all exported functions for C; they stand in the crates `face_checksums`,
// `face_ids`, `face_parts`, `face_packets`, `face_packet_write`, `face_rowsets`, `face_text`, `face_notes`,
// `face_errors` and `face_why`.
// What one answers is a struct of words: whether it accepts, document 01's number, how many bytes, and the values.
#![tactic(auto)]

ghost use Rattle.face.specs.Version.{InterfaceIs};

// Answers the version of this interface, which is also the number in its name.
#[unsafe(no_mangle)]
pub extern "C" fn cablefinch_face_6() -> u64
    ensures { InterfaceIs result }
{
    6
}
