// The static library for C, C++ and Rust: each function of `face` and of the crates `face_*` once more, under its own
// name and with its own statement, as an export that calls it. The header is ../../face/face.h.
// A library exports nothing, and no crate can use a static library: so the exports stand by themselves. That of
// `face_packet_write` stands in `face_packet_write_c`.
#![tactic(auto)]

ghost use Rattle.face.specs.Version.{InterfaceIs};

mod checksums;
mod errors;
mod ids;
mod notes;
mod packets;
mod parts;
mod rowsets;
mod text;
mod why;

// Answers the version of this interface, which is also the number in its name.
#[unsafe(no_mangle)]
pub extern "C" fn cablefinch_face_6() -> u64
    ensures { InterfaceIs result }
{
    face::cablefinch_face_6()
}
