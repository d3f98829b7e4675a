// The export of `face_packet_write`, as `face_c` has those of the others. It is a static library of its own, and so an
// object of its own: what reads packets is then compiled with loops of the checksum's engine that copy nothing.
#![tactic(auto)]

ghost use Rattle.face_packet_write.specs.Statement.{Encodes};

use words::outcome::Outcome;

// Writes a packet to the front of `out`.
#[unsafe(no_mangle)]
pub extern "C" fn cablefinch_encode(
    mode: u64,
    kind: u64,
    flags: u16,
    id: &[u8],
    area: &[u8],
    parts: &[u64],
    out: &mut [u8],
) -> Outcome
    ensures { Encodes mode kind flags id.now area.now parts.now out.old result
        out.new }
{
    face_packet_write::cablefinch_encode(mode, kind, flags, id, area, parts, out)
}
