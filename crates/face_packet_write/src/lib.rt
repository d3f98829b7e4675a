// Packets written from a lent part table. A type is its number, as the C interface has it; an unknown one is refused by
// 2, before all else. A mode is a number too: 0 is archive, any other is live.
#![tactic(auto)]

ghost use Rattle.face_parts.specs.Statement.{unknown_type};
ghost use Rattle.face_packet_write.specs.Statement.{Encodes};
ghost use Rattle.words.specs.Paper.{Tells};

use guid::Guid;
use packet::PacketFlags;
use packet_mode::mode_of;
use words::outcome::{Outcome, refusal};

// As in `face_parts`, which this crate doesn't call: its exports would then stand in this crate's library too.
fn unknown_type(kind: u64) -> Outcome
    ensures { Tells (unknown_type kind) result }
{
    refusal(2, 0, kind, 0, 0)
}

// Writes a packet to the front of `out`.
#[unsafe(no_mangle)]
pub extern "C" fn cablefinch_encode(
    mode: u64,
    kind: u64,
    flags: u16,
    id: &[u8],
    area: &[u8],
    parts: &[u64],
    out: &mut [u8],
) -> Outcome
    ensures { Encodes mode kind flags id.now area.now parts.now out.old result
        out.new }
{
    let Some(packet_type) = packet::type_of(kind) else {
        return unknown_type(kind);
    };
    let guid = Guid::from_bytes(id, 0);
    let flags = PacketFlags(flags);
    let mode = mode_of(mode);
    packet_check::outcome(packet_write::encode(mode, packet_type, flags, guid, area, parts, out))
}
