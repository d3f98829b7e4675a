// Packets' parts in a lent table: checked and measured before they are written, and where one lies. Nothing here needs
// an engine of the checksum. A type is its number, as the C interface has it; an unknown one is refused by 2, before
// all else. A mode is a number too: 0 is archive, any other is live.
#![tactic(auto)]

ghost use Rattle.face_parts.specs.Statement.{unknown_type, Measures, Validates, LendsPart, Contains};
ghost use Rattle.packet_check.specs.Paper.{paper_validated};
ghost use Rattle.words.specs.Paper.{Tells};

use packet::{PacketError, PacketFlags};
use packet_mode::mode_of;
use words::outcome::{Outcome, refusal, taken};

fn unknown_type(kind: u64) -> Outcome
    ensures { Tells (unknown_type kind) result }
{
    refusal(2, 0, kind, 0, 0)
}

// The answer of `validate` in document 01's number and values. It is no `From`: neither a `Result` nor an `Outcome` is
// this crate's.
fn validated_outcome(answer: Result<(), PacketError>) -> Outcome
    ensures { Tells (paper_validated answer) result }
{
    match answer {
        Ok(()) => taken(0, 0, 0, 0),
        Err(error) => packet::refused(error, 0),
    }
}

// How many bytes the packet has.
#[unsafe(no_mangle)]
pub extern "C" fn cablefinch_encoded_size(
    mode: u64,
    kind: u64,
    area: &[u8],
    parts: &[u64],
) -> Outcome
    ensures { Measures mode kind area.now parts.now result }
{
    let Some(packet_type) = packet::type_of(kind) else {
        return unknown_type(kind);
    };
    let mode = mode_of(mode);
    packet_check::outcome(packet_check::encoded_size(mode, packet_type, area, parts))
}

// Whether the packet can be written, room aside.
#[unsafe(no_mangle)]
pub extern "C" fn cablefinch_validate(mode: u64, kind: u64, area: &[u8], parts: &[u64]) -> Outcome
    ensures { Validates mode kind area.now parts.now result }
{
    let Some(packet_type) = packet::type_of(kind) else {
        return unknown_type(kind);
    };
    let mode = mode_of(mode);
    validated_outcome(packet_check::validate(mode, packet_type, area, parts))
}

// Where part `index` lies in the input and how long it is; an empty part lies at 0.
#[unsafe(no_mangle)]
pub extern "C" fn cablefinch_part(input: &[u8], parts: &[u64], index: usize) -> Outcome
    ensures { LendsPart input.now parts.now index result }
{
    let length = packet::part(input, parts, index).len();
    if length == 0 {
        return taken(0, 0, 0, 0);
    }
    if parts.len() / packet::ENTRY_WORDS <= index {
        return taken(0, 0, 0, 0);
    }
    taken(0, parts[packet::ENTRY_WORDS * index], length as u64, 0)
}

// Whether all flags of `other` are set.
#[unsafe(no_mangle)]
pub extern "C" fn cablefinch_contains(flags: u16, other: u16) -> bool
    ensures { Contains flags other result }
{
    packet::contains(PacketFlags(flags), PacketFlags(other))
}
