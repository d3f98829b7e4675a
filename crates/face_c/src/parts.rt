// Packets' parts in a lent table: checked and measured before they are written, and where one lies.
ghost use Rattle.face_parts.specs.Statement.{Measures, Validates, LendsPart, Contains};

use words::outcome::Outcome;

// How many bytes the packet has.
#[unsafe(no_mangle)]
pub extern "C" fn cablefinch_encoded_size(
    mode: u64,
    kind: u64,
    area: &[u8],
    parts: &[u64],
) -> Outcome
    ensures { Measures mode kind area.now parts.now result }
{
    face_parts::cablefinch_encoded_size(mode, kind, area, parts)
}

// Whether the packet can be written, room aside.
#[unsafe(no_mangle)]
pub extern "C" fn cablefinch_validate(mode: u64, kind: u64, area: &[u8], parts: &[u64]) -> Outcome
    ensures { Validates mode kind area.now parts.now result }
{
    face_parts::cablefinch_validate(mode, kind, area, parts)
}

// Where part `index` lies in the input and how long it is; an empty part lies at 0.
#[unsafe(no_mangle)]
pub extern "C" fn cablefinch_part(input: &[u8], parts: &[u64], index: usize) -> Outcome
    ensures { LendsPart input.now parts.now index result }
{
    face_parts::cablefinch_part(input, parts, index)
}

// Whether all flags of `other` are set.
#[unsafe(no_mangle)]
pub extern "C" fn cablefinch_contains(flags: u16, other: u16) -> bool
    ensures { Contains flags other result }
{
    face_parts::cablefinch_contains(flags, other)
}
