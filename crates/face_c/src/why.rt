// Why a buffer was refused, for a person: a finding as a struct of words.
ghost use Rattle.face_why.specs.Statement.{WhysPacket, WhysRowset};

use words::outcome::Outcome;

// Why a packet is refused or waits, or that it is fine.
#[unsafe(no_mangle)]
pub extern "C" fn cablefinch_why_packet(
    mode: u64,
    input: &[u8],
    max_message_size: u64,
    max_part_count: u32,
) -> Outcome
    ensures { WhysPacket mode input.now max_message_size max_part_count result }
{
    face_why::cablefinch_why_packet(mode, input, max_message_size, max_part_count)
}

// Why a rowset is refused or is not plain, or that it is fine.
#[unsafe(no_mangle)]
pub extern "C" fn cablefinch_why_rowset(input: &[u8]) -> Outcome
    ensures { WhysRowset input.now result }
{
    face_why::cablefinch_why_rowset(input)
}
