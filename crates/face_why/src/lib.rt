// The static library's functions that tell a person why a buffer was refused: a finding as a struct of words. A mode is
// a number, as the C interface has it: 0 is archive, any other is live.
#![tactic(auto)]

ghost use Rattle.face_why.specs.Statement.{WhysPacket, WhysRowset};

use packet_mode::mode_of;
use words::outcome::Outcome;

// Why a packet is refused or waits, or that it is fine.
#[unsafe(no_mangle)]
pub extern "C" fn cablefinch_why_packet(
    mode: u64,
    input: &[u8],
    max_message_size: u64,
    max_part_count: u32,
) -> Outcome
    ensures { WhysPacket mode input.now max_message_size max_part_count result }
{
    let mode = mode_of(mode);
    let told = why_packet::explain(mode, input, max_message_size, max_part_count);
    Outcome::from(told)
}

// Why a rowset is refused or is not plain, or that it is fine.
#[unsafe(no_mangle)]
pub extern "C" fn cablefinch_why_rowset(input: &[u8]) -> Outcome
    ensures { WhysRowset input.now result }
{
    Outcome::from(why_rowset::explain(input))
}
