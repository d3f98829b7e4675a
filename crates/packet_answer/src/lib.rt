// What the packet reader answers, and that answer in words. It stands below the reader, and so needs no engine of the
// checksum.
#![tactic(auto)]

ghost use Rattle.std.specs.Prelude.{◌≡◌};
ghost use Rattle.packet_answer.specs.Statement.{TellsDecoded, IsPlain};

use packet::{Packet, PacketError};
use words::outcome::{Outcome, unfinished};

// A packet that was read, and the bytes of the input that it took.
#[derive(Clone, Copy)]
pub struct Read {
    pub packet: Packet,
    pub consumed: usize,
}

// A refusal, and the bytes of the input that it took: none, but where a part's checksum is wrong.
#[derive(Clone, Copy)]
pub struct Refusal {
    pub error: PacketError,
    pub consumed: usize,
}

// An error refuses a packet and takes none of the input, where nothing else is said.
impl From<PacketError> for Refusal {
    ghost from_gives = { λ error refusal. IsPlain error refusal };

    fn from(error: PacketError) -> Refusal {
        Refusal { error, consumed: 0 }
    }
}

// What the reader answers: a packet, nothing as yet where more bytes are needed, or a refusal.
pub type Decoded = Result<Option<Read>, Refusal>;

// The answer in document 01's number and values. It is no `From`: neither a `Result` nor an `Outcome` is this crate's.
pub fn outcome(answer: Decoded) -> Outcome
    ensures { TellsDecoded answer result }
{
    match answer {
        Ok(None) => unfinished(),
        Err(Refusal { error, consumed }) => packet::refused(error, consumed),
        Ok(Some(Read { packet, consumed })) => Outcome {
            kind: words::outcome::ACCEPTED,
            number: 0,
            count: consumed as u64,
            v0: u16::from(packet.packet_type) as u64,
            v1: packet.flags.0 as u64,
            v2: packet.id.w0 as u64,
            v3: packet.id.w1 as u64,
            v4: packet.id.w2 as u64,
            v5: packet.id.w3 as u64,
            v6: packet.parts as u64,
        },
    }
}
