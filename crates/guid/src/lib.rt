// YTsaurus GUIDs after guid.rs: sixteen wire bytes, four little-endian words, two halves. A GUID is held as its four
// words, so that an answer can carry it; the wire bytes are read and written at the border. Its text is in
// `guid_text`.
#![tactic(auto)]

ghost use Rattle.std.specs.Prelude.{◌≡◌};
ghost use Rattle.words.specs.Statement.{Leaves};
ghost use Rattle.guid.specs.Guid.{wire_bytes};
ghost use Rattle.guid.specs.Statement.{MadeOfParts, GivesParts, MadeOfHalves, GivesHalves, TellsNull, ReadsBytes};

use word_read::read_u32;
use word_write::write_u32;

// The words in wire order.
#[derive(Clone, Copy)]
pub struct Guid {
    pub w0: u32,
    pub w1: u32,
    pub w2: u32,
    pub w3: u32,
}

// The words alone, in the same order.
pub type FourWords = [u32; 4];

// Bytes 0 to 7 and bytes 8 to 15, as `TGuid` carries them.
#[derive(Clone, Copy)]
pub struct Halves {
    pub first: u64,
    pub second: u64,
}

impl Guid {
    // The GUID of four words in wire order.
    pub fn from_parts(w0: u32, w1: u32, w2: u32, w3: u32) -> Guid
        ensures { MadeOfParts w0 w1 w2 w3 result }
    {
        Self { w0, w1, w2, w3 }
    }

    // The four words in wire order.
    pub fn parts(self) -> FourWords
        ensures { GivesParts self result }
    {
        [self.w0, self.w1, self.w2, self.w3]
    }

    // The GUID of two halves.
    #[tactic(auto, using(crate::proofs::WireLaws::words_of_halves))]
    pub fn from_halves(first: u64, second: u64) -> Guid
        ensures { MadeOfHalves first second result }
    {
        Guid {
            w0: (first % 0x1_0000_0000) as u32,
            w1: (first / 0x1_0000_0000) as u32,
            w2: (second % 0x1_0000_0000) as u32,
            w3: (second / 0x1_0000_0000) as u32,
        }
    }

    // The two halves.
    pub fn halves(self) -> Halves
        ensures { GivesHalves self result }
    {
        Halves {
            first: (self.w0 as u64) + 0x1_0000_0000 * (self.w1 as u64),
            second: (self.w2 as u64) + 0x1_0000_0000 * (self.w3 as u64),
        }
    }

    // Whether all sixteen bytes are 0.
    pub fn is_null(self) -> bool
        ensures { TellsNull self result }
    {
        self.w0 == 0 && self.w1 == 0 && self.w2 == 0 && self.w3 == 0
    }

    // The GUID whose sixteen bytes begin at `at`. A byte past the end counts as 0.
    pub fn from_bytes(bytes: &[u8], at: usize) -> Guid
        ensures { ReadsBytes bytes.now at result }
    {
        if bytes.len() <= at {
            return Guid {
                w0: 0,
                w1: 0,
                w2: 0,
                w3: 0,
            };
        }
        Guid {
            w0: read_u32(bytes, at),
            w1: read_u32(bytes, at + 4),
            w2: read_u32(bytes, at + 8),
            w3: read_u32(bytes, at + 12),
        }
    }

    // The sixteen bytes, over the front of `out` where they fit.
    pub fn write(self, out: &mut [u8])
        ensures { Leaves (wire_bytes self) out.old out.new }
    {
        if out.len() < 16 {
            return;
        }
        write_u32(out, self.w0);
        write_u32(&mut out[4..], self.w1);
        write_u32(&mut out[8..], self.w2);
        write_u32(&mut out[12..], self.w3);
    }
}
