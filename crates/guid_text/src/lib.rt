// A GUID's text after guid.rs: four fields of hex digits between dashes, the last word first; how long it is, written,
// and read. A text that is refused says where it goes wrong and why.
#![tactic(auto)]

ghost use Rattle.std.specs.Prelude.{◌≡◌, Err};
ghost use Rattle.guid_text.specs.Statement.{SizesText, Prints, Parses};

use guid::Guid;
use numerals::{digit_value, hex_size};
use words::outcome::{NoRoom, Room};

mod hex;

// Why a text is refused: a field has no byte, a field has more than eight, a byte is no hex digit, or the fields are
// not four.
#[derive(Clone, Copy)]
pub enum Reason {
    Empty,
    TooLong,
    NotHex,
    FieldCount,
}

// 16: the place where a text goes wrong, and why.
#[derive(Clone, Copy)]
pub struct BadGuid {
    pub position: usize,
    pub reason: Reason,
}

// How many bytes the text has.
#[tactic(auto, using(crate::proofs::TextLaws::field_short, crate::proofs::TextLaws::length_text))]
pub fn text_size(id: Guid) -> usize
    ensures { SizesText id result }
{
    hex_size(id.w3) + hex_size(id.w2) + hex_size(id.w1) + hex_size(id.w0) + 3
}

// The text, over the front of `out`, and how many bytes that is, or 17: Rust's `Display`.
#[tactic(auto, using(crate::proofs::TextLaws::length_text))]
pub fn print(id: Guid, out: &mut [u8]) -> Result<usize, NoRoom>
    ensures { Prints id out.old result out.new }
{
    let needed = text_size(id);
    if out.len() < needed {
        return Err(NoRoom {
            room: Room::Output,
            needed: needed as u64,
            given: out.len() as u64,
        });
    }
    let second = hex::put_dashed(out, id.w3);
    let third = second + hex::put_dashed(&mut out[second..], id.w2);
    let last = third + hex::put_dashed(&mut out[third..], id.w1);
    hex::put(&mut out[last..], id.w0);
    Ok(needed)
}

// The GUID that a text of four fields between dashes spells, or where the text goes wrong and why: Rust's
// `from_str`, without its plus. `left` dashes are still to come, and this field began at `start`.
// The eighth digit has a call of its own: called once, `digit_value` is inlined and is a jump for each digit.
pub fn parse(text: &[u8]) -> Result<Guid, BadGuid>
    ensures { Parses text.now result }
{
    let mut w0: u32 = 0;
    let mut w1: u32 = 0;
    let mut w2: u32 = 0;
    let mut w3: u32 = 0;
    let mut left: u32 = 3;
    let mut start: usize = 0;
    for at in 0..text.len() {
        let byte = text[at];
        let count = at - start;
        if byte == b'-' {
            if count == 0 {
                return bad(at, Reason::Empty);
            }
            if left == 0 {
                return bad(at, Reason::FieldCount);
            }
            w3 = w2;
            w2 = w1;
            w1 = w0;
            w0 = 0;
            left -= 1;
            start = at + 1;
            continue;
        }
        if count < 7 {
            let value = digit_value(byte);
            if 15 < value {
                return bad(at, Reason::NotHex);
            }
            w0 = w0 * 16 + value;
            continue;
        }
        if 7 < count {
            return bad(at, Reason::TooLong);
        }
        let last = digit_value(byte);
        if 15 < last {
            return bad(at, Reason::NotHex);
        }
        w0 = w0 * 16 + last;
    }
    if text.len() == start {
        return bad(text.len(), Reason::Empty);
    }
    if 0 < left {
        return bad(text.len(), Reason::FieldCount);
    }
    Ok(Guid { w0, w1, w2, w3 })
}

// The refusal of a text, of this place and for this reason.
fn bad(position: usize, reason: Reason) -> Result<Guid, BadGuid>
    ensures { result ≡ Err record { position = position; reason = reason } }
{
    Err(BadGuid { position, reason })
}
