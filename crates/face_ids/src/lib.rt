// GUIDs: an id is lent as its sixteen wire bytes, of which a missing one counts as 0.
#![tactic(auto)]

ghost use Rattle.std.specs.Prelude.{◌≡◌};
ghost use Rattle.words.specs.Answer.{accepted};
ghost use Rattle.words.specs.Paper.{Tells};
ghost use Rattle.guid.specs.Guid.{guid_of, guid_of_halves, words_of};
ghost use Rattle.guid_text.specs.Paper.{printed_paper, parsed_paper};
ghost use Rattle.guid_text.specs.Reason.{reason_number};
ghost use Rattle.face_ids.specs.Statement.{WritesId, Prints, Parses, GivesParts, GivesHalves, TellsNull};

use guid::{Guid, Halves};
use guid_text::{BadGuid, Reason};
use words::outcome::{ACCEPTED, NoRoom, Outcome, Room, no_room, refusal, taken};

// A GUID in words: its four words in wire order.
fn words_outcome(id: Guid) -> Outcome
    ensures { Tells (accepted 0 (words_of id)) result }
{
    Outcome {
        kind: ACCEPTED,
        number: 0,
        count: 0,
        v0: id.w0 as u64,
        v1: id.w1 as u64,
        v2: id.w2 as u64,
        v3: id.w3 as u64,
        v4: 0,
        v5: 0,
        v6: 0,
    }
}

// The number of a reason, in the order of document 02's sentence.
fn reason_number(reason: Reason) -> u64
    ensures { result ≡ reason_number reason }
{
    match reason {
        Reason::Empty => 1,
        Reason::TooLong => 2,
        Reason::NotHex => 3,
        Reason::FieldCount => 4,
    }
}

// What `print` answered, in words. No `From`, here and below: neither type is this crate's.
fn printed_outcome(answer: Result<usize, NoRoom>) -> Outcome
    ensures { Tells (printed_paper answer) result }
{
    match answer {
        Ok(count) => taken(count as u64, 0, 0, 0),
        Err(short) => no_room(short),
    }
}

// What `parse` answered, in words.
fn parsed_outcome(answer: Result<Guid, BadGuid>) -> Outcome
    ensures { Tells (parsed_paper answer) result }
{
    match answer {
        Err(BadGuid { position, reason }) => refusal(
            16,
            0,
            position as u64,
            reason_number(reason),
            0,
        ),
        Ok(id) => words_outcome(id),
    }
}

// The sixteen bytes over the front of `out`, or 17.
fn write_id(id: Guid, out: &mut [u8]) -> Outcome
    ensures { WritesId id out.old result out.new }
{
    if out.len() < 16 {
        return no_room(NoRoom {
            room: Room::Output,
            needed: 16,
            given: out.len() as u64,
        });
    }
    id.write(out);
    taken(16, 0, 0, 0)
}

// Writes the id of four words.
#[unsafe(no_mangle)]
pub extern "C" fn cablefinch_guid_from_parts(
    w0: u32,
    w1: u32,
    w2: u32,
    w3: u32,
    out: &mut [u8],
) -> Outcome
    ensures { WritesId (guid_of w0 w1 w2 w3) out.old result out.new }
{
    write_id(Guid::from_parts(w0, w1, w2, w3), out)
}

// Writes the id of two halves.
#[unsafe(no_mangle)]
pub extern "C" fn cablefinch_guid_from_halves(first: u64, second: u64, out: &mut [u8]) -> Outcome
    ensures { WritesId (guid_of_halves first second) out.old result out.new }
{
    write_id(Guid::from_halves(first, second), out)
}

// Prints an id's text.
#[unsafe(no_mangle)]
pub extern "C" fn cablefinch_guid_print(id: &[u8], out: &mut [u8]) -> Outcome
    ensures { Prints id.now out.old result out.new }
{
    let guid = Guid::from_bytes(id, 0);
    printed_outcome(guid_text::print(guid, out))
}

// Reads an id's text: its four words, or 16 with the position and the reason.
#[unsafe(no_mangle)]
pub extern "C" fn cablefinch_guid_parse(text: &[u8]) -> Outcome
    ensures { Parses text.now result }
{
    parsed_outcome(guid_text::parse(text))
}

// An id's four words.
#[unsafe(no_mangle)]
pub extern "C" fn cablefinch_guid_parts(id: &[u8]) -> Outcome
    ensures { GivesParts id.now result }
{
    words_outcome(Guid::from_bytes(id, 0))
}

// An id's two halves.
#[unsafe(no_mangle)]
pub extern "C" fn cablefinch_guid_halves(id: &[u8]) -> Outcome
    ensures { GivesHalves id.now result }
{
    let guid = Guid::from_bytes(id, 0);
    let Halves { first, second } = guid.halves();
    taken(0, first, second, 0)
}

// Whether all sixteen bytes are 0.
#[unsafe(no_mangle)]
pub extern "C" fn cablefinch_guid_is_null(id: &[u8]) -> bool
    ensures { TellsNull id.now result }
{
    let guid = Guid::from_bytes(id, 0);
    guid.is_null()
}
