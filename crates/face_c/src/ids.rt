// GUIDs: an id is lent as its sixteen wire bytes, of which a missing one counts as 0.
ghost use Rattle.guid.specs.Guid.{guid_of, guid_of_halves};
ghost use Rattle.face_ids.specs.Statement.{WritesId, Prints, Parses, GivesParts, GivesHalves, TellsNull};

use words::outcome::Outcome;

// Writes the id of four words.
#[unsafe(no_mangle)]
pub extern "C" fn cablefinch_guid_from_parts(
    w0: u32,
    w1: u32,
    w2: u32,
    w3: u32,
    out: &mut [u8],
) -> Outcome
    ensures { WritesId (guid_of w0 w1 w2 w3) out.old result out.new }
{
    face_ids::cablefinch_guid_from_parts(w0, w1, w2, w3, out)
}

// Writes the id of two halves.
#[unsafe(no_mangle)]
pub extern "C" fn cablefinch_guid_from_halves(first: u64, second: u64, out: &mut [u8]) -> Outcome
    ensures { WritesId (guid_of_halves first second) out.old result out.new }
{
    face_ids::cablefinch_guid_from_halves(first, second, out)
}

// Prints an id's text.
#[unsafe(no_mangle)]
pub extern "C" fn cablefinch_guid_print(id: &[u8], out: &mut [u8]) -> Outcome
    ensures { Prints id.now out.old result out.new }
{
    face_ids::cablefinch_guid_print(id, out)
}

// Reads an id's text: its four words, or 16 with the position and the reason.
#[unsafe(no_mangle)]
pub extern "C" fn cablefinch_guid_parse(text: &[u8]) -> Outcome
    ensures { Parses text.now result }
{
    face_ids::cablefinch_guid_parse(text)
}

// An id's four words.
#[unsafe(no_mangle)]
pub extern "C" fn cablefinch_guid_parts(id: &[u8]) -> Outcome
    ensures { GivesParts id.now result }
{
    face_ids::cablefinch_guid_parts(id)
}

// An id's two halves.
#[unsafe(no_mangle)]
pub extern "C" fn cablefinch_guid_halves(id: &[u8]) -> Outcome
    ensures { GivesHalves id.now result }
{
    face_ids::cablefinch_guid_halves(id)
}

// Whether all sixteen bytes are 0.
#[unsafe(no_mangle)]
pub extern "C" fn cablefinch_guid_is_null(id: &[u8]) -> bool
    ensures { TellsNull id.now result }
{
    face_ids::cablefinch_guid_is_null(id)
}
