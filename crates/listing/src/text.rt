// Pieces of text written to a buffer at a place, each answering where it ends. All of it is private to the crate.
ghost use Rattle.std.specs.Prelude.{[], ◌∷◌, ◌++◌, ◌+◌, ◌≤◌, length};
ghost use Rattle.numerals.specs.Statement.{decimal};
ghost use Rattle.guid_text.specs.Text.{text_of};
ghost use Rattle.listing.specs.Stages.{Wrote};

use guid::Guid;
use numerals::write_decimal;

pub(crate) fn put_bytes(out: &mut [u8], at: usize, bytes: &[u8]) -> usize
    requires { at + length bytes.now ≤ length out.old }
    ensures { Wrote bytes.now at out.old result out.new }
{
    word_write::write_bytes(&mut out[at..], bytes);
    at + bytes.len()
}

// A number, and the byte behind it.
pub(crate) fn put_field(out: &mut [u8], at: usize, number: u64, after: u8) -> usize
    requires { at + 21 ≤ length out.old }
    ensures { Wrote (decimal number ++ after ∷ []) at out.old result out.new × (result ≤ at + 21) }
{
    let last = at + write_decimal(&mut out[at..], number);
    out[last] = after;
    last + 1
}

// A packet's id, and a space behind it.
pub(crate) fn put_id(out: &mut [u8], at: usize, id: Guid) -> usize
    requires { at + 36 ≤ length out.old }
    ensures { Wrote (text_of id ++ 32 ∷ []) at out.old result out.new × (result ≤ at + 36) }
{
    let last = at + guid_text::text_size(id);
    // The contract asks for the room, so this writes.
    let _ = guid_text::print(id, &mut out[at..]);
    out[last] = b' ';
    last + 1
}
