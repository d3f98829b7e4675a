// A finding as a line of text, in pieces written to a buffer at a place, each answering where it ends. Each asks for the
// room of its own text, a whole line for that of a line.
ghost use Rattle.std.specs.Prelude.{[], ◌∷◌, ◌++◌, ◌+◌, ◌≤◌, length};
ghost use Rattle.words.specs.Text.{text};
ghost use Rattle.numerals.specs.Statement.{decimal};
ghost use Rattle.finding.specs.Saying.{waiting, refusing, breaking};
ghost use Rattle.finding.specs.Meaning.{name_of, wanted_of, meaning};
ghost use Rattle.listing.specs.Text.{line};
ghost use Rattle.listing.specs.Stages.{Wrote};
ghost use Rattle.why_text.specs.Text.{line_room, wanted_text, line_of};
ghost use Rattle.why_text.specs.Stages.{place_text};

use finding::{Field, Finding, Wanted};
use finding_name::write_name;
use numerals::write_decimal;

// This and `put_field` are as in `listing`, where they are private: only what a caller needs is public and promised.
fn put_bytes(out: &mut [u8], at: usize, bytes: &[u8]) -> usize
    requires { at + length bytes.now ≤ length out.old }
    ensures { Wrote bytes.now at out.old result out.new }
{
    word_write::write_bytes(&mut out[at..], bytes);
    at + bytes.len()
}

// A number, and the byte behind it.
fn put_field(out: &mut [u8], at: usize, number: u64, after: u8) -> usize
    requires { at + 21 ≤ length out.old }
    ensures { Wrote (decimal number ++ after ∷ []) at out.old result out.new × (result ≤ at + 21) }
{
    let last = at + write_decimal(&mut out[at..], number);
    out[last] = after;
    last + 1
}

// A field's name, and a space behind it.
fn put_name(out: &mut [u8], at: usize, field: Field) -> usize
    requires { at + 18 ≤ length out.old }
    ensures { Wrote (text (name_of field) ++ 32 ∷ []) at out.old result out.new
        × (result ≤ at + 18) }
{
    let last = at + write_name(&mut out[at..], field);
    out[last] = b' ';
    last + 1
}

// What was wanted, and the line's end.
fn put_wanted(out: &mut [u8], at: usize, wanted: Wanted) -> usize
    requires { at + 21 ≤ length out.old }
    ensures { Wrote (line (wanted_text (wanted_of wanted) ∷ [])) at out.old result out.new }
{
    match wanted {
        Wanted::Number(number) => put_field(out, at, number, b'\n'),
        Wanted::LiveTypes => put_bytes(out, at, b"0-1\n"),
        Wanted::ValueTypes => put_bytes(out, at, b"2-6,16-18\n"),
    }
}

// The field, its offset, what was found and what was wanted. They are no struct here and below: they are the fields of
// a `Finding`, and `refusing` and `breaking`, by which the clauses tell it, take them one by one.
fn put_place(
    out: &mut [u8],
    at: usize,
    field: Field,
    offset: u64,
    found: u64,
    wanted: Wanted,
) -> usize
    requires { at + 81 ≤ length out.old }
    ensures { Wrote (place_text (name_of field) offset found (wanted_of wanted)) at out.old result out.new }
{
    let offset_at = put_name(out, at, field);
    let found_at = put_field(out, offset_at, offset, b' ');
    let wanted_at = put_field(out, found_at, found, b' ');
    put_wanted(out, wanted_at, wanted)
}

fn put_more(out: &mut [u8], field: Field, size: u64) -> usize
    requires { line_room ≤ length out.old }
    ensures { Wrote (line_of (waiting (name_of field) size)) 0 out.old result out.new }
{
    let name_at = put_bytes(out, 0, b"more ");
    let size_at = put_name(out, name_at, field);
    put_field(out, size_at, size, b'\n')
}

// `number` is the refusal's in document 01, which is what is printed.
fn put_refused(
    out: &mut [u8],
    number: u64,
    field: Field,
    offset: u64,
    found: u64,
    wanted: Wanted,
) -> usize
    requires { line_room ≤ length out.old }
    ensures { Wrote (line_of (refusing number (name_of field) offset found (wanted_of wanted))) 0 out.old result
        out.new }
{
    let number_at = put_bytes(out, 0, b"refused ");
    let place_at = put_field(out, number_at, number, b' ');
    put_place(out, place_at, field, offset, found, wanted)
}

fn put_not_plain(out: &mut [u8], field: Field, offset: u64, found: u64, wanted: Wanted) -> usize
    requires { line_room ≤ length out.old }
    ensures { Wrote (line_of (breaking (name_of field) offset found (wanted_of wanted))) 0 out.old result
        out.new }
{
    let place_at = put_bytes(out, 0, b"not-plain ");
    put_place(out, place_at, field, offset, found, wanted)
}

// The line of a finding, over the front of `out`.
pub(crate) fn put_finding(out: &mut [u8], finding: Finding) -> usize
    requires { line_room ≤ length out.old }
    ensures { Wrote (line_of (meaning finding)) 0 out.old result out.new }
{
    match finding {
        Finding::Fine => put_bytes(out, 0, b"ok\n"),
        Finding::More {
            field,
            length: size,
        } => put_more(out, field, size),
        Finding::Refused {
            number,
            field,
            offset,
            found,
            wanted,
        } => put_refused(out, number, field, offset, found, wanted),
        Finding::NotPlain {
            field,
            offset,
            found,
            wanted,
        } => put_not_plain(out, field, offset, found, wanted),
    }
}
