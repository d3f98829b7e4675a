// The checks of a value, each with what it tells a person.
ghost use Rattle.std.specs.Prelude.{◌≡◌, ◌≤◌, ◌+◌, length};
ghost use Rattle.words.specs.Note.{number};
ghost use Rattle.finding.specs.Saying.{refusing};
ghost use Rattle.finding.specs.Meaning.{name_of, wanted_of, meaning};
ghost use Rattle.wire.specs.Layout.{type_at};
ghost use Rattle.wire_value.specs.ValueOf.{header_at};
ghost use Rattle.wire_value.specs.ValueOrder.{payload_name};
ghost use Rattle.why_rowset.specs.Stages.{number_of, Asks, Checks, WalksValue};

use super::plain::kept;
use super::walk::Walked;
use finding::{Field, Finding, Wanted};
use wire::error::WireError;
use wire::kind::{Kind, kind_of};
use wire::layout::{MAX_VALUE_LENGTH, WORD_SIZE, padded};
use wire_value::value::{Checked, Header, read_header};
use words::outcome::Outcome;

// Where the type and the length word stand in a value.
const TYPE_AT: usize = 2;

const LENGTH_AT: usize = 4;

// A refusal at a field.
pub(crate) fn refused(
    error: WireError,
    field: Field,
    offset: usize,
    found: u64,
    wanted: Wanted,
) -> Finding
    ensures { meaning result ≡ refusing (number_of error) (name_of field) offset found (wanted_of wanted) }
{
    let told = Outcome::from(error);
    Finding::Refused {
        number: told.number,
        field,
        offset: offset as u64,
        found,
        wanted,
    }
}

// 9: of so many bytes wanted from `offset` on there are fewer.
pub(crate) fn short(field: Field, offset: usize, there: usize, wanted: usize) -> Finding
    requires { there ≤ wanted }
    ensures { meaning result ≡ refusing 9 (name_of field) offset there (Rattle.words.specs.Note.number wanted) }
{
    refused(
        WireError::Truncated {
            offset,
            needed: wanted - there,
        },
        field,
        offset,
        there as u64,
        Wanted::Number(wanted as u64),
    )
}

// The payload of so many bytes: it is there, or 9.
fn check_bytes(
    input: &[u8],
    at: usize,
    header: Header,
    field: Field,
    size: usize,
) -> Result<Checked, Finding>
    requires { (at + 8 ≤ length input.now) × (header ≡ header_at input.now at) × Asks input.now at size
        × (name_of field ≡ payload_name (type_at input.now at)) }
    ensures { Checks input.now at result }
{
    let there = input.len() - (at + WORD_SIZE);
    if there < size {
        return Err(short(field, at + WORD_SIZE, there, size));
    }
    Ok(Checked {
        header,
        next: at + WORD_SIZE + size,
    })
}

// The checks after the header: 14, 12, then the payload.
fn check_payload(input: &[u8], at: usize, header: Header) -> Result<Checked, Finding>
    requires { (at + 8 ≤ length input.now) × (header ≡ header_at input.now at) }
    ensures { Checks input.now at result }
{
    match kind_of(header.kind as u64) {
        Kind::Unknown => Err(refused(
            WireError::UnknownValueType(header.kind),
            Field::TypeCode,
            at + TYPE_AT,
            header.kind as u64,
            Wanted::ValueTypes,
        )),
        Kind::Null => check_bytes(input, at, header, Field::Word, 0),
        Kind::Scalar => check_bytes(input, at, header, Field::Word, WORD_SIZE),
        Kind::Blob => {
            let length = header.length;
            if MAX_VALUE_LENGTH < length {
                return Err(refused(
                    WireError::ValueTooLong { length },
                    Field::Length,
                    at + LENGTH_AT,
                    length as u64,
                    Wanted::Number(MAX_VALUE_LENGTH as u64),
                ));
            }
            check_bytes(input, at, header, Field::Blob, padded(length))
        }
    }
}

// The checks of the value at `at`, in their order. That `at` lies within the input is required here, below and in
// `walk`: it is where the walk stands in the whole input, no slice of it.
fn check(input: &[u8], at: usize) -> Result<Checked, Finding>
    requires { at ≤ length input.now }
    ensures { Checks input.now at result }
{
    let there = input.len() - at;
    if there < WORD_SIZE {
        return Err(short(Field::ValueHeader, at, there, WORD_SIZE));
    }
    check_payload(input, at, read_header(input, at))
}

// The value at `at`: what is found, or where it ends and what broke the plain form so far.
pub(crate) fn walk_value(input: &[u8], at: usize, plain: Finding) -> Result<Walked, Finding>
    requires { at ≤ length input.now }
    ensures { WalksValue input.now at plain result }
{
    let Checked { header, next } = check(input, at)?;
    Ok(Walked {
        next,
        plain: kept(input, at, header, plain),
    })
}
