// A value of a rowset, read at any offset of any input, after the Rust's `Reader::read_value`.
ghost use Rattle.std.specs.Prelude.{◌≡◌, ◌+◌, ◌≤◌, length};
ghost use Rattle.std.specs.Float.{binary64};
ghost use Rattle.std.specs.Float.Ieee.{of_bits};
ghost use Rattle.words.specs.Paper.{Tells};
ghost use Rattle.wire.specs.Layout.{type_at};
ghost use Rattle.wire_value.specs.ValueOf.{value_of, bits_at, header_at};
ghost use Rattle.wire_value.specs.Paper.{paper_value};
ghost use Rattle.wire_value.specs.Statement.{ReadsHeader, ChecksValue, Lies, ReadsValue};
ghost use Rattle.wire_value.specs.Stages.{Expects, Looks, type_of, offset_or, length_of};

use wire::error::WireError;
use wire::kind::{
    ANY, BOOLEAN, COMPOSITE, DOUBLE, INT64, Kind, NULL, STRING, UINT64, bits_of, kind_of,
};
use wire::layout::{MAX_VALUE_LENGTH, WORD_SIZE, padded};
use wire::need::need_at;
use word_read::read_u64;
use words::outcome::{ACCEPTED, Outcome};

// Blobs as offset and length.
#[derive(Clone, Copy)]
pub enum Value {
    Null,
    Int64(i64),
    Uint64(u64),
    Double(f64),
    Boolean(bool),
    String { offset: usize, length: usize },
    Any { offset: usize, length: usize },
    Composite { offset: usize, length: usize },
}

#[derive(Clone, Copy)]
pub struct UnversionedValue {
    // An index into the rowset descriptor's name table.
    pub id: u16,
    pub aggregate: bool,
    pub value: Value,
    // A scalar's bits, 0 for the other types: an f64 cannot carry those of a NaN.
    pub bits: u64,
    // Where the next value begins.
    pub next: usize,
}

// `kind` is the type's byte as it was read, here and in the functions below, for any byte may stand there (see
// wire's `kind`).
#[derive(Clone, Copy)]
pub struct Header {
    pub id: u16,
    pub kind: u8,
    pub aggregate: u8,
    pub length: u32,
}

// A value whose checks pass.
#[derive(Clone, Copy)]
pub struct Checked {
    pub header: Header,
    // Where the next value begins.
    pub next: usize,
}

// The four fields of a header, from one word.
pub fn read_header(input: &[u8], at: usize) -> Header
    ensures { ReadsHeader input.now at result }
{
    let word = read_u64(input, at);
    Header {
        id: (word % 0x1_0000) as u16,
        kind: (word / 0x1_0000 % 256) as u8,
        aggregate: (word / 0x100_0000 % 256) as u8,
        length: (word / 0x1_0000_0000) as u32,
    }
}

// 14, then 12; else how many bytes the payload has. The sizes meet in one answer, so that the bytes are looked for at
// one place: looked for in each case by itself they make `check_value` too large to be compiled into a rowset's walk.
fn payload_size(kind: u8, length: u32) -> Result<usize, WireError>
    ensures { Expects kind length result }
{
    match kind_of(kind as u64) {
        Kind::Unknown => Err(WireError::UnknownValueType(kind)),
        Kind::Null => Ok(0),
        Kind::Scalar => Ok(WORD_SIZE),
        Kind::Blob => {
            if MAX_VALUE_LENGTH < length {
                return Err(WireError::ValueTooLong { length });
            }
            Ok(padded(length))
        }
    }
}

// The payload of so many bytes: it is there, or 9. Each stage behind the header requires that the header is there: its
// clauses tell of the place `at` in the whole input, as refusals do.
fn check_bytes(input: &[u8], at: usize, header: Header, size: usize) -> Result<Checked, WireError>
    requires { (at + 8 ≤ length input.now) × (header ≡ header_at input.now at) × Looks input.now at size }
    ensures checks_value { ChecksValue input.now at result }
    ensures lies { Lies input.now result }
{
    need_at(input, at + WORD_SIZE, size)?;
    Ok(Checked {
        header,
        next: at + WORD_SIZE + size,
    })
}

// The checks after the header.
fn check_payload(input: &[u8], at: usize, header: Header) -> Result<Checked, WireError>
    requires { (at + 8 ≤ length input.now) × (header ≡ header_at input.now at) }
    ensures checks_value { ChecksValue input.now at result }
    ensures lies { Lies input.now result }
{
    let size = payload_size(header.kind, header.length)?;
    check_bytes(input, at, header, size)
}

// The checks of the value at `at`, in their order: its header and where the next value begins, or the first refusal.
// It is compiled into the walk over a rowset: called, it costs each value a call, and its header goes through memory
// (docs/SPEED.md).
#[inline(always)]
pub fn check_value(input: &[u8], at: usize) -> Result<Checked, WireError>
    ensures checks_value { ChecksValue input.now at result }
    ensures lies { Lies input.now result }
{
    need_at(input, at, WORD_SIZE)?;
    check_payload(input, at, read_header(input, at))
}

// `from_bits` has no meaning at a NaN's pattern, so a NaN is made.
fn double(bits: u64) -> f64
    ensures { result ≡ of_bits binary64 bits }
{
    if 0x7ff0_0000_0000_0000 < bits % 0x8000_0000_0000_0000 {
        return 0.0 / 0.0;
    }
    f64::from_bits(bits)
}

#[tactic(auto, using(crate::proofs::ScalarLaws::signed_is), unfolding(crate::specs::ValueOf::value_of))]
fn value_of(kind: u64, bits: u64, offset: usize, length: usize) -> Value
    ensures { result ≡ value_of kind bits offset length }
{
    match kind {
        INT64 => Value::Int64(bits.cast_signed()),
        UINT64 => Value::Uint64(bits),
        DOUBLE => Value::Double(double(bits)),
        BOOLEAN => Value::Boolean(bits != 0),
        STRING => Value::String { offset, length },
        ANY => Value::Any { offset, length },
        COMPOSITE => Value::Composite { offset, length },
        _ => Value::Null,
    }
}

// The bits beside a value: a scalar's, 0 for the other types.
fn bits_at(input: &[u8], at: usize, kind: u8) -> u64
    requires { (at + 8 ≤ length input.now) × (kind ≡ type_at input.now at) }
    ensures { result ≡ bits_at input.now at }
{
    match kind_of(kind as u64) {
        Kind::Null | Kind::Unknown | Kind::Blob => 0,
        Kind::Scalar => bits_of(kind as u64, read_u64(input, at + WORD_SIZE)),
    }
}

// The value at `at`, or the first refusal.
pub fn read_value(input: &[u8], at: usize) -> Result<UnversionedValue, WireError>
    ensures { ReadsValue input.now at result }
{
    let Checked { header, next } = check_value(input, at)?;
    let kind = header.kind;
    let bits = bits_at(input, at, kind);
    Ok(UnversionedValue {
        id: header.id,
        aggregate: header.aggregate != 0,
        value: value_of(kind as u64, bits, at + WORD_SIZE, header.length as usize),
        bits,
        next,
    })
}

// The type's code.
fn value_type(value: Value) -> u64
    ensures { result ≡ type_of value }
{
    match value {
        Value::Null => NULL,
        Value::Int64(_) => INT64,
        Value::Uint64(_) => UINT64,
        Value::Double(_) => DOUBLE,
        Value::Boolean(_) => BOOLEAN,
        Value::String { .. } => STRING,
        Value::Any { .. } => ANY,
        Value::Composite { .. } => COMPOSITE,
    }
}

fn value_word(value: Value, bits: u64) -> u64
    ensures { result ≡ offset_or value bits }
{
    match value {
        Value::String { offset, .. }
        | Value::Any { offset, .. }
        | Value::Composite { offset, .. } => offset as u64,
        _ => bits,
    }
}

fn value_length(value: Value) -> u64
    ensures { result ≡ length_of value }
{
    match value {
        Value::String { length, .. }
        | Value::Any { length, .. }
        | Value::Composite { length, .. } => length as u64,
        _ => 0,
    }
}

// The value's five words and the next offset, or the refusal, as document 01's number and values.
// (No `From`: both `Outcome` and `Result` are of other crates.)
pub fn outcome(answer: Result<UnversionedValue, WireError>) -> Outcome
    ensures { Tells (paper_value answer) result }
{
    match answer {
        Err(error) => Outcome::from(error),
        Ok(read) => {
            let value = read.value;
            Outcome {
                kind: ACCEPTED,
                number: 0,
                count: read.next as u64,
                v0: read.id as u64,
                v1: value_type(value),
                v2: u64::from(read.aggregate),
                v3: value_word(value, read.bits),
                v4: value_length(value),
                v5: 0,
                v6: 0,
            }
        }
    }
}
