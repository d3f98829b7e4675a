// One field: its tag, and its payload by wire type. `at` and `end` stay beside the input, here and below: a field tells
// places in the whole input. Its number is the sender's, and any number is read.
ghost use Rattle.std.specs.Prelude.{◌≤◌};
ghost use Rattle.field.specs.Field.{type_code};
ghost use Rattle.field.specs.Stages.{TypesTag, ReadsPayload, ReadsFixed};
ghost use Rattle.field.specs.Statement.{ReadsField};

use varint::read::{Varint, read_varint};

// How a payload lies on the wire.
#[derive(Clone, Copy, PartialEq, Eq)]
pub enum WireType {
    Varint,
    Fixed64,
    Bytes,
    Fixed32,
}

// A payload that is whole.
#[derive(Clone, Copy)]
struct Payload {
    // The varint that it begins with, or 0 where it begins with none.
    value: u64,
    // Where what comes behind that varint begins.
    content: usize,
    // Where the payload ends.
    stop: usize,
}

// A field that is whole.
#[derive(Clone, Copy)]
pub struct Field {
    pub number: u64,
    pub wire: WireType,
    // The payload's varint, where what comes behind that begins, and where the field ends.
    pub value: u64,
    pub content: usize,
    pub stop: usize,
}

// The wire type of a tag: those of groups and the two that stand for nothing are none.
fn wire_type(tag: u64) -> Option<WireType>
    ensures { TypesTag tag result }
{
    match tag % 8 {
        0 => Some(WireType::Varint),
        1 => Some(WireType::Fixed64),
        2 => Some(WireType::Bytes),
        5 => Some(WireType::Fixed32),
        _ => None,
    }
}

// A payload of wire type 0: a varint.
fn read_number(input: &[u8], at: usize, end: usize) -> Option<Payload>
    ensures { ReadsPayload 0 input.now at end result }
{
    let Varint { value, next } = read_varint(input, at, end)?;
    Some(Payload {
        value,
        content: next,
        stop: next,
    })
}

// A payload of wire type 2: a varint n, and n bytes.
fn read_bytes(input: &[u8], at: usize, end: usize) -> Option<Payload>
    ensures { ReadsPayload 2 input.now at end result }
{
    let Varint { value, next } = read_varint(input, at, end)?;
    let left = (end - next) as u64;
    if left < value {
        return None;
    }
    Some(Payload {
        value,
        content: next,
        stop: next + (value as usize),
    })
}

// A payload of so many bytes.
fn read_fixed(at: usize, end: usize, size: usize) -> Option<Payload>
    requires { at ≤ end }
    ensures { ReadsFixed size at end result }
{
    if end - at < size {
        return None;
    }
    Some(Payload {
        value: 0,
        content: at,
        stop: at + size,
    })
}

// The payload of a wire type at `at`, where it ends by `end`.
fn read_payload(input: &[u8], at: usize, end: usize, wire: WireType) -> Option<Payload>
    requires { at ≤ end }
    ensures { ReadsPayload (type_code wire) input.now at end result }
{
    match wire {
        WireType::Varint => read_number(input, at, end),
        WireType::Fixed64 => read_fixed(at, end, 8),
        WireType::Bytes => read_bytes(input, at, end),
        WireType::Fixed32 => read_fixed(at, end, 4),
    }
}

// The field at `at`, whatever its number, where it ends by `end`.
pub fn read_field(input: &[u8], at: usize, end: usize) -> Option<Field>
    ensures { ReadsField input.now at end result }
{
    let Varint { value: tag, next } = read_varint(input, at, end)?;
    if 0xffff_ffff < tag {
        return None;
    }
    if tag < 8 {
        return None;
    }
    let wire = wire_type(tag)?;
    let Payload {
        value,
        content,
        stop,
    } = read_payload(input, next, end, wire)?;
    Some(Field {
        number: tag / 8,
        wire,
        value,
        content,
        stop,
    })
}
