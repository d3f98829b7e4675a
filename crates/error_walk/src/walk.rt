// Front to back, each field finished with all inside it before the next begins: document 02's "as met". `start` and
// `end` stay beside the input, here and below: refusals tell places in the whole input.
ghost use Rattle.std.specs.Prelude.{◌≤◌, length};
ghost use Rattle.error_tree.specs.Statement.{Lies};
ghost use Rattle.error_walk.specs.Stages.{NextField, WalksAttribute, WalksEntry, WalksDictionary, WalksInside};
ghost use Rattle.error_walk.specs.Stages.{WalksError};
ghost use Rattle.error_walk.specs.Statement.{Counts};

use error_tree::message::{ATTRIBUTE_FIELDS, DICTIONARY_FIELDS, ERROR_FIELDS, read_known};
use error_tree::refusal::ErrorRefusal;
use field::field::Field;

// How many levels may lie below the outermost error.
const LEVELS: u64 = 15;

// How many errors and attributes there are.
#[derive(Clone, Copy)]
pub struct Counted {
    pub errors: usize,
    pub attributes: usize,
}

// The field at `at` of a message that ends at `end` and knows so many fields, else 22.
fn next_field(input: &[u8], at: usize, end: usize, known: u64) -> Result<Field, ErrorRefusal>
    ensures { NextField known input.now at end result }
{
    read_known(input, at, end, known).ok_or(ErrorRefusal::BadMessage { place: at })
}

// The fields of an attribute, which hold nothing further.
fn walk_attribute(input: &[u8], start: usize, end: usize) -> Result<Counted, ErrorRefusal>
    requires { (start ≤ end) × (end ≤ length input.now) }
    ensures { WalksAttribute input.now start end result }
{
    let mut at = start;
    while at < end {
        let field = next_field(input, at, end, ATTRIBUTE_FIELDS)?;
        at = field.stop;
    }
    Ok(Counted {
        errors: 0,
        attributes: 0,
    })
}

// What a field of a dictionary holds.
fn walk_entry(input: &[u8], at: usize, field: Field) -> Result<Counted, ErrorRefusal>
    requires { Lies input.now at field }
    ensures { WalksEntry input.now at result }
{
    if field.number != 1 {
        return Ok(Counted {
            errors: 0,
            attributes: 0,
        });
    }
    walk_attribute(input, field.content, field.stop)?;
    Ok(Counted {
        errors: 0,
        attributes: 1,
    })
}

// The fields of a dictionary.
fn walk_dictionary(input: &[u8], start: usize, end: usize) -> Result<Counted, ErrorRefusal>
    requires { (start ≤ end) × (end ≤ length input.now) }
    ensures { WalksDictionary input.now start end result }
{
    let mut at = start;
    let mut attributes = 0;
    while at < end {
        let field = next_field(input, at, end, DICTIONARY_FIELDS)?;
        let entry = walk_entry(input, at, field)?;
        attributes += entry.attributes;
        at = field.stop;
    }
    Ok(Counted {
        errors: 0,
        attributes,
    })
}

// What a field of an error holds, `left` levels being allowed below that error.
#[cycle(walk_error_walk_inside)]
fn walk_inside(input: &[u8], at: usize, field: Field, left: u64) -> Result<Counted, ErrorRefusal>
    requires { Lies input.now at field }
    ensures { WalksInside left input.now at result }
{
    match field.number {
        3 => walk_dictionary(input, field.content, field.stop),
        4 => {
            if left == 0 {
                return Err(ErrorRefusal::ErrorsTooDeep { place: at });
            }
            let held = walk_error(input, field.content, field.stop, left - 1)?;
            Ok(Counted {
                errors: held.errors + 1,
                attributes: held.attributes,
            })
        }
        _ => Ok(Counted {
            errors: 0,
            attributes: 0,
        }),
    }
}

// What an error holds, `left` levels being allowed below it.
#[cycle(walk_error_walk_inside)]
fn walk_error(input: &[u8], start: usize, end: usize, left: u64) -> Result<Counted, ErrorRefusal>
    requires { (start ≤ end) × (end ≤ length input.now) }
    ensures { WalksError left input.now start end result }
{
    let mut at = start;
    let mut errors = 0;
    let mut attributes = 0;
    while at < end {
        let field = next_field(input, at, end, ERROR_FIELDS)?;
        let inside = walk_inside(input, at, field, left)?;
        errors += inside.errors;
        attributes += inside.attributes;
        at = field.stop;
    }
    Ok(Counted { errors, attributes })
}

// Checks a TError, the whole input, and counts its errors and attributes.
pub fn count_error(input: &[u8]) -> Result<Counted, ErrorRefusal>
    ensures { Counts input.now result }
{
    let inner = walk_error(input, 0, input.len(), LEVELS)?;
    Ok(Counted {
        errors: 1 + inner.errors,
        attributes: inner.attributes,
    })
}
