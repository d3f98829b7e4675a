// Error messages from the cluster (TErrors): read into lent tables of errors and attributes, measured, written.
#![tactic(auto)]

ghost use Rattle.face_errors.specs.Statement.{DecodesError, MeasuresError, EncodesError};

use error_read::decode::decode_error;
use error_write::size::error_size;
use error_write::write::encode_error;
use words::outcome::{Outcome, taken};

// Reads a TError into the two lent tables.
#[unsafe(no_mangle)]
pub extern "C" fn cablefinch_error_read(
    input: &[u8],
    errors: &mut [u64],
    attributes: &mut [u64],
) -> Outcome
    ensures { DecodesError input.now errors.old attributes.old result errors.new
        attributes.new }
{
    match decode_error(input, errors, attributes) {
        Ok(counted) => taken(0, counted.errors as u64, counted.attributes as u64, 0),
        Err(refusal) => Outcome::from(refusal),
    }
}

// How many bytes the TError of these tables has.
#[unsafe(no_mangle)]
pub extern "C" fn cablefinch_error_size(area: &[u8], errors: &[u64], attributes: &[u64]) -> Outcome
    ensures { MeasuresError area.now errors.now attributes.now result }
{
    match error_size(area, errors, attributes) {
        Ok(count) => taken(count, 0, 0, 0),
        Err(refusal) => Outcome::from(refusal),
    }
}

// Writes the TError of these tables to the front of `out`.
#[unsafe(no_mangle)]
pub extern "C" fn cablefinch_error_write(
    area: &[u8],
    errors: &[u64],
    attributes: &[u64],
    out: &mut [u8],
) -> Outcome
    ensures { EncodesError area.now errors.now attributes.now out.old result
        out.new }
{
    match encode_error(area, errors, attributes, out) {
        Ok(count) => taken(count as u64, 0, 0, 0),
        Err(refusal) => Outcome::from(refusal),
    }
}
