// Error messages from the cluster (TErrors): read into lent tables of errors and attributes, measured, written.
ghost use Rattle.face_errors.specs.Statement.{DecodesError, MeasuresError, EncodesError};

use words::outcome::Outcome;

// Reads a TError into the two lent tables.
#[unsafe(no_mangle)]
pub extern "C" fn cablefinch_error_read(
    input: &[u8],
    errors: &mut [u64],
    attributes: &mut [u64],
) -> Outcome
    ensures { DecodesError input.now errors.old attributes.old result errors.new
        attributes.new }
{
    face_errors::cablefinch_error_read(input, errors, attributes)
}

// How many bytes the TError of these tables has.
#[unsafe(no_mangle)]
pub extern "C" fn cablefinch_error_size(area: &[u8], errors: &[u64], attributes: &[u64]) -> Outcome
    ensures { MeasuresError area.now errors.now attributes.now result }
{
    face_errors::cablefinch_error_size(area, errors, attributes)
}

// Writes the TError of these tables to the front of `out`.
#[unsafe(no_mangle)]
pub extern "C" fn cablefinch_error_write(
    area: &[u8],
    errors: &[u64],
    attributes: &[u64],
    out: &mut [u8],
) -> Outcome
    ensures { EncodesError area.now errors.now attributes.now out.old result
        out.new }
{
    face_errors::cablefinch_error_write(area, errors, attributes, out)
}
