// 18, in its order: both tables' widths, no error, then the first bad entry, errors before attributes.
ghost use Rattle.std.specs.Prelude.{◌≡◌, ◌+◌, ◌*◌, ◌≤◌, length};
ghost use Rattle.error_tree.specs.Reading.{error_entry, attribute_entry};
ghost use Rattle.error_table.specs.Table.{errors_in, attributes_in, outside, bad_depth, bad_error, first_bad_error};
ghost use Rattle.error_table.specs.Table.{bad_attribute, first_bad_attribute};
ghost use Rattle.error_table.specs.Stages.{FindsFirst};
ghost use Rattle.error_table.specs.Statement.{ChecksTables};

use error_tree::refusal::ErrorRefusal;
use error_tree::table::{ATTRIBUTE_ENTRY, ERROR_ENTRY};

// Whether a stretch reaches past an area of so many bytes.
fn reaches_outside(size: u64, offset: u64, length: u64) -> bool
    ensures { result ≡ outside size offset length }
{
    if size < length {
        return true;
    }
    size - length < offset
}

// Whether no pre-order gives the depth of the error number `i`.
fn bad_depth(errors: &[u64], i: usize) -> bool
    requires { error_entry * (i + 1) ≤ length errors.now }
    ensures { result ≡ bad_depth errors.now i }
{
    let depth = errors[ERROR_ENTRY * i + 1];
    if i == 0 {
        return depth != 1;
    }
    if depth < 2 {
        return true;
    }
    if 16 < depth {
        return true;
    }
    errors[ERROR_ENTRY * (i - 1) + 1] < depth - 1
}

// Rule 3 of an error's entry.
fn bad_error(size: u64, errors: &[u64], i: usize) -> bool
    requires { error_entry * (i + 1) ≤ length errors.now }
    ensures { result ≡ bad_error size errors.now i }
{
    if 0xffff_ffff < errors[ERROR_ENTRY * i] {
        return true;
    }
    if bad_depth(errors, i) {
        return true;
    }
    reaches_outside(
        size,
        errors[ERROR_ENTRY * i + 2],
        errors[ERROR_ENTRY * i + 3],
    )
}

// The first bad error, if any.
fn first_bad_error(size: u64, errors: &[u64]) -> Option<usize>
    ensures { FindsFirst (errors_in errors.now) (first_bad_error size errors.now) result }
{
    for i in 0..errors.len() / ERROR_ENTRY {
        if bad_error(size, errors, i) {
            return Some(i);
        }
    }
    None
}

// Rule 3 of an attribute's entry, there being so many errors.
fn bad_attribute(size: u64, errors: u64, attributes: &[u64], k: usize) -> bool
    requires { attribute_entry * (k + 1) ≤ length attributes.now }
    ensures { result ≡ bad_attribute size errors attributes.now k }
{
    if errors <= attributes[ATTRIBUTE_ENTRY * k] {
        return true;
    }
    if reaches_outside(
        size,
        attributes[ATTRIBUTE_ENTRY * k + 1],
        attributes[ATTRIBUTE_ENTRY * k + 2],
    ) {
        return true;
    }
    reaches_outside(
        size,
        attributes[ATTRIBUTE_ENTRY * k + 3],
        attributes[ATTRIBUTE_ENTRY * k + 4],
    )
}

// The first bad attribute, if any.
fn first_bad_attribute(size: u64, errors: u64, attributes: &[u64]) -> Option<usize>
    ensures { FindsFirst (attributes_in attributes.now)
        (first_bad_attribute size errors attributes.now) result }
{
    for k in 0..attributes.len() / ATTRIBUTE_ENTRY {
        if bad_attribute(size, errors, attributes, k) {
            return Some(k);
        }
    }
    None
}

// Whether the tables can be written from the area, else 18.
pub fn check_tables(area: &[u8], errors: &[u64], attributes: &[u64]) -> Result<(), ErrorRefusal>
    ensures { ChecksTables area.now errors.now attributes.now result }
{
    let count = errors.len() / ERROR_ENTRY;
    if errors.len() % ERROR_ENTRY != 0 {
        return Err(ErrorRefusal::BadTable {
            rule: 1,
            position: count,
        });
    }
    if attributes.len() % ATTRIBUTE_ENTRY != 0 {
        return Err(ErrorRefusal::BadTable {
            rule: 1,
            position: attributes.len() / ATTRIBUTE_ENTRY,
        });
    }
    if count == 0 {
        return Err(ErrorRefusal::BadTable {
            rule: 2,
            position: 0,
        });
    }
    if let Some(position) = first_bad_error(area.len() as u64, errors) {
        return Err(ErrorRefusal::BadTable { rule: 3, position });
    }
    if let Some(position) = first_bad_attribute(area.len() as u64, count as u64, attributes) {
        return Err(ErrorRefusal::BadTable { rule: 3, position });
    }
    Ok(())
}
