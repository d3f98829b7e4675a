// A TError read into lent tables: four words an error (code, depth, text offset, text length), in pre-order; five an
// attribute (error, key offset, key length, value offset, value length), in wire order.
ghost use Rattle.error_read.specs.Statement.{Decodes};

use super::fill::fill_error;
use error_tree::refusal::ErrorRefusal;
use error_tree::table::{ATTRIBUTE_ENTRY, ERROR_ENTRY};
use error_walk::walk::{Counted, count_error};
use words::outcome::{NoRoom, Room};

// Reads the TError that the whole input is, and says how many errors and attributes it has; a refusal leaves both
// tables as they were.
pub fn decode_error(
    input: &[u8],
    errors: &mut [u64],
    attributes: &mut [u64],
) -> Result<Counted, ErrorRefusal>
    ensures { Decodes input.now errors.old attributes.old result errors.new
        attributes.new }
{
    let counted = count_error(input)?;
    if errors.len() / ERROR_ENTRY < counted.errors {
        return Err(ErrorRefusal::NoRoom(NoRoom {
            room: Room::Errors,
            needed: counted.errors as u64,
            given: (errors.len() / ERROR_ENTRY) as u64,
        }));
    }
    if attributes.len() / ATTRIBUTE_ENTRY < counted.attributes {
        return Err(ErrorRefusal::NoRoom(NoRoom {
            room: Room::Attributes,
            needed: counted.attributes as u64,
            given: (attributes.len() / ATTRIBUTE_ENTRY) as u64,
        }));
    }
    fill_error(input, errors, attributes);
    Ok(counted)
}
