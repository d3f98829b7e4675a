// Whether the bytes of a read are there, after the Rust's `Reader::need`.
ghost use Rattle.wire.specs.Need.{Needs};

use super::error::WireError;

// Whether `count` bytes are there from `offset` on.
pub fn need_at(input: &[u8], offset: usize, count: usize) -> Result<(), WireError>
    ensures { Needs input.now offset count result }
{
    // Past the end is a case of its own: behind it the compiler knows that the bytes are there, and reads a word by one
    // load (docs/SPEED.md).
    if input.len() < offset {
        if count == 0 {
            return Ok(());
        }
        return Err(WireError::Truncated {
            offset,
            needed: count,
        });
    }
    let left = input.len() - offset;
    if left < count {
        return Err(WireError::Truncated {
            offset,
            needed: count - left,
        });
    }
    Ok(())
}
