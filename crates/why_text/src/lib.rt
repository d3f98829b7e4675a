// A finding as the line of text that the program `why` prints (document 02, A9).
#![tactic(auto)]

ghost use Rattle.why_text.specs.Statement.{WritesLine, Fits};

use finding::Finding;
use text::put_finding;
use words::outcome::{NoRoom, Room};

mod text;

// The room that takes every line.
pub const LINE_ROOM: usize = 128;

// Writes the line of a finding over the front of `out`, and answers how many bytes it has, or 17.
pub fn write(finding: Finding, out: &mut [u8]) -> Result<usize, NoRoom>
    ensures writes_line { WritesLine finding out.old result out.new }
    ensures fits { Fits out.old result }
{
    if out.len() < LINE_ROOM {
        return Err(NoRoom {
            room: Room::Output,
            needed: LINE_ROOM as u64,
            given: out.len() as u64,
        });
    }
    Ok(put_finding(out, finding))
}
