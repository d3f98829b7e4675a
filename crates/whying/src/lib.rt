// What the program `why` prints, whole, as one function of its input (document 02, A9): one line that says why the
// packet or rowset behind the first line is refused, what is waited for, or that nothing is wrong. The program over it
// only reads and writes.
#![tactic(auto)]

ghost use Rattle.std.specs.Prelude.{◌≡◌, ◌≤◌, length};
ghost use Rattle.words.specs.Text.{text};
ghost use Rattle.why_text.specs.Text.{line_room};
ghost use Rattle.why_text.specs.Statement.{Writes, Fits};
ghost use Rattle.whying.specs.Output.{starts};
ghost use Rattle.whying.specs.Statement.{Whys};

use packet::Mode;
use why_text::{LINE_ROOM, write};
use words::outcome::{NoRoom, Room};

// The most bytes behind the first line.
pub const MAX_BYTES: usize = 65_536;

// The first line with its line feed: `packet` or `rowset`.
pub const FIRST_LINE: usize = 7;

// The limits of `list`.
const MAX_MESSAGE_SIZE: u64 = 65_536;

const MAX_PART_COUNT: u32 = 2_048;

// Whether the input begins with these bytes.
fn begins(input: &[u8], word: &[u8]) -> bool
    ensures { result ≡ starts word.now input.now }
{
    if input.len() < word.len() {
        return false;
    }
    for index in 0..word.len() {
        if input[index] != word[index] {
            return false;
        }
    }
    true
}

fn bad_input(out: &mut [u8]) -> Result<usize, NoRoom>
    ensures writes { Writes (text "bad input\n") out.old result out.new }
    ensures fits { Fits out.old result }
{
    if out.len() < LINE_ROOM {
        return Err(NoRoom {
            room: Room::Output,
            needed: LINE_ROOM as u64,
            given: out.len() as u64,
        });
    }
    let line: &[u8] = b"bad input\n";
    word_write::write_bytes(out, line);
    Ok(line.len())
}

// Writes the whole output of `why` for an input over the front of `out`, and answers how many bytes it has.
pub fn why(input: &[u8], out: &mut [u8]) -> Result<usize, NoRoom>
    ensures whys { Whys input.now out.old result out.new }
    ensures fits { Fits out.old result }
{
    if FIRST_LINE + MAX_BYTES < input.len() {
        return bad_input(out);
    }
    if begins(input, b"packet\n") {
        return write(
            why_packet::explain(
                Mode::Archive,
                &input[FIRST_LINE..],
                MAX_MESSAGE_SIZE,
                MAX_PART_COUNT,
            ),
            out,
        );
    }
    if begins(input, b"rowset\n") {
        return write(why_rowset::explain(&input[FIRST_LINE..]), out);
    }
    bad_input(out)
}
