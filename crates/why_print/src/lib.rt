// What a reader holds, explained to a writer: the reading and writing of the programs that explain. A write that fails
// is passed over: whoever read the line is gone. Why its twin `list_print` stays is told there.
#![tactic(auto)]

use std::io::{Read, Write};

fn print<W: Write>(input: &[u8], writer: &mut W) {
    let mut text = [0u8; why_text::LINE_ROOM];
    if let Ok(made) = whying::why(input, &mut text) {
        let _ = writer.write_all(&text[..made]);
    }
}

// Writes the line for what a reader holds, and answers true; or false where it cannot be read.
pub fn print_from<R: Read, W: Write>(reader: &mut R, writer: &mut W) -> bool {
    // The first line, the bytes behind it, and one byte more, so that a longer input shows.
    let mut buffer = [0u8; 65_544];
    let Ok(count) = input::read_whole(reader, &mut buffer) else {
        return false;
    };
    print(&buffer[..count], writer);
    true
}
