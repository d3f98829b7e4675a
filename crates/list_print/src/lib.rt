// What a reader holds, listed to a writer: the reading and writing of the programs that list. A write that fails is
// passed over: whoever read the listing is gone. Its twin `why_print` stays: a function that both gave theirs to would
// ask that it may be called, and a public function asks nothing of its caller.
#![tactic(auto)]

use std::io::{Read, Write};

fn print<W: Write>(input: &[u8], writer: &mut W) {
    let mut text = [0u8; listing::TEXT_ROOM];
    if let Ok(made) = listing::list(input, &mut text) {
        let _ = writer.write_all(&text[..made]);
    }
}

// Writes the whole listing of what a reader holds, and answers true; or false where it cannot be read.
pub fn print_from<R: Read, W: Write>(reader: &mut R, writer: &mut W) -> bool {
    // One byte more than is listed, so that a longer input shows.
    let mut buffer = [0u8; 65_537];
    let Ok(count) = input::read_whole(reader, &mut buffer) else {
        return false;
    };
    print(&buffer[..count], writer);
    true
}
