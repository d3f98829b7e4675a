// Answers the cases on standard input, one a line, with the port: compare/PROTOCOL.md says what a case and an answer
// look like. Its file `stdout` holds the Rust's answers. The work is in `run`, `packets` and `rowsets`, over the
// exported functions; the words of a case in `read` and those of an answer in `say`.
#![tactic(auto)]

ghost use Rattle.std.specs.Prelude.{◌≤◌, length};

use std::io::{Read, Write};

mod packets;
mod read;
mod rowsets;
mod run;
mod say;

// Reads until the buffer is full, the input ends or a read fails: what was read by then is answered. How many bytes
// it put at the buffer's front.
fn read_full<R: Read>(reader: &mut R, buffer: &mut [u8]) -> usize
    ensures { result ≤ length buffer.new }
{
    let mut done = 0;
    while done < buffer.len() {
        match reader.read(&mut buffer[done..]) {
            Ok(0) => return done,
            Ok(more) => done += more,
            Err(_) => return done,
        }
    }
    done
}

fn lines<W: Write>(to: &mut W, input: &[u8]) {
    for line in input.split_inclusive(|byte| *byte == b'\n') {
        run::case(to, line.strip_suffix(b"\n").unwrap_or(line));
    }
}

fn main(rt: HostRuntime) {
    let mut input = [0u8; 262_144];
    let count = read_full(&mut rt.stdin(), &mut input);
    lines(&mut rt.stdout(), &input[..count]);
}
