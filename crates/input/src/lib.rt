// A reader read whole into a lent buffer, for the programs; a read that fails is told, and not taken for the input's
// end.
#![tactic(auto)]

ghost use Rattle.input.specs.Statement.{Inside, ReadsWhole};

use std::io::{self, Read};

// Reads until the input ends or the buffer is full, and says how many bytes it put at the buffer's front.
pub fn read_whole<R: Read>(reader: &mut R, buffer: &mut [u8]) -> io::Result<usize>
    ensures inside { Inside buffer.new result }
    ensures whole { ReadsWhole (R.remaining reader.old) buffer.new result }
{
    let mut done = 0;
    while done < buffer.len() {
        match reader.read(&mut buffer[done..])? {
            0 => return Ok(done),
            more => done += more,
        }
    }
    Ok(done)
}

#[cfg(test)]
mod tests {
    use super::*;

    // Gives one byte, and then fails.
    #[derive(Drop)]
    struct Breaking {
        given: bool,
    }

    impl Read for Breaking {
        fn read(&mut self, buf: &mut [u8]) -> io::Result<usize> {
            if self.given || buf.is_empty() {
                return Err(io::Error::from(io::ErrorKind::Other));
            }
            self.given = true;
            buf[0] = b'x';
            Ok(1)
        }
    }

    // The bytes told, or `None` where a read failed.
    fn told<'a>(answer: io::Result<usize>, buffer: &'a [u8]) -> Option<&'a [u8]> {
        match answer {
            Ok(count) => buffer.get(..count),
            Err(_) => None,
        }
    }

    #[test]
    fn reads_to_the_end(rt: HostRuntime) {
        let mut reader = b"abc".as_slice();
        let mut buffer = [0u8; 5];
        let answer = read_whole(&mut reader, &mut buffer);
        assert!(rt; told(answer, &buffer) == Some(b"abc".as_slice()));
    }

    #[test]
    fn stops_where_the_buffer_is_full(rt: HostRuntime) {
        let mut reader = b"abc".as_slice();
        let mut buffer = [0u8; 2];
        let answer = read_whole(&mut reader, &mut buffer);
        assert!(rt; told(answer, &buffer) == Some(b"ab".as_slice()));
        assert!(rt; reader == b"c".as_slice());
    }

    #[test]
    fn a_read_that_fails_is_told(rt: HostRuntime) {
        let mut buffer = [0u8; 5];
        let answer = read_whole(&mut Breaking { given: false }, &mut buffer);
        assert!(rt; told(answer, &buffer).is_none());
    }
}
