// A varint read at an offset, up to an end that its bytes may not pass. Where the input does not reach to that end,
// none is whole.
ghost use Rattle.std.specs.Prelude.{◌≡◌, ◌≤◌, ◌<◌, length};
ghost use Rattle.varint.specs.Statement.{ReadsVarint};

// A varint that is whole: its value, and where what comes behind it begins.
#[derive(Clone, Copy)]
pub struct Varint {
    pub value: u64,
    pub next: usize,
}

// A byte as a number to reckon with.
fn wide(byte: u8) -> u64
    ensures { (result ≡ byte) × (result < 256) }
{
    byte as u64
}

// The varint at `start`, where the input is known to reach to `end`.
fn read_within(input: &[u8], start: usize, end: usize) -> Option<Varint>
    requires { end ≤ length input.now }
    ensures { ReadsVarint input.now start end result }
{
    let mut at = start;
    let mut value: u64 = 0;
    let mut weight: u64 = 1;
    for _ in 0..9usize {
        if end <= at {
            return None;
        }
        let byte = wide(input[at]);
        if byte < 128 {
            return Some(Varint {
                value: value + weight * byte,
                next: at + 1,
            });
        }
        value += weight * (byte - 128);
        weight *= 128;
        at += 1;
    }
    if end <= at {
        return None;
    }
    let last = wide(input[at]);
    if 1 < last {
        return None;
    }
    Some(Varint {
        value: value + weight * last,
        next: at + 1,
    })
}

// The varint at `start`, where it ends by `end`.
pub fn read_varint(input: &[u8], start: usize, end: usize) -> Option<Varint>
    ensures { ReadsVarint input.now start end result }
{
    if input.len() < end {
        return None;
    }
    read_within(input, start, end)
}
