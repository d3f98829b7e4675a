// The shortest varint of a number, to the front of a lent part.
ghost use Rattle.varint.specs.Statement.{SizesVarint, WritesVarint};

// How many bytes the shortest varint of a number has.
pub fn varint_size(n: u64) -> usize
    ensures { SizesVarint n result }
{
    // The loop ends by what is left, so no range says how often it runs.
    let mut rest = n;
    let mut i = 0;
    while 128 <= rest {
        rest /= 128;
        i += 1;
    }
    i + 1
}

// Writes it and answers how many bytes it has. Where they have not the room, the part is left as it was.
pub fn write_varint(out: &mut [u8], n: u64) -> usize
    ensures { WritesVarint n out.old result out.new }
{
    let size = varint_size(n);
    if out.len() < size {
        return size;
    }
    let mut rest = n;
    for i in 0..size - 1 {
        out[i] = (rest % 128 + 128) as u8;
        rest /= 128;
    }
    out[size - 1] = rest as u8;
    size
}
