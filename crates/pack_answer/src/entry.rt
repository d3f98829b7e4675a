// What is asked of one entry, the bytes that it names, and sums that stop at 2^64-1.
ghost use Rattle.pack_answer.specs.Statement.{IsBlob, IsStored, CutIs, AddsCapped};

use wire::kind::{Kind, kind_of};

// Whether a value of this type is a blob. A type is its code, here and below: so it stands in the lent table (see
// wire's `kind`).
pub fn is_blob(code: u64) -> bool
    ensures { IsBlob code result }
{
    match kind_of(code) {
        Kind::Null => false,
        Kind::Scalar => false,
        Kind::Unknown => false,
        Kind::Blob => true,
    }
}

// Whether a value is a blob that is not empty.
pub fn is_stored(code: u64, length: u64) -> bool
    ensures { IsStored code length result }
{
    if !is_blob(code) {
        return false;
    }
    0 < length
}

// The n bytes of the area from `start` on, or as many of them as there are.
pub fn cut<'a>(area: &'a [u8], start: u64, n: u64) -> &'a [u8]
    ensures { CutIs area.now start n result.now }
{
    if area.len() as u64 <= start {
        return &area[..0];
    }
    let from = start as usize;
    if ((area.len() - from) as u64) < n {
        return &area[from..];
    }
    let end = from + n as usize;
    &area[from..end]
}

// The sum, at most 2^64-1.
pub fn add_capped(sum: u64, more: u64) -> u64
    ensures { AddsCapped sum more result }
{
    if 0xffff_ffff_ffff_ffff - sum < more {
        return 0xffff_ffff_ffff_ffff;
    }
    sum + more
}
