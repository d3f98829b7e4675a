// The checksum, of one stretch of bytes or of several, by either engine, and of stretches whose checksums are known.
ghost use Rattle.crc64.specs.Statement.{ChecksumIs, FoldIs, SwapIs};
ghost use Rattle.crc64_combine.specs.Statement.{CombineIs};
ghost use Rattle.crc64_eight.specs.Statement.{Fold8Is};
ghost use Rattle.checksum.specs.Statement.{UpdatedIs};

// The checksum of one stretch of bytes.
#[unsafe(no_mangle)]
pub extern "C" fn cablefinch_checksum(bytes: &[u8]) -> u64
    ensures { ChecksumIs bytes.now result }
{
    face_checksums::cablefinch_checksum(bytes)
}

// The register, held byte-swapped, after some more bytes. It begins at 0.
#[unsafe(no_mangle)]
pub extern "C" fn cablefinch_update(register: u64, bytes: &[u8]) -> u64
    ensures { UpdatedIs register bytes.now result }
{
    face_checksums::cablefinch_update(register, bytes)
}

// The checksum that a register stands for.
#[unsafe(no_mangle)]
pub extern "C" fn cablefinch_finish(register: u64) -> u64
    ensures { SwapIs register result }
{
    face_checksums::cablefinch_finish(register)
}

// The plain engine: the polynomial's own register after the bytes, one at a step.
#[unsafe(no_mangle)]
pub extern "C" fn cablefinch_fold(register: u64, bytes: &[u8]) -> u64
    ensures { FoldIs register bytes.now result }
{
    face_checksums::cablefinch_fold(register, bytes)
}

// The second engine: the same register, by eight bytes at a step.
#[unsafe(no_mangle)]
pub extern "C" fn cablefinch_fold8(register: u64, bytes: &[u8]) -> u64
    ensures { Fold8Is register bytes.now result }
{
    face_checksums::cablefinch_fold8(register, bytes)
}

// The checksum of two stretches joined, from theirs and the second one's length.
#[unsafe(no_mangle)]
pub extern "C" fn cablefinch_combine(first: u64, second: u64, length: u64) -> u64
    ensures { CombineIs first second length result }
{
    face_checksums::cablefinch_combine(first, second, length)
}
