// The checksum as callers take it, by the engine that lays nothing out. What a checksum is stands in crc64's
// specs/Polynomial.antt. The register is held byte-swapped, as the engines work, and `finish` swaps it back.
#![tactic(auto)]

ghost use Rattle.checksum.specs.Statement.{UpdatedIs, NewIs, UpdateIs, ChainIs, AppendIs, FinishIs};
ghost use Rattle.crc64.specs.Statement.{ChecksumIs};

use crc64_lanes::LANES_FROM;
use crc64_long::LONG_FROM;

// The register, held byte-swapped, after the bytes.
pub fn updated(register: u64, bytes: &[u8]) -> u64
    ensures { UpdatedIs register bytes.now result }
{
    if bytes.len() < LANES_FROM {
        return crc64_fast::fold_held(register, bytes);
    }
    if bytes.len() < LONG_FROM {
        return crc64_lanes::fold_lanes(register, bytes);
    }
    crc64_long::fold_long(register, bytes)
}

// The checksum of a byte string. It asks for the length by itself: a function that is called from one place alone is
// compiled into that place, and the window of long strings would be laid out for short ones too.
pub fn checksum(bytes: &[u8]) -> u64
    ensures { ChecksumIs bytes.now result }
{
    if bytes.len() < LANES_FROM {
        return crc64::swap_bytes(crc64_fast::fold_held(0, bytes));
    }
    if bytes.len() < LONG_FROM {
        return crc64::swap_bytes(crc64_lanes::fold_lanes(0, bytes));
    }
    crc64::swap_bytes(crc64_long::fold_long(0, bytes))
}

// A checksum of bytes that come in several stretches.
#[derive(Clone, Copy)]
pub struct Crc64 {
    register: u64,
}

impl Crc64 {
    // The checksum of nothing, to begin with.
    pub fn new() -> Self
        ensures { NewIs result }
    {
        Self { register: 0 }
    }

    // Folds the next stretch in.
    pub fn update(&mut self, bytes: &[u8])
        ensures { UpdateIs self.old bytes.now self.new }
    {
        self.register = updated(self.register, bytes);
    }

    // The same by value, for calls in a row.
    pub fn chain(self, bytes: &[u8]) -> Self
        ensures { ChainIs self bytes.now result }
    {
        let register = self.register;
        Self {
            register: updated(register, bytes),
        }
    }

    // Appends a stretch of which the checksum and the length are known, without its bytes.
    pub fn append(self, checksum: u64, length: u64) -> Self
        ensures { AppendIs self checksum length result }
    {
        let register = crc64::swap_bytes(self.register);
        Self {
            register: crc64::swap_bytes(crc64_combine::combine(register, checksum, length)),
        }
    }

    // The checksum as it is written on the wire.
    pub fn finish(self) -> u64
        ensures { FinishIs self result }
    {
        let register = self.register;
        crc64::swap_bytes(register)
    }
}
