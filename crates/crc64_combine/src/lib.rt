// The checksum of two strings joined, from theirs and the length of the second, by repeated squaring. What it is
// stands in specs/Combined.antt.
#![tactic(auto)]

ghost use Rattle.crc64_combine.specs.Statement.{CombineIs};
ghost use Rattle.crc64_combine.specs.Stages.{product, where_set};
ghost use Rattle.crc64.specs.Polynomial.{step, steps};
ghost use Rattle.std.specs.Prelude.{◌≡◌, ◌*◌, ◌%◌};

const POLYNOMIAL: u64 = 0xe543_2797_6592_7881;
// x^8, the power of one byte.
const BYTE: u64 = 0x100;

// A register times x: one step. The bit that leaves at the top is 0 or 1, so no branch is wanted.
fn stepped(r: u64) -> u64
    ensures { result ≡ step r }
{
    ((r >> 63) * POLYNOMIAL) ^ (r << 1)
}

// A register and a power of x.
#[derive(Clone, Copy)]
struct Turn {
    register: u64,
    power: u64,
}

// One turn: the register times the power where n is odd, and the power squared. Both products, modulo the polynomial,
// are summed in one walk over the power's steps, which is where the time goes.
fn one_turn(n: u64, power: u64, register: u64) -> Turn
    ensures { (result.register ≡ where_set (n % 2) power register) × (result.power ≡ product 64 power power) }
{
    let mut product = 0;
    let mut square = 0;
    let mut shifted = power;
    let mut terms = register;
    let mut own = power;
    for _ in 0..u64::BITS {
        product = product ^ (terms % 2) * shifted;
        square = square ^ (own % 2) * shifted;
        shifted = stepped(shifted);
        terms = terms / 2;
        own = own / 2;
    }
    if n % 2 == 0 {
        return Turn {
            register,
            power: square,
        };
    }
    Turn {
        register: product,
        power: square,
    }
}

// The register a, `length` bytes of zeros later: the power is squared for each bit of the length, of which there are
// 64.
fn advanced(a: u64, length: u64) -> u64
    ensures { result ≡ steps (8 * length) a }
{
    let mut register = a;
    let mut power = BYTE;
    let mut left = length;
    while left > 0 {
        let next = one_turn(left, power, register);
        register = next.register;
        power = next.power;
        left = left / 2;
    }
    register
}

// The checksum of a string with the checksum a, joined to one of `length` bytes with the checksum b.
pub fn combine(a: u64, b: u64, length: u64) -> u64
    ensures { CombineIs a b length result }
{
    advanced(a, length) ^ b
}
