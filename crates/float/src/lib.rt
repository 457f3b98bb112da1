// What Rust's f64 has as methods, and a finite pattern taken apart.
#![tactic(auto)]

ghost use Rattle.std.specs.Prelude.{◌≡◌, true, false, ◌+◌, ◌*◌, ◌<◌, ◌%◌, ◌^◌, ◌/◌};
ghost use Rattle.std.specs.Float.Ieee.{is_nan};
ghost use Rattle.std.specs.Float.Ieee.Scale.{finite};
ghost use Rattle.float.specs.Functions.{abs_of, max_of, min_of, rem_euclid360_of};
ghost use Rattle.float.specs.Inner.Decomposition.{Decomposition};

mod whole;

pub use whole::{ceil, round, trunc};

// A finite pattern above zero is field * 2^52 + digits, with 52 digits after the point.
const TWO_52: u64 = 0x0010_0000_0000_0000;

// The leading zeros of a u64 of 53 digits.
const ZEROS_AT_53: u32 = 11;

// The exponents in units of 2^-2150: the format's smallest value is 2^-1074, and the last digit at the field f is worth
// 2^(f - 1075).
const SMALLEST: u64 = 1076;

const FIELD_ZERO: u64 = 1075;

// The size of a value.
pub fn abs(x: f64) -> f64
    ensures { result ≡ abs_of x }
{
    x.abs()
}

// The larger of two. A NaN loses to the other operand; where both compare equal, x: f64::max leaves open which.
pub fn max(x: f64, y: f64) -> f64
    ensures { result ≡ max_of x y }
{
    if x.is_nan() {
        return y;
    }
    if x < y { y } else { x }
}

// The smaller of two. A NaN loses to the other operand; where both compare equal, x: f64::min leaves open which.
pub fn min(x: f64, y: f64) -> f64
    ensures { result ≡ min_of x y }
{
    if x.is_nan() {
        return y;
    }
    if y < x { y } else { x }
}

// Neither an infinity nor a NaN.
pub fn is_finite(x: f64) -> bool
    ensures { result ≡ finite x }
{
    x.is_finite()
}

// Whether both are one value: 0.0 and -0.0 are two, and a NaN is never one with another.
pub fn same_value(a: f64, b: f64) -> bool
    ensures { (result ≡ true → a ≡ b) × (is_nan a ≡ false → a ≡ b → result ≡ true) }
{
    a == b && a.to_bits() == b.to_bits()
}

// `%`, plus 360 where that is negative.
pub fn rem_euclid_360(x: f64) -> f64
    ensures { result ≡ rem_euclid360_of x }
{
    x.rem_euclid(360.0)
}

// The number m * 2^e.
#[derive(Clone, Copy)]
pub struct Decomposed {
    pub m: u64,
    pub e: u64,
}

// The value of a finite pattern above zero as m * 2^e in units of 2^-2150, with all 53 digits of m in use.
pub fn decompose(b: u64) -> Decomposed
    requires { (0 < b) × (b < 2047 * 2 ^ 52) }
    ensures { Decomposition b result.m result.e }
{
    let f = b / TWO_52;
    let t = b % TWO_52;
    if f == 0 {
        let z = (u64::leading_zeros(t) - ZEROS_AT_53) as u64;
        return Decomposed {
            m: t << z,
            e: SMALLEST - z,
        };
    }
    Decomposed {
        m: TWO_52 + t,
        e: FIELD_ZERO + f,
    }
}
