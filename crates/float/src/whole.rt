// f64's trunc, ceil and round, by bit patterns. The methods of these names answer the same and were slower: a projected
// point took a tenth more.
ghost use Rattle.std.specs.Prelude.{◌≡◌, ◌+◌, ◌*◌, ◌<◌, ◌%◌, ◌/◌};
ghost use Rattle.float.specs.Functions.{whole_at, trunc_of, ceil_of, round_of};
ghost use Rattle.float.specs.Inner.Fraction.{HasFraction, IsUnit, unit_of, sign_of, digits_of};

// A pattern is its sign, 0 or SIGN, plus field * 2^52 + digits, with 52 digits after the point.
const TWO_52: u64 = 0x0010_0000_0000_0000;

const SIGN: u64 = 0x8000_0000_0000_0000;

// How many values the exponent's field has.
const FIELDS: u64 = 2048;

// The field of the values from 0.5 up to 1, from 1 up to 2, and from 2^52 on, which are all whole numbers.
const FIELD_HALF: u64 = 1022;

const FIELD_ONE: u64 = 1023;

const FIELD_WHOLE: u64 = 1075;

// The pattern of 1.0.
const ONE: u64 = 0x3ff0_0000_0000_0000;

// What one weighs among the digits of the pattern b, some of which are behind the point.
fn unit(b: u64) -> u64
    requires { HasFraction b }
    ensures { IsUnit b result }
{
    1 << (FIELD_WHOLE - b / TWO_52 % FIELDS)
}

// What `round` adds before it clears the fraction: half of what one weighs, so that halves go away from zero.
fn half(b: u64) -> u64
    requires { HasFraction b }
    ensures { result ≡ unit_of b / 2 }
{
    let u = unit(b);
    u / 2
}

// The pattern's value with h added to its digits, and without those behind the point. What the sum carries into the
// exponent's field is right there.
fn clear_fraction(b: u64, h: u64) -> f64
    requires { HasFraction b × (h < unit_of b) }
    ensures { result ≡ whole_at (sign_of b) ((digits_of b + h) / unit_of b) }
{
    let u = unit(b);
    let c = b + h;
    f64::from_bits(c - c % u)
}

// The whole part, with the sign of x.
pub fn trunc(x: f64) -> f64
    ensures { result ≡ trunc_of x }
{
    if x.is_nan() {
        return x;
    }
    let b = f64::to_bits(x);
    let f = b / TWO_52 % FIELDS;
    if f >= FIELD_WHOLE {
        return x;
    }
    if f < FIELD_ONE {
        return f64::from_bits(b / SIGN * SIGN);
    }
    clear_fraction(b, 0)
}

// The least whole number that is not below x. Up to zero that is the whole part.
pub fn ceil(x: f64) -> f64
    ensures { result ≡ ceil_of x }
{
    if 0.0 < x {
        let b = f64::to_bits(x);
        let f = b / TWO_52 % FIELDS;
        if f >= FIELD_WHOLE {
            return x;
        }
        if f < FIELD_ONE {
            return 1.0;
        }
        let u = unit(b);
        return clear_fraction(b, u - 1);
    }
    trunc(x)
}

// The nearest whole number, halves away from zero.
pub fn round(x: f64) -> f64
    ensures { result ≡ round_of x }
{
    if x.is_nan() {
        return x;
    }
    let b = f64::to_bits(x);
    let f = b / TWO_52 % FIELDS;
    if f >= FIELD_WHOLE {
        return x;
    }
    let s = b / SIGN * SIGN;
    if f < FIELD_HALF {
        return f64::from_bits(s);
    }
    if f == FIELD_HALF {
        return f64::from_bits(s + ONE);
    }
    clear_fraction(b, half(b))
}
