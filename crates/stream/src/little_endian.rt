// Little-endian numbers whose bytes stand side by side.
ghost use Rattle.std.specs.Prelude.{◌≡◌, ◌+◌, ◌≤◌, length, from_bits};
ghost use Rattle.std.specs.Float.{binary64};
ghost use Rattle.stream.specs.Numbers.{u16_at, u32_at, u64_at, float_of};

// The weights of a pattern's sign and of its exponent's lowest bit, and an exponent of all ones.
const SIGN: u64 = 9223372036854775808;

const EXPONENT: u64 = 4503599627370496;

const ALL_ONES: u64 = 2047;

// The number of two bytes at p; then those of four and of eight.
#[tactic(auto, unfolding(crate::specs::Numbers::u16_at))]
pub fn u16_le(s: &[u8], p: usize) -> u16
    requires { p + 2 ≤ length s.now }
    ensures { result ≡ u16_at s.now p }
{
    u16::from_le_bytes([s[p], s[p + 1]])
}

#[tactic(auto, unfolding(crate::specs::Numbers::u32_at))]
pub fn u32_le(s: &[u8], p: usize) -> u32
    requires { p + 4 ≤ length s.now }
    ensures { result ≡ u32_at s.now p }
{
    u32::from(u16_le(s, p)) + 65536 * u32::from(u16_le(s, p + 2))
}

#[tactic(auto, unfolding(crate::specs::Numbers::u64_at, crate::specs::Numbers::u32_at, crate::specs::Numbers::u16_at))]
pub fn u64_le(s: &[u8], p: usize) -> u64
    requires { p + 8 ≤ length s.now }
    ensures { result ≡ u64_at s.now p }
{
    u64::from_le_bytes([
        s[p],
        s[p + 1],
        s[p + 2],
        s[p + 3],
        s[p + 4],
        s[p + 5],
        s[p + 6],
        s[p + 7],
    ])
}

// A pattern's value. An exponent of all ones is an infinity or a NaN.
pub fn float_of(bits: u64) -> Option<f64>
    ensures { result ≡ float_of (from_bits binary64 bits) }
{
    if bits % SIGN / EXPONENT == ALL_ONES {
        None
    } else {
        Some(f64::from_bits(bits))
    }
}
