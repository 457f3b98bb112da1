// The blocks of a stream, and what stands at a place of their payload.
#![tactic(auto)]

ghost use Rattle.std.specs.Prelude.{◌≡◌, ◌+◌, ◌*◌, ◌<◌, ◌≤◌, IfOk, length, slice_index};
ghost use Rattle.stream.specs.Numbers.{u16_at, u32_at, u64_at, float_at};
ghost use Rattle.stream.specs.Blocks.{checked};
ghost use Rattle.stream.specs.Inner.Blocks.{BlocksChecked};
ghost use Rattle.stream.specs.Inner.Payload.{room, stream_offset, rest, part_from, one_block, contiguous_if, AreContiguous};

mod little_endian;

pub use little_endian::float_of;
use values::Refusal;

// The bytes of a block, how many of them come before its check, and how many words of four bytes these are.
const BLOCK: usize = 512;

pub const PAYLOAD: usize = 508;

const WORDS: usize = 127;

// A stream has so many blocks at most.
const MAX_BLOCKS: usize = 65536;

// Whether block i has a right check.
fn check(s: &[u8], i: usize) -> bool
    requires { (512 * i + 512 ≤ length s.now) × (i < 65536) }
    ensures { result ≡ checked s.now i }
{
    let base = BLOCK * i;
    let mut sum = i as u32;
    for k in 0..WORDS {
        sum = sum.wrapping_add(little_endian::u32_le(s, base + 4 * k));
    }
    sum == little_endian::u32_le(s, base + PAYLOAD)
}

// Conditions 1 and 2: how many whole blocks there are, each with a right check.
pub fn check_blocks(s: &[u8]) -> Result<usize, Refusal>
    ensures { BlocksChecked s.now result }
{
    let n = s.len() / BLOCK;
    if s.len() == 0 || s.len() % BLOCK != 0 || n > MAX_BLOCKS {
        return Err(Refusal::Size);
    }
    for i in 0..n {
        if !check(s, i) {
            return Err(Refusal::Check);
        }
    }
    Ok(n)
}

// The part that starts at the block of the payload's byte p, which has the offset p % 508 there.
pub fn part_from(s: &[u8], p: usize) -> &[u8]
    requires { p ≤ room s.now }
    ensures { result.now ≡ part_from s.now p }
{
    let from = BLOCK * (p / PAYLOAD);
    &s[from..]
}

// Where byte p of the payload stands: behind the checks of the blocks before it.
fn stream_offset(p: usize) -> usize
    requires { stream_offset p < 18446744073709551616 }
    ensures { result ≡ stream_offset p }
{
    p + 4 * (p / PAYLOAD)
}

// The readers take a part that starts at a block and an offset in its payload; i counts from there.
pub fn remaining(part: &[u8], off: usize) -> usize
    requires { off ≤ room part.now }
    ensures { result ≡ length (rest part.now off) }
{
    PAYLOAD * (part.len() / BLOCK) - off
}

pub fn byte(part: &[u8], off: usize, i: usize) -> u8
    requires { (off ≤ room part.now) × (i < length (rest part.now off)) }
    ensures { result ≡ slice_index (rest part.now off) i }
{
    part[stream_offset(off + i)]
}

// Where the byte i stands: `Ok` where the n bytes from it on lie in one block, with no check between them. Of every
// part that has these bytes this says that they stand side by side.
pub fn contiguous_at(off: usize, i: usize, n: usize) -> Result<usize, usize>
    requires { stream_offset (off + i) + n < 18446744073709551616 }
    ensures at_value { result ≡ contiguous_if (one_block off i n) (stream_offset (off + i)) }
    ensures are_contiguous { IfOk result (AreContiguous off i n) }
{
    let at = stream_offset(off + i);
    if at % BLOCK + n <= PAYLOAD {
        Ok(at)
    } else {
        Err(at)
    }
}

pub fn u16_at(part: &[u8], off: usize, i: usize) -> u16
    requires { (off ≤ room part.now) × (i + 2 ≤ length (rest part.now off)) }
    ensures { result ≡ u16_at (rest part.now off) i }
{
    u16::from_le_bytes([byte(part, off, i), byte(part, off, i + 1)])
}

// Four bytes are read side by side where no check stands between them, else as two numbers of two bytes. Each width
// reads its halves by the reader of the next smaller one: a reader generic over the width would need them as a trait.
pub fn u32_at(part: &[u8], off: usize, i: usize) -> u32
    requires { (off ≤ room part.now) × (i + 4 ≤ length (rest part.now off)) }
    ensures { result ≡ u32_at (rest part.now off) i }
{
    let at = stream_offset(off + i);
    if at % BLOCK + 4 <= PAYLOAD {
        return little_endian::u32_le(part, at);
    }
    u32::from(u16_at(part, off, i)) + 65536 * u32::from(u16_at(part, off, i + 2))
}

// Eight bytes, as `u32_at` reads four. A caller that wants a float's value soon takes its bits from here and `float_of`
// itself: a number comes back in a register, an enum in memory.
pub fn u64_at(part: &[u8], off: usize, i: usize) -> u64
    requires { (off ≤ room part.now) × (i + 8 ≤ length (rest part.now off)) }
    ensures { result ≡ u64_at (rest part.now off) i }
{
    let at = stream_offset(off + i);
    if at % BLOCK + 8 <= PAYLOAD {
        return little_endian::u64_le(part, at);
    }
    u64::from(u32_at(part, off, i)) + 4294967296 * u64::from(u32_at(part, off, i + 4))
}

// A NaN or an infinity has no value: reading comes before condition 4.
pub fn float(part: &[u8], off: usize, i: usize) -> Option<f64>
    requires { (off ≤ room part.now) × (i + 8 ≤ length (rest part.now off)) }
    ensures { result ≡ float_at (rest part.now off) i }
{
    little_endian::float_of(u64_at(part, off, i))
}
