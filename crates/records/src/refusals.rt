// Refusals 1 to 6 and 19.
ghost use Rattle.std.specs.Prelude.{◌≡◌, ◌≤◌, length};
ghost use Rattle.values.specs.Inner.Refusals.{number_by};
ghost use Rattle.stream.specs.Payload.{payload};
ghost use Rattle.std.specs.Float.{binary64};
ghost use Rattle.std.specs.Float.Ieee.{of_bits};
ghost use Rattle.stream.specs.Numbers.{float_of};
ghost use Rattle.records.specs.Values.{float_or, flatten_in, step_in, not_above, outside_bounds};
ghost use Rattle.records.specs.Inner.Hits.{records_at};
ghost use Rattle.records.specs.Inner.Numbers.{sheet_option_of};
ghost use Rattle.records.specs.Inner.Refusals.{values_refusal, refusal_of};

use crate::floats::limits;
use crate::numbers::{FLATTEN, GREATEST_STEP, LEAST_STEP, MAX_STEP_M, SheetOption};
use crate::order::layout;
use crate::search::option_at;
use stream::{check_blocks, float, float_of, u64_at};
use values::Refusal;

// Whether a float is zero or negative.
fn is_not_above(x: Option<f64>) -> bool
    ensures { result ≡ not_above x }
{
    x.is_some_and(|v| v <= 0.0)
}

// Whether a step is below 1 or above 1,000.
fn is_outside_bounds(x: Option<f64>) -> bool
    ensures { result ≡ outside_bounds x }
{
    x.is_some_and(|v| v < LEAST_STEP || GREATEST_STEP < v)
}

// The pattern of an option's float, or what stands for an absent one. A number comes back in a register, an enum in
// memory.
fn bits_or(s: &[u8], option: SheetOption, absent: u64) -> u64
    requires { 3 ≤ sheet_option_of option }
    ensures { float_of (of_bits binary64 result)
        ≡ float_or (records_at (payload s.now) 0 2 (sheet_option_of option))
        (float_of (of_bits binary64 absent)) }
{
    match option_at(s, option.number()) {
        None => absent,
        Some(p) => u64_at(s, 0, p),
    }
}

// The tolerance of curves, FLATTEN where the option is absent.
pub fn flatten(s: &[u8]) -> Option<f64>
    ensures { result ≡ flatten_in (payload s.now) }
{
    float_of(bits_or(s, SheetOption::Flatten, f64::to_bits(FLATTEN)))
}

// The longest step between two positions in metres, MAX_STEP_M where the option is absent.
pub fn sheet_step(s: &[u8]) -> Option<f64>
    ensures { result ≡ step_in (payload s.now) }
{
    float_of(bits_or(s, SheetOption::Step, f64::to_bits(MAX_STEP_M)))
}

// Conditions 5, 19 and 6, of a stream that has a block.
fn check_values(s: &[u8]) -> Result<(), Refusal>
    requires { 512 ≤ length s.now }
    ensures { number_by result ≡ values_refusal (payload s.now) }
{
    if is_not_above(flatten(s)) {
        return Err(Refusal::Flatten);
    }
    if is_outside_bounds(sheet_step(s)) {
        return Err(Refusal::Step);
    }
    if is_not_above(float(s, 0, 1)) {
        return Err(Refusal::Rescale);
    }
    Ok(())
}

// The first condition that refuses the stream.
pub fn check_stream(s: &[u8]) -> Result<(), Refusal>
    ensures { number_by result ≡ refusal_of s.now }
{
    check_blocks(s)?;
    if !layout(s) {
        return Err(Refusal::Layout);
    }
    if !limits(s) {
        return Err(Refusal::Limit);
    }
    check_values(s)
}
