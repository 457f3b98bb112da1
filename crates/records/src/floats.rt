// The floats of a stream, in one pass over the records.
ghost use Rattle.std.specs.Prelude.{◌≡◌, ◌+◌, ◌*◌, ◌≤◌, length};
ghost use Rattle.stream.specs.Payload.{payload};
ghost use Rattle.stream.specs.Inner.Payload.{room, rest};
ghost use Rattle.records.specs.Limits.{limited_at, limited};
ghost use Rattle.records.specs.Inner.Hits.{Stands};
ghost use Rattle.records.specs.Inner.Floats.{within_limit, all_within_limit};

use crate::numbers::{Form, MAX_MEASURE, Tag};
use crate::records::{Record, Step, next_record, option_width, values_width};
use crate::search::tag_at;
use stream::{float_of, u64_at};

// Whether a float is finite and, for a canvas measure, within the limit.
fn is_within_limit(canvas: bool, x: Option<f64>) -> bool
    ensures { result ≡ within_limit canvas x }
{
    match x {
        None => false,
        Some(v) => {
            if !canvas {
                return true;
            }
            -MAX_MEASURE <= v && v <= MAX_MEASURE
        }
    }
}

// Whether n floats from p on are each finite and, for canvas measures, within the limit.
fn all_within_limit(part: &[u8], off: usize, canvas: bool, p: usize, n: usize) -> bool
    requires { (off ≤ room part.now) × (p + 8 * n ≤ length (rest part.now off)) }
    ensures { result ≡ all_within_limit (rest part.now off) canvas p n }
{
    // By index: in `all` the closure would have to state what `u64_at` requires.
    for i in 0..n {
        if !is_within_limit(canvas, float_of(u64_at(part, off, p + 8 * i))) {
            return false;
        }
    }
    true
}

// The floats of one record, which stands at the offset.
fn limited_at(part: &[u8], off: usize, r: Record) -> bool
    requires { (off ≤ room part.now) × Stands (rest part.now off) r }
    ensures { result ≡ limited_at (rest part.now off) r }
{
    match r {
        Record::Rescale => all_within_limit(part, off, false, 1, 1),
        Record::Option(option) => all_within_limit(part, off, false, 2, option_width(option) / 8),
        Record::Feature(name) => all_within_limit(part, off, false, 2 + usize::from(name), 2),
        Record::Variable(name) => all_within_limit(part, off, false, 2 + usize::from(name), 1),
        Record::Place(name) => all_within_limit(part, off, true, 2 + usize::from(name), 2),
        Record::Item { label, has, .. } => {
            all_within_limit(
                part,
                off,
                true,
                13 + usize::from(label),
                values_width(usize::from(has)) / 8,
            )
        }
        Record::Points { count, .. } => all_within_limit(
            part,
            off,
            true,
            4,
            2 * usize::from(count),
        ),
        Record::Path { form, count, .. } => {
            if form == Form::Cubics as u8 {
                all_within_limit(part, off, true, 4, 2)
                    && all_within_limit(part, off, true, 22, 6 * usize::from(count))
            } else {
                all_within_limit(part, off, true, 6, 2 * usize::from(count))
            }
        }
    }
}

// Condition 4.
pub fn limits(s: &[u8]) -> bool
    ensures { result ≡ limited (payload s.now) }
{
    let mut p = 0usize;
    // Records follow one another by their sizes: no range has them.
    loop {
        if tag_at(s, p) == Tag::End as u8 {
            return true;
        }
        let part = stream::part_from(s, p);
        let off = p % stream::PAYLOAD;
        let Step::Got(r, k) = next_record(part, off) else {
            return true;
        };
        if !limited_at(part, off, r) {
            return false;
        }
        p += k;
    }
}
