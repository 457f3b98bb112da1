// A straight segment in parts, handed on point by point.
ghost use Rattle.std.specs.Prelude.{◌≡◌, ◌+◌, ◌<◌, ◌≤◌, length};
ghost use Rattle.std.specs.Result.{result_ok};
ghost use Rattle.densify.specs.Densify.{without_draws, segment_want, along_of, samples_to, densify_polyline_of};
ghost use Rattle.densify.specs.Inner.Written.{Written};
ghost use Rattle.values.specs.Inner.Points.{point_in, points_in};

use crate::append::{PointCursor, put_point, put_points};
use crate::counts::segment_parts;
use budget::Budget;
use elementary::hypot;

// How many vertices a segment wants: one for each of its parts.
#[tactic(auto, unfolding(crate::specs::Densify::segment_want))]
pub fn segment_want(step: f64, scale: f64, a: [f64; 2], b: [f64; 2]) -> usize
    ensures { result ≡ segment_want step scale (point_in a) (point_in b) }
{
    let inches = hypot(b[0] - a[0], b[1] - a[1]);
    segment_parts(step, inches * scale)
}

// The k-th of n points of the way from a to b.
#[tactic(auto, unfolding(crate::specs::Densify::along_of))]
pub fn along(a: [f64; 2], b: [f64; 2], k: usize, n: usize) -> [f64; 2]
    requires { (k < 4294967296) × (n < 4294967296) }
    ensures { point_in result ≡ along_of (point_in a) (point_in b) k n }
{
    let t = k as f64 / n as f64;
    [a[0] + t * (b[0] - a[0]), a[1] + t * (b[1] - a[1])]
}

// The ends of a segment's n parts, written into `out`.
fn sample_segment(
    a: [f64; 2],
    b: [f64; 2],
    n: usize,
    budget: Budget,
    out: &mut [f64],
    at: usize,
) -> Result<PointCursor, PointCursor>
    requires { (n < 4294967295) × (at ≤ length out.old) }
    ensures { Written out.old out.new at
        (without_draws (samples_to (λ k. along_of (point_in a) (point_in b) k n) n) budget) (result_ok result) }
{
    put_points(
        n,
        |k|
            requires { (k < n) × (n < 4294967295) }
            ensures { point_in result ≡ along_of (point_in a) (point_in b) (k + 1) n }
        { along(a, b, k + 1, n) },
        budget,
        out,
        at,
    )
}

// The polyline whose points stand in `work` from `from` to `to`, densified to this step, on the canvas: each point is
// written into `out` as it is made.
pub fn densify_polyline(
    step: f64,
    scale: f64,
    work: &[f64],
    from: usize,
    to: usize,
    budget: Budget,
    out: &mut [f64],
    at: usize,
) -> Result<PointCursor, PointCursor>
    requires { (from ≤ to) × (to ≤ length work.now) × (at ≤ length out.old) }
    ensures { Written out.old out.new at
        (densify_polyline_of step scale (points_in work.now from to) budget) (result_ok result) }
{
    if to - from < 2 {
        return Ok(PointCursor { at, budget });
    }
    let mut a = [work[from], work[from + 1]];
    let mut done = put_point(a[0], a[1], budget, out, at)?;
    for k in 1..(to - from) / 2 {
        let i = from + 2 * k;
        let b = [work[i], work[i + 1]];
        let t = done.budget.take(segment_want(step, scale, a, b), 1);
        done = sample_segment(a, b, t.granted, t.budget, out, done.at)?;
        a = b;
    }
    Ok(done)
}

// What such a polyline leaves of the budget where its positions are not written. A loop of its own: of a closure that
// writes, the other's clause would have to follow the slice that it holds.
pub fn spend_polyline(
    step: f64,
    scale: f64,
    work: &[f64],
    from: usize,
    to: usize,
    budget: Budget,
) -> Budget
    requires { (from ≤ to) × (to ≤ length work.now) }
    ensures { result ≡ (densify_polyline_of step scale (points_in work.now from to) budget).after }
{
    if to - from < 2 {
        return budget;
    }
    let mut a = [work[from], work[from + 1]];
    let mut left = budget;
    for k in 1..(to - from) / 2 {
        let i = from + 2 * k;
        let b = [work[i], work[i + 1]];
        left = left.take(segment_want(step, scale, a, b), 1).budget;
        a = b;
    }
    left
}
