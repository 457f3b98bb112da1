// How many vertices a segment and a full curve want.
ghost use Rattle.std.specs.Prelude.{◌≡◌, ◌≤◌};
ghost use Rattle.densify.specs.Densify.{clamped, segment_parts, by_tolerance, arc_vertices_of};

use elementary::acos;
use float::{abs, ceil, is_finite, max};
use std::num::saturating_f64_to_usize;

const PI: f64 = 3.141592653589793;

// A segment is cut into so many parts at most.
const MAX_SEGMENT_VERTICES: usize = 100000;

// The fewest and the most vertices of a full curve.
const MIN_RING_VERTICES: usize = 32;

const MAX_RING_VERTICES: usize = 4096;

// What a tolerance asks for that is not below the radius: the fewest.
const FEWEST_BY_TOLERANCE: f64 = 32.0;

// The whole part of n as a count, held to low .. high; high for what is not finite.
#[tactic(auto, unfolding(crate::specs::Densify::clamped))]
fn clamp(n: f64, low: usize, high: usize) -> usize
    requires { low ≤ high }
    ensures { result ≡ clamped low high n }
{
    if !is_finite(n) {
        return high;
    }
    saturating_f64_to_usize(n).clamp(low, high)
}

// The parts of a segment so many metres long.
#[tactic(auto, unfolding(crate::specs::Densify::segment_parts))]
pub fn segment_parts(step: f64, metres: f64) -> usize
    ensures { result ≡ segment_parts step metres }
{
    if !is_finite(metres) {
        return 1;
    }
    clamp(ceil(metres / step), 1, MAX_SEGMENT_VERTICES)
}

// So many that the sagitta stays within `tol`.
#[tactic(auto, unfolding(crate::specs::Densify::by_tolerance))]
fn by_tolerance(r: f64, tol: f64) -> f64
    ensures { result ≡ by_tolerance r tol }
{
    if tol < r && 0.0 < tol {
        ceil(PI / acos(1.0 - tol / r))
    } else {
        FEWEST_BY_TOLERANCE
    }
}

// The vertices of a full circle of this radius on the canvas.
#[tactic(auto, unfolding(crate::specs::Densify::arc_vertices_of))]
pub fn arc_vertices(step: f64, scale: f64, radius: f64, tol: f64) -> usize
    ensures { result ≡ arc_vertices_of step scale radius tol }
{
    let r = abs(radius);
    let around = ceil(2.0 * PI * (r * scale) / step);
    clamp(
        max(by_tolerance(r, tol), around),
        MIN_RING_VERTICES,
        MAX_RING_VERTICES,
    )
}
