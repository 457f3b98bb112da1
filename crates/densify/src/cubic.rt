// A cubic split until it is flat.
ghost use Rattle.std.specs.Prelude.{◌≡◌, ◌-◌, ◌≤◌, length};
ghost use Rattle.std.specs.Result.{result_ok};
ghost use Rattle.densify.specs.Densify.{dist_of, flat_of, mid_of, first_half, second_half, split_of, flatten_cubic_of};
ghost use Rattle.densify.specs.Inner.Written.{block_in, Written};
ghost use Rattle.values.specs.Inner.Points.{point_in};

use crate::append::{PointCursor, leaf};
use budget::Budget;
use elementary::hypot;
use float::{abs, max};

// How often a cubic is halved at most.
const DEPTH: usize = 16;

// No tolerance is below a billionth of an inch.
const MIN_TOLERANCE: f64 = 0.000000001;

#[tactic(auto, unfolding(crate::specs::Densify::mid_of))]
fn mid(a: [f64; 2], b: [f64; 2]) -> [f64; 2]
    ensures { point_in result ≡ mid_of (point_in a) (point_in b) }
{
    [(a[0] + b[0]) / 2.0, (a[1] + b[1]) / 2.0]
}

// The distance of p from the chord.
#[tactic(auto, unfolding(crate::specs::Densify::dist_of))]
fn dist(b: [[f64; 2]; 4], p: [f64; 2]) -> f64
    ensures { result ≡ dist_of (block_in b) (point_in p) }
{
    let [a, _, _, e] = b;
    let vx = e[0] - a[0];
    let vy = e[1] - a[1];
    let px = p[0] - a[0];
    let py = p[1] - a[1];
    let len = hypot(vx, vy);
    if len == 0.0 {
        return hypot(px, py);
    }
    abs(px * vy - py * vx) / len
}

#[tactic(auto, unfolding(crate::specs::Densify::flat_of))]
fn is_flat(b: [[f64; 2]; 4], tol: f64) -> bool
    ensures { result ≡ flat_of tol (block_in b) }
{
    max(dist(b, b[1]), dist(b, b[2])) <= tol
}

// De Casteljau's points of both halves, which share the middle one.
#[tactic(auto, unfolding(crate::specs::Densify::first_half, crate::specs::Densify::second_half))]
fn halves(b: [[f64; 2]; 4]) -> ([[f64; 2]; 4], [[f64; 2]; 4])
    ensures { (block_in result.0 ≡ first_half (block_in b)) × (block_in result.1 ≡ second_half (block_in b)) }
{
    let [p0, c1, c2, p3] = b;
    let p01 = mid(p0, c1);
    let p12 = mid(c1, c2);
    let p23 = mid(c2, p3);
    let p012 = mid(p01, p12);
    let p123 = mid(p12, p23);
    let m = mid(p012, p123);
    ([p0, p01, p012, m], [m, p123, p23, p3])
}

// Both halves are one level deeper.
fn pieces(
    b: [[f64; 2]; 4],
    tol: f64,
    depth: usize,
    budget: Budget,
    work: &mut [f64],
    at: usize,
) -> Result<PointCursor, PointCursor>
    requires { at ≤ length work.old }
    ensures { Written work.old work.new at
        (split_of (16 - depth) tol (block_in b) budget) (result_ok result) }
{
    let flat = is_flat(b, tol);
    if depth >= DEPTH || flat || budget.left < 2 {
        return leaf(flat, b[3], budget, work, at);
    }
    let (first, second) = halves(b);
    let one = pieces(first, tol, depth + 1, budget, work, at)?;
    pieces(second, tol, depth + 1, one.budget, work, one.at)
}

// A cubic flattened to within `tol`, a billionth at least: the points behind its start.
#[tactic(auto, unfolding(crate::specs::Densify::flatten_cubic_of))]
pub fn flatten_cubic(
    b: [[f64; 2]; 4],
    tol: f64,
    budget: Budget,
    work: &mut [f64],
    at: usize,
) -> Result<PointCursor, PointCursor>
    requires { at ≤ length work.old }
    ensures { Written work.old work.new at (flatten_cubic_of tol (block_in b) budget) (result_ok result) }
{
    pieces(b, max(tol, MIN_TOLERANCE), 0, budget, work, at)
}
