// Rings of ellipses and boxes.
ghost use Rattle.std.specs.Prelude.{◌≡◌, suc, ◌<◌, ◌≤◌, length};
ghost use Rattle.std.specs.Result.{result_ok};
ghost use Rattle.densify.specs.Densify.{without_draws, round_to, ellipse_point, ellipse_ring_of, sharp_corners};
ghost use Rattle.densify.specs.Densify.{corner_point, rounded_corners, quarter_of, box_ring_of};
ghost use Rattle.densify.specs.Laws.Replay.{radius_of};
ghost use Rattle.densify.specs.Inner.Written.{Written};
ghost use Rattle.values.specs.Inner.Points.{point_in};

use crate::append::{PointCursor, close_ring, put_point, put_points};
use crate::counts::arc_vertices;
use budget::Budget;
use elementary::{sin_cos, to_radians};
use float::{max, min};

const PI: f64 = 3.141592653589793;

// n points of an ellipse about c.
#[tactic(auto, unfolding(crate::specs::Densify::ellipse_point))]
fn ellipse_points(
    c: [f64; 2],
    rx: f64,
    ry: f64,
    n: usize,
    budget: Budget,
    work: &mut [f64],
    at: usize,
) -> Result<PointCursor, PointCursor>
    requires { (n < 4294967296) × (at ≤ length work.old) }
    ensures { Written work.old work.new at
        (without_draws (round_to (ellipse_point (point_in c) rx ry n) n) budget) (result_ok result) }
{
    put_points(
        n,
        |k|
            requires { (k < n) × (n < 4294967296) }
            ensures { point_in result ≡ ellipse_point (point_in c) rx ry n k }
        {
            let t = 2.0 * PI * (k as f64) / (n as f64);
            let v = sin_cos(t);
            [c[0] + rx * v.cos, c[1] + ry * v.sin]
        },
        budget,
        work,
        at,
    )
}

// An ellipse's outline, closed.
pub fn ellipse_ring(
    step: f64,
    scale: f64,
    tol: f64,
    c: [f64; 2],
    rx: f64,
    ry: f64,
    budget: Budget,
    work: &mut [f64],
    at: usize,
) -> Result<PointCursor, PointCursor>
    requires { at ≤ length work.old }
    ensures { Written work.old work.new at
        (ellipse_ring_of step scale tol (point_in c) rx ry budget) (result_ok result) }
{
    let t = budget.take(arc_vertices(step, scale, max(rx, ry), tol), 8);
    let d = ellipse_points(c, rx, ry, t.granted, t.budget, work, at)?;
    close_ring(t.budget, work, at, d.at)
}

// The four corners of a box, counter-clockwise from the south-west.
fn sharp_corners(
    c: [f64; 2],
    hw: f64,
    hh: f64,
    budget: Budget,
    work: &mut [f64],
    at: usize,
) -> Result<PointCursor, PointCursor>
    requires { at ≤ length work.old }
    ensures { Written work.old work.new at
        (without_draws (sharp_corners (point_in c) hw hh) budget) (result_ok result) }
{
    let west = c[0] - hw;
    let east = c[0] + hw;
    let south = c[1] - hh;
    let north = c[1] + hh;
    let d = put_point(west, south, budget, work, at)?;
    let d = put_point(east, south, budget, work, d.at)?;
    let d = put_point(east, north, budget, work, d.at)?;
    put_point(west, north, budget, work, d.at)
}

// A corner's quarter about c, from the angle `start` on, in `per` parts.
#[tactic(auto, unfolding(crate::specs::Densify::corner_point))]
fn corner(
    c: [f64; 2],
    r: f64,
    start: f64,
    per: usize,
    budget: Budget,
    work: &mut [f64],
    at: usize,
) -> Result<PointCursor, PointCursor>
    requires { (per < 4294967295) × (at ≤ length work.old) }
    ensures { Written work.old work.new at
        (without_draws (round_to (corner_point (point_in c) r start per) (suc per)) budget) (result_ok result) }
{
    put_points(
        per + 1,
        |k|
            requires { (k ≤ per) × (per < 4294967295) }
            ensures { point_in result ≡ corner_point (point_in c) r start per k }
        {
            let a = to_radians(start + 90.0 * (k as f64) / (per as f64));
            let v = sin_cos(a);
            [c[0] + r * v.cos, c[1] + r * v.sin]
        },
        budget,
        work,
        at,
    )
}

// The four quarters of a box with rounded corners, counter-clockwise from the south-west.
fn rounded_corners(
    c: [f64; 2],
    hw: f64,
    hh: f64,
    r: f64,
    per: usize,
    budget: Budget,
    work: &mut [f64],
    at: usize,
) -> Result<PointCursor, PointCursor>
    requires { (per < 4294967295) × (at ≤ length work.old) }
    ensures { Written work.old work.new at
        (without_draws (rounded_corners (point_in c) hw hh r per) budget) (result_ok result) }
{
    let west = c[0] - hw + r;
    let east = c[0] + hw - r;
    let south = c[1] - hh + r;
    let north = c[1] + hh - r;
    let d = corner([west, south], r, 180.0, per, budget, work, at)?;
    let d = corner([east, south], r, 270.0, per, budget, work, d.at)?;
    let d = corner([east, north], r, 0.0, per, budget, work, d.at)?;
    corner([west, north], r, 90.0, per, budget, work, d.at)
}

// A quarter of a full circle's vertices for each corner, two at least.
#[tactic(auto, unfolding(crate::specs::Densify::quarter_of), using(crate::specs::Laws::Counts::arc_within))]
fn quarter_of(step: f64, scale: f64, r: f64, tol: f64) -> usize
    ensures { result ≡ quarter_of step scale r tol }
{
    ((arc_vertices(step, scale, r, tol) + 3) / 4).max(2)
}

// The radius of a box's corners: half of its shorter side at most, 0 at least.
fn radius_of(w: f64, h: f64, rad: f64) -> f64
    ensures { result ≡ radius_of w h rad }
{
    min(min(max(rad, 0.0), w / 2.0), h / 2.0)
}

// A box's outline, closed; its corners are rounded where the radius is above 0.
pub fn box_ring(
    step: f64,
    scale: f64,
    tol: f64,
    c: [f64; 2],
    w: f64,
    h: f64,
    rad: f64,
    budget: Budget,
    work: &mut [f64],
    at: usize,
) -> Result<PointCursor, PointCursor>
    requires { at ≤ length work.old }
    ensures { Written work.old work.new at
        (box_ring_of step scale tol (point_in c) w h rad budget) (result_ok result) }
{
    let hw = w / 2.0;
    let hh = h / 2.0;
    let r = radius_of(w, h, rad);
    if r <= 0.0 {
        let t = budget.take(4, 4);
        let d = sharp_corners(c, hw, hh, t.budget, work, at)?;
        return close_ring(t.budget, work, at, d.at);
    }
    let t = budget.take(quarter_of(step, scale, r, tol) * 4, 8);
    let d = rounded_corners(c, hw, hh, r, t.granted / 4, t.budget, work, at)?;
    close_ring(t.budget, work, at, d.at)
}
