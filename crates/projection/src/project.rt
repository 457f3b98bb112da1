// A line of canvas points carried to the Earth where it stands. Each pass does one stage for all points: within a point
// the stages wait for each other, between points they do not. A value that equals the one before it, as the ordinate of
// a line that runs east, is not worked out again. By number: `chunks_exact_mut` says nothing of the elements
// afterwards.
ghost use Rattle.std.specs.Prelude.{◌≡◌, true, false, ◌≤◌, length, Float};
ghost use Rattle.std.specs.Float.Ieee.{is_nan};
ghost use Rattle.projection.specs.Inner.Stages.{plane_stage_by, AreOf, on_y};
ghost use Rattle.geodesy.specs.Inner.Stages.{exp_ordinate_of};
ghost use Rattle.values.specs.Inner.Points.{in_place};
ghost use Rattle.projection.specs.Projection.{project_point};

use crate::{Projection, plane_stage, rounded_latitude};
use elementary::{atan_first, atan_second};
use float::same_value;
use geodesy::{exp_ordinate, exp_ordinate_both};

// Whether ax is bx, and ay by.
fn same_values(ax: f64, ay: f64, bx: f64, by: f64) -> bool
    ensures ax_value { result ≡ true → (ax ≡ bx) × (ay ≡ by) }
    ensures value { is_nan ax ≡ false → is_nan ay ≡ false → ax ≡ bx → ay ≡ by → result ≡ true }
{
    same_value(ax, bx) && same_value(ay, by)
}

// The longitude of each point, and its ordinate.
fn plane_stage_points(t: Projection, out: &mut [f64], from: usize, to: usize)
    requires { (from ≤ to) × (to ≤ length out.old) }
    ensures { out.new ≡ in_place (plane_stage_by t) out.old from to }
{
    if to - from < 2 {
        return;
    }
    let mut last_x = out[from];
    let mut last_y = out[from + 1];
    let mut g = plane_stage(t, last_x, last_y);
    for k in 0..(to - from) / 2 {
        let i = from + 2 * k;
        let x = out[i];
        let y = out[i + 1];
        if !same_values(x, y, last_x, last_y) {
            g = plane_stage(t, x, y);
        }
        last_x = x;
        last_y = y;
        out[i] = g.lon;
        out[i + 1] = g.lat;
    }
}

// The exponential of each ordinate, two at a time.
fn exp_points(out: &mut [f64], from: usize, to: usize)
    requires { (from ≤ to) × (to ≤ length out.old) }
    ensures { out.new ≡ in_place (on_y exp_ordinate_of) out.old from to }
{
    let mut last = 0.0 / 0.0; // no ordinate is the same
    let mut made = last;
    let pairs = (to - from) / 4;
    for k in 0..pairs {
        let i = from + 4 * k;
        let v = out[i + 1];
        let w = out[i + 3];
        let mut e = [made; 2];
        if !same_values(v, w, last, last) {
            e = exp_ordinate_both(v, w);
        }
        last = w;
        made = e[1];
        out[i + 1] = e[0];
        out[i + 3] = e[1];
    }
    let i = from + 4 * pairs;
    if to - i >= 2 {
        let v = out[i + 1];
        if !same_value(v, last) {
            made = exp_ordinate(v);
        }
        out[i + 1] = made;
    }
}

// One stage of the latitude of each point: f of its y.
fn stage_points<F: Fn(f64) -> f64>(f: F, out: &mut [f64], from: usize, to: usize)
    requires callable { F.IsAlwaysCallable f }
    requires within { (from ≤ to) × (to ≤ length out.old) }
    ensures { (g : Float → Float) → AreOf (F.post f) g → out.new ≡ in_place (on_y g) out.old from to }
{
    if to - from < 2 {
        return;
    }
    let mut last = out[from + 1];
    let mut made = f(last);
    for k in 0..(to - from) / 2 {
        let i = from + 2 * k;
        let v = out[i + 1];
        if !same_value(v, last) {
            made = f(v);
        }
        last = v;
        out[i + 1] = made;
    }
}

// The positions of the points that stand in `out` from `from` to `to`.
pub fn project_points(t: Projection, out: &mut [f64], from: usize, to: usize)
    requires { (from ≤ to) × (to ≤ length out.old) }
    ensures { out.new ≡ in_place (project_point t) out.old from to }
{
    plane_stage_points(t, out, from, to);
    exp_points(out, from, to);
    stage_points(atan_first, out, from, to);
    stage_points(atan_second, out, from, to);
    stage_points(rounded_latitude, out, from, to);
}
