// The fit of a similarity to control points, in two rounds, after the source's register.rs with its frame Mercator.
#![tactic(auto)]

ghost use Rattle.std.specs.Prelude.{◌≡◌, ◌≤◌, length, map, take};
ghost use Rattle.fit.specs.Fit.{projected_of, no_sums, added, means_of, divided_by, no_moments, momented, moments_of};
ghost use Rattle.fit.specs.Fit.{fit_at, solved_of, round_of, fit_projected, fit_of};

use elementary::{atan2, hypot, to_degrees};
use float::is_finite;
use geodesy::{LonLat, Metres, mercator_forward, mercator_inverse};

// A control point: a canvas point, and where it is on the Earth.
#[derive(Clone, Copy)]
pub struct Control {
    pub x: f64,
    pub y: f64,
    pub lon: f64,
    pub lat: f64,
}

// A control point with its position projected: east and north. Sums and means of these take this form too.
#[derive(Clone, Copy)]
pub struct ProjectedControl {
    pub x: f64,
    pub y: f64,
    pub e: f64,
    pub n: f64,
}

// The source's num_a, num_b and den.
#[derive(Clone, Copy)]
pub struct Moments {
    pub a: f64,
    pub b: f64,
    pub den: f64,
}

// What a fit found: the anchor, the canvas point that sits there, metres an inch, and degrees clockwise from north.
#[derive(Clone, Copy)]
pub struct Fit {
    pub lon: f64,
    pub lat: f64,
    pub x: f64,
    pub y: f64,
    pub scale: f64,
    pub bearing: f64,
}

// The control point with its position projected.
fn project_control(c: Control) -> ProjectedControl
    ensures { result ≡ projected_of c }
{
    let p = LonLat {
        lon: c.lon,
        lat: c.lat,
    };
    let m = mercator_forward(p);
    ProjectedControl {
        x: c.x,
        y: c.y,
        e: m.x,
        n: m.y,
    }
}

// One more point in the sums, about the anchor a.
fn add_control(a: Metres, s: ProjectedControl, m: ProjectedControl) -> ProjectedControl
    ensures { result ≡ added a s m }
{
    ProjectedControl {
        x: s.x + m.x,
        y: s.y + m.y,
        e: s.e + (m.e - a.x),
        n: s.n + (m.n - a.y),
    }
}

fn divide(s: ProjectedControl, k: f64) -> ProjectedControl
    ensures { result ≡ divided_by s k }
{
    ProjectedControl {
        x: s.x / k,
        y: s.y / k,
        e: s.e / k,
        n: s.n / k,
    }
}

// One more point in the moments, about the anchor a and the centroids c.
fn add_moment(a: Metres, c: ProjectedControl, s: Moments, m: ProjectedControl) -> Moments
    ensures { result ≡ momented a c s m }
{
    let dx = m.x - c.x;
    let dy = m.y - c.y;
    let ex = m.e - a.x - c.e;
    let ny = m.n - a.y - c.n;
    Moments {
        a: s.a + (dx * ex + dy * ny),
        b: s.b + (dx * ny - dy * ex),
        den: s.den + (dx * dx + dy * dy),
    }
}

// The similarity by its two numbers; none where the points coincide on the canvas or on the Earth.
fn fit_at(a: Metres, c: ProjectedControl, p: f64, q: f64) -> Option<Fit>
    ensures { result ≡ fit_at a c p q }
{
    let scale = hypot(p, q);
    if !is_finite(scale) {
        return None;
    }
    if !(0.0 < scale) {
        return None;
    }
    let m = Metres {
        x: a.x + c.e,
        y: a.y + c.n,
    };
    let anchor = mercator_inverse(m);
    Some(Fit {
        lon: anchor.lon,
        lat: anchor.lat,
        x: c.x,
        y: c.y,
        scale,
        bearing: to_degrees(atan2(-q, p)),
    })
}

// The similarity of these moments.
fn solve(a: Metres, c: ProjectedControl, s: Moments) -> Option<Fit>
    ensures { result ≡ solved_of a c s }
{
    if s.den <= 0.0 {
        return None;
    }
    if !is_finite(s.den) {
        return None;
    }
    fit_at(a, c, s.a / s.den, s.b / s.den)
}

// The sums of no point.
fn no_sums() -> ProjectedControl
    ensures { result ≡ no_sums }
{
    ProjectedControl {
        x: 0.0,
        y: 0.0,
        e: 0.0,
        n: 0.0,
    }
}

// The moments of no point.
fn no_moments() -> Moments
    ensures { result ≡ no_moments }
{
    Moments {
        a: 0.0,
        b: 0.0,
        den: 0.0,
    }
}

// The control points with their positions projected, at the front: each is projected once. By index: `zip` over
// `iter_mut` says nothing of the elements afterwards.
fn project_controls(controls: &[Control], projected: &mut [ProjectedControl])
    requires { length controls.now ≤ length projected.old }
    ensures front { take (length controls.now) projected.new ≡ map projected_of controls.now }
    ensures kept { length projected.new ≡ length projected.old }
{
    for (k, c) in controls.iter().enumerate() {
        projected[k] = project_control(*c);
    }
}

// The centroids of projected control points, about the anchor a.
fn means_of(a: Metres, projected: &[ProjectedControl]) -> ProjectedControl
    requires { length projected.now ≤ 64 }
    ensures { result ≡ means_of a projected.now }
{
    let mut s = no_sums();
    for m in projected {
        s = add_control(a, s, *m);
    }
    divide(s, projected.len() as f64)
}

// The moments of projected control points, about the anchor a and the centroids c.
fn moments_of(a: Metres, c: ProjectedControl, projected: &[ProjectedControl]) -> Moments
    ensures { result ≡ moments_of a c projected.now no_moments }
{
    let mut s = no_moments();
    for m in projected {
        s = add_moment(a, c, s, *m);
    }
    s
}

// One round, about the anchor a.
fn fit_about(a: Metres, projected: &[ProjectedControl]) -> Option<Fit>
    requires { length projected.now ≤ 64 }
    ensures { result ≡ round_of a projected.now }
{
    let c = means_of(a, projected);
    solve(a, c, moments_of(a, c, projected))
}

// Both rounds: the first is about the first point's position.
fn fit_projected(projected: &[ProjectedControl]) -> Option<Fit>
    requires { length projected.now ≤ 64 }
    ensures { result ≡ fit_projected projected.now }
{
    let m = projected.first()?;
    let f = fit_about(Metres { x: m.e, y: m.n }, projected)?;
    let at = LonLat {
        lon: f.lon,
        lat: f.lat,
    };
    fit_about(mercator_forward(at), projected)
}

// The fit to control points, of which there are 64 at most.
pub fn fit_points(controls: &[Control]) -> Option<Fit>
    requires { length controls.now ≤ 64 }
    ensures { result ≡ fit_of controls.now }
{
    let mut projected = [no_sums(); 64];
    project_controls(controls, &mut projected);
    fit_projected(&projected[..controls.len()])
}
