// The producers of points as C symbols, for the comparison.
ghost use Rattle.std.specs.Prelude.{◌≡◌, true, false, map, length, ◌+◌, ◌*◌, ◌≤◌, ◌<◌, leb};
ghost use Rattle.std.specs.Result.{result_ok};
ghost use Rattle.stream.specs.Payload.{payload};
ghost use Rattle.stream.specs.Inner.Payload.{room};
ghost use Rattle.projection.specs.Projection.{projection_of, project_point};
ghost use Rattle.budget.specs.Budget.{fresh, take_of};
ghost use Rattle.densify.specs.Densify.{arc_vertices_of, segment_want, path_points_of, densify_polyline_of, ellipse_ring_of, box_ring_of};
ghost use Rattle.densify.specs.Inner.Written.{drawn_by, on_points};
ghost use Rattle.values.specs.Inner.Points.{points_in};
ghost use Rattle.test_host.specs.Inner.Answers.{path_of};
ghost use Rattle.test_host.specs.Inner.Drawings.{done_by, drawing_by, Shown, path_fits, undrawn};

use crate::answers::Path;
use budget::Budget;
use densify::{
    PointCursor, arc_vertices, box_ring, densify_polyline, ellipse_ring, path_points, segment_want,
};
use projection::{Registration, project_points, projection_of};

// Whether the points had room, where they end, and the budget after them.
#[repr(C)]
#[derive(Clone, Copy)]
pub struct Drawing {
    pub ok: bool,
    pub at: usize,
    pub left: usize,
    pub hit: bool,
}

// A draw's grant, and the budget after it.
#[repr(C)]
#[derive(Clone, Copy)]
pub struct Grant {
    pub granted: usize,
    pub left: usize,
    pub hit: bool,
}

// Each field, and which cursor the fields stand for.
impl From<Result<PointCursor, PointCursor>> for Drawing {
    ghost from_gives = { λ o r. (r ≡ drawing_by o) × (done_by r ≡ result_ok o) };

    fn from(o: Result<PointCursor, PointCursor>) -> Drawing {
        match o {
            Ok(d) => Drawing {
                ok: true,
                at: d.at,
                left: d.budget.left,
                hit: d.budget.hit,
            },
            Err(d) => Drawing {
                ok: false,
                at: d.at,
                left: d.budget.left,
                hit: d.budget.hit,
            },
        }
    }
}

fn fits(n: usize, at: usize, width: usize, count: usize) -> bool
    requires { (width ≤ 48) × (count < 65536) }
    ensures { result ≡ leb (at + width * count) n }
{
    if at > n {
        return false;
    }
    width * count <= n - at
}

#[tactic(auto, unfolding(crate::specs::Inner::Drawings::path_fits))]
fn is_path(n: usize, p: Path) -> bool
    ensures { result ≡ path_fits n p }
{
    let count = p.count as usize;
    if !p.curve {
        return fits(n, p.at, 16, count);
    }
    if !fits(n, p.start, 16, 1) {
        return false;
    }
    fits(n, p.at, 48, count)
}

// The points of a path that stands in a payload; nothing is written where it does not lie within.
#[tactic(auto, using(crate::proofs::Lengths::lengths, records::specs::Laws::Tests::and_left, records::specs::Laws::Tests::and_right), unfolding(crate::specs::Inner::Drawings::path_fits, stream::specs::Inner::Payload::rest))]
#[unsafe(no_mangle)]
pub extern "C" fn densify_path(
    s: &[u8],
    p: Path,
    tol: f64,
    left: usize,
    work: &mut [f64],
) -> Drawing
    ensures shown { path_fits (room s.now) p ≡ true
        → Shown work.old work.new
        (path_points_of tol (drawn_by (payload s.now) (path_of p)) (fresh left)) result }
    ensures work_unchanged { path_fits (room s.now) p ≡ false
        → (work.new ≡ work.old) × (result ≡ undrawn left) }
{
    if !is_path(stream::remaining(s, 0), p) {
        return Drawing {
            ok: false,
            at: 0,
            left,
            hit: false,
        };
    }
    let b = Budget { left, hit: false };
    let path = scene::Path {
        closed: p.closed,
        curve: p.curve,
        start: p.start,
        at: p.at,
        count: p.count,
        next: p.next,
    };
    path_points(s, path, tol, b, work, 0).into()
}

#[unsafe(no_mangle)]
pub extern "C" fn densify_ellipse(
    step: f64,
    scale: f64,
    tol: f64,
    x: f64,
    y: f64,
    rx: f64,
    ry: f64,
    left: usize,
    work: &mut [f64],
) -> Drawing
    ensures { Shown work.old work.new
        (ellipse_ring_of step scale tol (record { x = x; y = y }) rx ry (fresh left)) result }
{
    let b = Budget { left, hit: false };
    ellipse_ring(step, scale, tol, [x, y], rx, ry, b, work, 0).into()
}

#[unsafe(no_mangle)]
pub extern "C" fn densify_box(
    step: f64,
    scale: f64,
    tol: f64,
    x: f64,
    y: f64,
    w: f64,
    h: f64,
    rad: f64,
    left: usize,
    work: &mut [f64],
) -> Drawing
    ensures { Shown work.old work.new
        (box_ring_of step scale tol (record { x = x; y = y }) w h rad (fresh left)) result }
{
    let b = Budget { left, hit: false };
    box_ring(step, scale, tol, [x, y], w, h, rad, b, work, 0).into()
}

// The positions of the polyline in `work`.
#[unsafe(no_mangle)]
pub extern "C" fn densify_line(
    reg: Registration,
    step: f64,
    work: &[f64],
    left: usize,
    out: &mut [f64],
) -> Drawing
    ensures { Shown out.old out.new
        (on_points (map (project_point (projection_of reg)))
        (densify_polyline_of step reg.scale (points_in work.now 0 (length work.now))
        (fresh left))) result }
{
    let b = Budget { left, hit: false };
    let d = densify_polyline(step, reg.scale, work, 0, work.len(), b, out, 0);
    if let Ok(cursor) = d {
        project_points(projection_of(reg), out, 0, cursor.at);
    }
    d.into()
}

// What a segment and a full circle want, and a draw: what the draw lists are made of.
#[unsafe(no_mangle)]
pub extern "C" fn densify_segment_want(
    step: f64,
    scale: f64,
    ax: f64,
    ay: f64,
    bx: f64,
    by: f64,
) -> usize
    ensures { result ≡ segment_want step scale (record { x = ax; y = ay }) (record { x = bx; y = by }) }
{
    segment_want(step, scale, [ax, ay], [bx, by])
}

#[unsafe(no_mangle)]
pub extern "C" fn densify_arc_vertices(step: f64, scale: f64, radius: f64, tol: f64) -> usize
    ensures { result ≡ arc_vertices_of step scale radius tol }
{
    arc_vertices(step, scale, radius, tol)
}

#[unsafe(no_mangle)]
pub extern "C" fn densify_draw(left: usize, hit: bool, want: usize, floor: usize) -> Grant
    ensures { record { granted = result.granted; budget = record { left = result.left; hit = result.hit } }
        ≡ take_of (record { left = left; hit = hit }) want floor }
{
    let b = Budget { left, hit };
    let t = b.take(want, floor);
    let after = t.budget;
    Grant {
        granted: t.granted,
        left: after.left,
        hit: after.hit,
    }
}
