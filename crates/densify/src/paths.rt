// The points of a path, in the order in which it is drawn.
ghost use Rattle.std.specs.Prelude.{◌≡◌, ◌+◌, ◌*◌, ◌≤◌, length};
ghost use Rattle.std.specs.Result.{result_ok};
ghost use Rattle.stream.specs.Payload.{payload};
ghost use Rattle.stream.specs.Inner.Payload.{room};
ghost use Rattle.scene.specs.Scene.{point_at, points_at, cubics_at};
ghost use Rattle.values.specs.Inner.Points.{point_in};
ghost use Rattle.scene.specs.Inner.Answers.{form_by};
ghost use Rattle.densify.specs.Densify.{without_draws, cubics_of, form_points, path_points_of};
ghost use Rattle.densify.specs.Inner.Written.{Written, drawn_by, PathFits};

use crate::append::{PointCursor, close_ring, put_point, put_points};
use crate::cubic::flatten_cubic;
use budget::Budget;
use scene::{Path, point_at};

// The points that stand from `from` on in the payload.
pub fn copy_points(
    s: &[u8],
    from: usize,
    count: usize,
    budget: Budget,
    work: &mut [f64],
    at: usize,
) -> Result<PointCursor, PointCursor>
    requires { (from + 16 * count ≤ room s.now) × (at ≤ length work.old) }
    ensures { Written work.old work.new at
        (without_draws (points_at (payload s.now) from count) budget) (result_ok result) }
{
    put_points(
        count,
        |i|
            requires { from + 16 * i + 16 ≤ room s.now }
            ensures { point_in result ≡ point_at (payload s.entry.now) (from + 16 * i) }
        {
            let p = point_at(s, from, i);
            [p.x, p.y]
        },
        budget,
        work,
        at,
    )
}

// The cubics that stand from `from` on, the first of which starts at `start`.
fn flatten_cubics(
    s: &[u8],
    from: usize,
    count: usize,
    start: [f64; 2],
    tol: f64,
    budget: Budget,
    work: &mut [f64],
    at: usize,
) -> Result<PointCursor, PointCursor>
    requires { (from + 48 * count ≤ room s.now) × (at ≤ length work.old) }
    ensures { Written work.old work.new at
        (cubics_of tol (point_in start) (cubics_at (payload s.now) from count) budget) (result_ok result) }
{
    let mut p0 = start;
    let mut done = PointCursor { at, budget };
    for i in 0..count {
        let c1 = point_at(s, from, 3 * i);
        let c2 = point_at(s, from, 3 * i + 1);
        let end = point_at(s, from, 3 * i + 2);
        let block = [p0, [c1.x, c1.y], [c2.x, c2.y], [end.x, end.y]];
        done = flatten_cubic(block, tol, done.budget, work, done.at)?;
        p0 = block[3];
    }
    Ok(done)
}

fn form_points(
    s: &[u8],
    p: Path,
    tol: f64,
    budget: Budget,
    work: &mut [f64],
    at: usize,
) -> Result<PointCursor, PointCursor>
    requires { PathFits (room s.now) p × (at ≤ length work.old) }
    ensures { Written work.old work.new at
        (form_points tol (form_by (payload s.now) p) budget) (result_ok result) }
{
    let count = p.count as usize;
    if !p.curve {
        return copy_points(s, p.at, count, budget, work, at);
    }
    let start = point_at(s, p.start, 0);
    let d = put_point(start.x, start.y, budget, work, at)?;
    flatten_cubics(
        s,
        p.at,
        count,
        [start.x, start.y],
        tol,
        d.budget,
        work,
        d.at,
    )
}

// The points of a path; a closed one ends with its first.
pub fn path_points(
    s: &[u8],
    p: Path,
    tol: f64,
    budget: Budget,
    work: &mut [f64],
    at: usize,
) -> Result<PointCursor, PointCursor>
    requires { PathFits (room s.now) p × (at ≤ length work.old) }
    ensures { Written work.old work.new at
        (path_points_of tol (drawn_by (payload s.now) p) budget) (result_ok result) }
{
    let d = form_points(s, p, tol, budget, work, at)?;
    if !p.closed {
        return Ok(d);
    }
    close_ring(d.budget, work, at, d.at)
}
