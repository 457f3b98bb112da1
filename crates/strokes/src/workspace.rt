// The points of a line or a path and of its fill outline, laid out in the work slice.
ghost use Rattle.std.specs.Prelude.{◌+◌, ◌*◌, ◌≤◌, length};
ghost use Rattle.std.specs.Option.{ForSome};
ghost use Rattle.std.specs.Result.{ForOk, result_ok};
ghost use Rattle.stream.specs.Payload.{payload};
ghost use Rattle.stream.specs.Inner.Payload.{room};
ghost use Rattle.scene.specs.Scene.{points_at};
ghost use Rattle.scene.specs.Inner.Answers.{points_by};
ghost use Rattle.densify.specs.Inner.Written.{Written, drawn_by, PathFits};
ghost use Rattle.strokes.specs.Inner.Space.{most, closer, Loads, LoadsPath, LoadsOwn, LoadsOutline, outline_by};

use budget::Budget;
use densify::{PointCursor, close_ring, copy_points, path_points};
use scene::{Path, Points};
use values::Refusal;

// Where a shape's points end, where they end once closed, and where the closed outline behind them ends, where there is
// one. One point more has room behind them.
#[derive(Clone, Copy)]
pub struct Workspace {
    pub points: usize,
    pub ring: usize,
    pub outline: Option<usize>,
    pub budget: Budget,
}

// Points that end at own.at, closed where they are marked so.
fn close_if(closed: bool, own: PointCursor, work: &mut [f64]) -> Result<PointCursor, PointCursor>
    requires { own.at ≤ length work.old }
    ensures { Written work.old work.new own.at
        (closer closed work.old own.at own.budget) (result_ok result) }
{
    if closed {
        close_ring(own.budget, work, 0, own.at)
    } else {
        Ok(own)
    }
}

// Points that end at d.at, where they had room, closed where they are marked so.
fn load_own(
    closed: bool,
    d: Result<PointCursor, PointCursor>,
    work: &mut [f64],
) -> Result<Workspace, Refusal>
    requires { ForOk d (λ e. e.at ≤ length work.old) }
    ensures { LoadsOwn closed (result_ok d) work.old work.new result }
{
    let Ok(own) = d else {
        return Err(Refusal::WorkRoom);
    };
    let Ok(ring) = close_if(closed, own, work) else {
        return Err(Refusal::WorkRoom);
    };
    if work.len() - ring.at < 2 {
        return Err(Refusal::WorkRoom);
    }
    Ok(Workspace {
        points: own.at,
        ring: ring.at,
        outline: None,
        budget: own.budget,
    })
}

// An outline that stands from l.ring to d.at, where it had room, closed.
fn load_outline(
    l: Workspace,
    d: Result<PointCursor, PointCursor>,
    work: &mut [f64],
) -> Result<Workspace, Refusal>
    requires { ForOk d (λ e. (l.ring ≤ e.at) × (e.at ≤ length work.old)) }
    ensures { LoadsOutline l (result_ok d) work.old work.new result }
{
    let Ok(outline) = d else {
        return Err(Refusal::WorkRoom);
    };
    let Ok(ring) = close_ring(outline.budget, work, l.ring, outline.at) else {
        return Err(Refusal::WorkRoom);
    };
    if work.len() - ring.at < 2 {
        return Err(Refusal::WorkRoom);
    }
    Ok(Workspace {
        outline: Some(ring.at),
        budget: outline.budget,
        ..l
    })
}

// A line's points and those of its fill.
pub fn load_points(
    s: &[u8],
    closed: bool,
    points: Points,
    outline: Option<Points>,
    budget: Budget,
    work: &mut [f64],
) -> Result<Workspace, Refusal>
    requires { (points.at + 16 * points.count ≤ room s.now)
        × ForSome outline (λ o. o.at + 16 * o.count ≤ room s.now)
        × (budget.left ≤ most) }
    ensures { Loads work.old work.new closed
        (points_at (payload s.now) points.at points.count)
        (points_by (payload s.now) outline) budget result }
{
    let d = copy_points(s, points.at, usize::from(points.count), budget, work, 0);
    let l = load_own(closed, d, work)?;
    match outline {
        Some(o) => {
            let d = copy_points(s, o.at, usize::from(o.count), budget, work, l.ring);
            load_outline(l, d, work)
        }
        None => Ok(l),
    }
}

// A path's points and those of its fill path. As `load_points` with another producer: a closure would be longer.
pub fn load_path(
    s: &[u8],
    path: Path,
    outline: Option<Path>,
    tol: f64,
    budget: Budget,
    work: &mut [f64],
) -> Result<Workspace, Refusal>
    requires { PathFits (room s.now) path
        × ForSome outline (λ o. PathFits (room s.now) o)
        × (budget.left ≤ most) }
    ensures { LoadsPath work.old work.new tol
        (drawn_by (payload s.now) path)
        (outline_by (payload s.now) outline) budget result }
{
    let d = path_points(s, path, tol, budget, work, 0);
    let l = load_own(path.closed, d, work)?;
    match outline {
        Some(o) => {
            let d = path_points(s, o, tol, l.budget, work, l.ring);
            load_outline(l, d, work)
        }
        None => Ok(l),
    }
}
