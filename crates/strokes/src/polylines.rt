// Lines, paths and rings: the source's polyline_or_polygon.
ghost use Rattle.std.specs.Prelude.{◌≡◌, ◌≤◌, length, take, IfOk};
ghost use Rattle.std.specs.Result.{result_ok};
ghost use Rattle.strokes.specs.Inner.Space.{state_by, output_by, most, Fits, KeepsFit, Bounds};
ghost use Rattle.strokes.specs.Inner.Space.{CanFill, CanDrawRing, Fills, DrawsLoaded, DrawsRing};

use crate::positions::{draw_without_writing, stroke};
use crate::state::{Ctx, Props, State};
use crate::workspace::Workspace;
use densify::{PointCursor, close_ring};
use geojson::{Geometry, Role};
use values::Refusal;

// A separate fill, of the outline where there is one, else of the points, closed.
fn fill(
    cx: Ctx,
    p: Props,
    l: Workspace,
    work: &mut [f64],
    positions: &mut [f64],
    features: &mut [u32],
    st: State,
) -> Result<State, Refusal>
    requires { CanFill l (length work.old) positions.old features.old st }
    ensures fills { Fills cx p l
        work.old positions.old features.old st
        work.new positions.new features.new result }
    ensures work_unchanged { take l.points work.new ≡ take l.points work.old }
    ensures keeps_fit { KeepsFit
        work.old positions.old features.old st
        work.new positions.new features.new result }
{
    if !p.fill {
        return Ok(st);
    }
    if let Some(end) = l.outline {
        if end - l.ring < 8 {
            return Ok(st);
        }
        return stroke(
            cx,
            p,
            Geometry::Polygon,
            Role::Fill,
            work,
            l.ring,
            end,
            positions,
            features,
            st,
        );
    }
    // One point more has room behind what was loaded.
    let ring = close_ring(st.budget, work, 0, l.points).ok().unwrap();
    if ring.at < 8 {
        return Ok(st);
    }
    stroke(
        cx,
        p,
        Geometry::Polygon,
        Role::Fill,
        work,
        0,
        ring.at,
        positions,
        features,
        st,
    )
}

// An open or closed stroke: a polygon, or a line with its fill before it. A refusal is handed back.
pub fn polyline_or_polygon(
    cx: Ctx,
    p: Props,
    closed: bool,
    l: Result<Workspace, Refusal>,
    work: &mut [f64],
    positions: &mut [f64],
    features: &mut [u32],
    warnings: &mut [u32],
    st: Result<State, Refusal>,
) -> Result<State, Refusal>
    requires { IfOk l (λ k. Bounds k (length work.old) × (k.budget.left ≤ most))
        × Fits (output_by (length work.old) positions.old features.old warnings.old st) (state_by st).budget }
    ensures { DrawsLoaded cx p closed l
        work.old positions.old features.old warnings.old st
        work.new positions.new features.new warnings.new result }
{
    let st = st?;
    let l = l?;
    let drawn = State {
        budget: l.budget,
        ..st
    };
    if l.points < 4 {
        return Ok(drawn);
    }
    if closed && l.ring >= 8 {
        return stroke(
            cx,
            p,
            Geometry::Polygon,
            Role::Drawn,
            work,
            0,
            l.ring,
            positions,
            features,
            drawn,
        );
    }
    let filled = fill(cx, p, l, work, positions, features, drawn)?;
    if closed {
        return draw_without_writing(cx, p.item, work, 0, l.points, warnings, filled);
    }
    stroke(
        cx,
        p,
        Geometry::Line,
        Role::Drawn,
        work,
        0,
        l.points,
        positions,
        features,
        filled,
    )
}

// A ring whose points end at d.at, where they had room.
pub fn draw_ring(
    cx: Ctx,
    p: Props,
    d: Result<PointCursor, PointCursor>,
    work: &[f64],
    positions: &mut [f64],
    features: &mut [u32],
    st: State,
) -> Result<State, Refusal>
    requires { CanDrawRing (result_ok d) (length work.now) positions.old features.old st }
    ensures { DrawsRing cx p (result_ok d)
        work.now positions.old features.old st
        positions.new features.new result }
{
    let Ok(ring) = d else {
        return Err(Refusal::WorkRoom);
    };
    if work.len() - ring.at < 2 {
        return Err(Refusal::WorkRoom);
    }
    stroke(
        cx,
        p,
        Geometry::Polygon,
        Role::Drawn,
        work,
        0,
        ring.at,
        positions,
        features,
        State {
            budget: ring.budget,
            ..st
        },
    )
}
