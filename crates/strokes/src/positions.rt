// Features: their positions, then their line.
ghost use Rattle.std.specs.Prelude.{◌≡◌, ◌+◌, ◌≤◌, length, Ok};
ghost use Rattle.values.specs.Inner.Points.{point_with, points_in};
ghost use Rattle.geojson.specs.Inner.Features.{geometry_of, role_of};
ghost use Rattle.strokes.specs.Strokes.{stroke_of, draw_without_writing, point_of};
ghost use Rattle.strokes.specs.Inner.Space.{behind_at, project_and_close, Rewrites, first_repeated_in, Finished};
ghost use Rattle.strokes.specs.Inner.Space.{state_by, Strokes, Warns, CanStroke};

use crate::state::{Ctx, Props, State, warn};
use budget::Budget;
use densify::{PointCursor, densify_polyline, put_point, spend_polyline};
use geojson::{FEATURE_WORDS, Feature, Geometry, Role, write_feature};
use projection::{Projection, geo, project_points};
use values::{Refusal, WarningKind};

// The last position of those from `from` to `to` becomes the first, bit for bit.
fn repeat_first_position(out: &mut [f64], from: usize, to: usize)
    requires { (from + 2 ≤ to) × (to ≤ length out.old) }
    ensures { out.new ≡ first_repeated_in out.old from to }
{
    out.copy_within(from..from + 2, to - 2);
}

// The points that a polyline left behind `at`, as d tells, become the positions of a line or a ring where they stand:
// carried to the Earth, and a ring's last the first.
fn project_and_close(
    t: Projection,
    geometry: Geometry,
    positions: &mut [f64],
    at: usize,
    d: PointCursor,
) -> PointCursor
    requires { (2 ≤ d.at) × (at + d.at ≤ length positions.old) }
    ensures { Rewrites (project_and_close t (geometry_of geometry)) positions.old positions.new at
        (behind_at at d) result }
{
    let end = at + d.at;
    let closed = PointCursor { at: end, ..d };
    project_points(t, positions, at, end);
    if geometry != Geometry::Polygon {
        return closed;
    }
    repeat_first_position(positions, at, end);
    closed
}

// The line of a feature whose positions stand from st.positions to `to`.
fn finish(
    p: Props,
    geometry: Geometry,
    role: Role,
    to: usize,
    count: u32,
    budget: Budget,
    features: &mut [u32],
    st: State,
) -> Result<State, Refusal>
    requires { st.features ≤ length features.old }
    ensures { Finished p (geometry_of geometry) (role_of role) to count budget
        features.old features.new st result }
{
    let line = Feature {
        item: p.item,
        geometry: geometry.number(),
        role: role.number(),
        placement: p.placement,
        part: p.part,
        count,
    };
    let at = st.features;
    if !write_feature(features, at, line) {
        return Err(Refusal::FeatureRoom);
    }
    Ok(State {
        positions: to,
        features: at + FEATURE_WORDS,
        budget,
        ..st
    })
}

// The points in `work` from `from` to `to`, densified and carried to the Earth: a line or a ring. The tail of the
// position slice is lent on to be filled.
pub fn stroke(
    cx: Ctx,
    p: Props,
    geometry: Geometry,
    role: Role,
    work: &[f64],
    from: usize,
    to: usize,
    positions: &mut [f64],
    features: &mut [u32],
    st: State,
) -> Result<State, Refusal>
    requires { CanStroke (length work.now) from to positions.old features.old st }
    ensures { Strokes (stroke_of cx p (geometry_of geometry) (role_of role)
        (points_in work.now from to) st.budget)
        positions.old features.old (Ok st) positions.new features.new result }
{
    let at = st.positions;
    let Ok(d) = densify_polyline(
        cx.step,
        cx.projection.registration.scale,
        work,
        from,
        to,
        st.budget,
        &mut positions[at..],
        0,
    ) else {
        return Err(Refusal::PositionRoom);
    };
    let closed = project_and_close(cx.projection, geometry, positions, at, d);
    finish(
        p,
        geometry,
        role,
        closed.at,
        ((closed.at - at) / 2) as u32,
        closed.budget,
        features,
        st,
    )
}

// A point. A refusal is handed back.
pub fn point_feature(
    cx: Ctx,
    p: Props,
    x: f64,
    y: f64,
    positions: &mut [f64],
    features: &mut [u32],
    st: Result<State, Refusal>,
) -> Result<State, Refusal>
    requires { ((state_by st).positions ≤ length positions.old)
        × ((state_by st).features ≤ length features.old) }
    ensures { Strokes (point_of cx p (point_with x y) (state_by st).budget)
        positions.old features.old st positions.new features.new result }
{
    let st = st?;
    let g = geo(cx.projection, x, y);
    let Ok(d) = put_point(g.lon, g.lat, st.budget, positions, st.positions) else {
        return Err(Refusal::PositionRoom);
    };
    finish(
        p,
        Geometry::Point,
        Role::Drawn,
        d.at,
        1,
        st.budget,
        features,
        st,
    )
}

// Fewer positions than a ring has: the draws stand, and a warning takes the place.
pub fn draw_without_writing(
    cx: Ctx,
    item: u32,
    work: &[f64],
    from: usize,
    to: usize,
    warnings: &mut [u32],
    st: State,
) -> Result<State, Refusal>
    requires { (from ≤ to) × (to ≤ length work.now) × (st.warnings ≤ length warnings.old) }
    ensures { Warns (draw_without_writing cx item (points_in work.now from to) st.budget)
        warnings.old st warnings.new result }
{
    let budget = spend_polyline(
        cx.step,
        cx.projection.registration.scale,
        work,
        from,
        to,
        st.budget,
    );
    warn(
        warnings,
        State { budget, ..st },
        WarningKind::MissingGeometry,
        item,
    )
}
