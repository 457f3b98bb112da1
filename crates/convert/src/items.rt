// Items, one after the other.
ghost use Rattle.std.specs.Prelude.{◌≡◌, cond, ◌+◌, ◌<◌, length, Ok, IfSome};
ghost use Rattle.stream.specs.Payload.{payload};
ghost use Rattle.stream.specs.Inner.Payload.{room};
ghost use Rattle.kind_table.specs.KindTable.{entry_of};
ghost use Rattle.scene.specs.Inner.Answers.{LabelsFrom, PathWithin, points_from, paths_from};
ghost use Rattle.scene.specs.Inner.Answers.{paths_by, items_at, item_by};
ghost use Rattle.convert.specs.Convert.{points_trace, paths_of, paths_trace, with_part};
ghost use Rattle.convert.specs.Convert.{item_of, items_of, convert_of};
ghost use Rattle.convert.specs.Inner.Outlines.{outlines_from};
ghost use Rattle.strokes.specs.Inner.Space.{state_by, output_by, Fits, Draws, DrawsQuietly};
ghost use Rattle.strokes.specs.Inner.Space.{CanDraw, box_trace, ellipse_trace};

use crate::shapes::{Shape, props_of, shape_of};
use densify::{box_ring, ellipse_ring};
use kind_table::entry_of;
use records::PointsRole;
use scene::{Item, Path, next_item, next_path, points_of};
use strokes::{
    Ctx, Props, State, draw_ring, load_path, load_points, point_feature, polyline_or_polygon, warn,
};
use values::{Refusal, WarningKind};

// A box, by its ring. A closure in place of this and `draw_ellipse` would be longer: each is its producer and one call.
fn draw_box(
    cx: Ctx,
    p: Props,
    x: f64,
    y: f64,
    w: f64,
    h: f64,
    rad: f64,
    work: &mut [f64],
    positions: &mut [f64],
    features: &mut [u32],
    st: State,
) -> Result<State, Refusal>
    requires { CanDraw positions.old features.old st }
    ensures { DrawsQuietly (box_trace cx p x y w h rad st.budget)
        work.old positions.old features.old st
        work.new positions.new features.new result }
{
    let scale = cx.projection.registration.scale;
    let d = box_ring(
        cx.step,
        scale,
        cx.flatten,
        [x, y],
        w,
        h,
        rad,
        st.budget,
        work,
        0,
    );
    draw_ring(cx, p, d, work, positions, features, st)
}

fn draw_ellipse(
    cx: Ctx,
    p: Props,
    x: f64,
    y: f64,
    rx: f64,
    ry: f64,
    work: &mut [f64],
    positions: &mut [f64],
    features: &mut [u32],
    st: State,
) -> Result<State, Refusal>
    requires { CanDraw positions.old features.old st }
    ensures { DrawsQuietly (ellipse_trace cx p x y rx ry st.budget)
        work.old positions.old features.old st
        work.new positions.new features.new result }
{
    let scale = cx.projection.registration.scale;
    let d = ellipse_ring(
        cx.step,
        scale,
        cx.flatten,
        [x, y],
        rx,
        ry,
        st.budget,
        work,
        0,
    );
    draw_ring(cx, p, d, work, positions, features, st)
}

// The points that follow an item, from `next` on.
fn draw_points(
    s: &[u8],
    cx: Ctx,
    p: Props,
    closed: bool,
    next: usize,
    work: &mut [f64],
    positions: &mut [f64],
    features: &mut [u32],
    warnings: &mut [u32],
    st: State,
) -> Result<State, Refusal>
    requires { Fits (output_by (length work.old) positions.old features.old warnings.old (Ok st))
        st.budget }
    ensures { Draws (points_trace cx p closed (points_from (payload s.now) next 0)
        (points_from (payload s.now) next 1) st.budget)
        work.old positions.old features.old warnings.old (Ok st)
        work.new positions.new features.new warnings.new result }
{
    let Some(points) = points_of(s, next, PointsRole::Drawn as u8) else {
        return warn(warnings, st, WarningKind::MissingGeometry, p.item);
    };
    let outline = points_of(s, next, PointsRole::Fill as u8);
    let l = load_points(s, closed, points, outline, st.budget, work);
    polyline_or_polygon(
        cx,
        p,
        closed,
        l,
        work,
        positions,
        features,
        warnings,
        Ok(st),
    )
}

// The next fill path from q on, none where none was left before.
fn next_outline(s: &[u8], q: Option<usize>) -> Option<Path>
    ensures q_value { outlines_from (payload s.now) q ≡ paths_by (payload s.now) 1 result }
    ensures path_within { IfSome result (λ o. IfSome q (λ p. PathWithin (room s.now) p o)) }
{
    q.and_then(|p| next_path(s, p, PointsRole::Fill as u8).ok())
}

// The part that a feature line tells of the i-th path: none where the item has one path alone.
fn part_of(p: Props, many: bool, i: usize) -> Props
    requires { i < 4294967295 }
    ensures { result ≡ with_part p (cond many (i + 1) 0) }
{
    let part = if many { i as u32 + 1 } else { 0 };
    Props { part, ..p }
}

// The paths that follow an item, each with the fill path of its index; `many` says that there is more than one.
fn draw_each(
    s: &[u8],
    cx: Ctx,
    p: Props,
    many: bool,
    next: usize,
    work: &mut [f64],
    positions: &mut [f64],
    features: &mut [u32],
    warnings: &mut [u32],
    st: State,
) -> Result<State, Refusal>
    requires { (room s.now < 4294967295)
        × Fits (output_by (length work.old) positions.old features.old warnings.old (Ok st)) st.budget }
    ensures { Draws (paths_of cx p many 0 (paths_from (payload s.now) next 0)
        (paths_from (payload s.now) next 1) st.budget)
        work.old positions.old features.old warnings.old (Ok st)
        work.new positions.new features.new warnings.new result }
{
    let mut state = st;
    let mut q = next;
    let mut o = Some(next);
    // The paths are followed by `next`, and counted for their parts.
    let mut i = 0usize;
    while let Ok(path) = next_path(s, q, PointsRole::Drawn as u8) {
        let outline = next_outline(s, o);
        let l = load_path(s, path, outline, cx.flatten, state.budget, work);
        let props = part_of(p, many, i);
        state = polyline_or_polygon(
            cx,
            props,
            path.closed,
            l,
            work,
            positions,
            features,
            warnings,
            Ok(state),
        )?;
        q = path.next;
        o = outline.map(|r| r.next);
        i += 1;
    }
    Ok(state)
}

fn draw_paths(
    s: &[u8],
    cx: Ctx,
    p: Props,
    next: usize,
    work: &mut [f64],
    positions: &mut [f64],
    features: &mut [u32],
    warnings: &mut [u32],
    st: State,
) -> Result<State, Refusal>
    requires { (room s.now < 4294967295)
        × Fits (output_by (length work.old) positions.old features.old warnings.old (Ok st)) st.budget }
    ensures { Draws (paths_trace cx p (paths_from (payload s.now) next 0)
        (paths_from (payload s.now) next 1) st.budget)
        work.old positions.old features.old warnings.old (Ok st)
        work.new positions.new features.new warnings.new result }
{
    let Ok(first) = next_path(s, next, PointsRole::Drawn as u8) else {
        return warn(warnings, st, WarningKind::MissingGeometry, p.item);
    };
    let many = next_path(s, first.next, PointsRole::Drawn as u8).is_ok();
    draw_each(
        s, cx, p, many, next, work, positions, features, warnings, st,
    )
}

// The i-th item, by the entry of its kind.
fn draw_item(
    s: &[u8],
    entry: u8,
    cx: Ctx,
    it: Item,
    i: u32,
    work: &mut [f64],
    positions: &mut [f64],
    features: &mut [u32],
    warnings: &mut [u32],
    st: State,
) -> Result<State, Refusal>
    requires { (room s.now < 4294967295)
        × Fits (output_by (length work.old) positions.old features.old warnings.old (Ok st)) st.budget }
    ensures { Draws (item_of entry cx i (item_by (payload s.now) it) st.budget)
        work.old positions.old features.old warnings.old (Ok st)
        work.new positions.new features.new warnings.new result }
{
    let p = props_of(it, i, entry);
    match shape_of(it, entry) {
        Shape::Box(x, y, w, h, rad) => draw_box(
            cx, p, x, y, w, h, rad, work, positions, features, st,
        ),
        Shape::Ellipse(x, y, w, h) => draw_ellipse(
            cx,
            p,
            x,
            y,
            w / 2.0,
            h / 2.0,
            work,
            positions,
            features,
            st,
        ),
        Shape::Circle(x, y, r) => draw_ellipse(cx, p, x, y, r, r, work, positions, features, st),
        Shape::Dot(x, y) => point_feature(cx, p, x, y, positions, features, Ok(st)),
        Shape::Points => draw_points(
            s, cx, p, it.closed, it.next, work, positions, features, warnings, st,
        ),
        Shape::Paths => draw_paths(s, cx, p, it.next, work, positions, features, warnings, st),
        Shape::Missing => warn(warnings, st, WarningKind::MissingGeometry, i),
        Shape::Nothing => Ok(st),
    }
}

fn draw_items(
    s: &[u8],
    kinds: &[u8],
    from: usize,
    cx: Ctx,
    work: &mut [f64],
    positions: &mut [f64],
    features: &mut [u32],
    warnings: &mut [u32],
    st: State,
) -> Result<State, Refusal>
    requires { (room s.now < 4294967295)
        × Fits (output_by (length work.old) positions.old features.old warnings.old (Ok st)) st.budget
        × LabelsFrom (payload s.now) from }
    ensures { Draws
        (items_of (entry_of kinds.now) cx 0 (items_at (payload s.now) 0) st.budget)
        work.old positions.old features.old warnings.old (Ok st)
        work.new positions.new features.new warnings.new result }
{
    let mut state = st;
    let mut q = from;
    // The items are followed by `next`, and counted for their feature lines.
    let mut i = 0usize;
    while let Ok(it) = next_item(s, q) {
        let entry = entry_of(kinds, it.kind.number());
        state = draw_item(
            s, entry, cx, it, i as u32, work, positions, features, warnings, state,
        )?;
        q = it.next;
        i += 1;
    }
    Ok(state)
}

// Every item of the scene, all of which stand from a position on, by the kind table; then the warning that the
// allowance was spent. A refusal is handed back.
pub fn convert(
    s: &[u8],
    kinds: &[u8],
    from: usize,
    cx: Ctx,
    work: &mut [f64],
    positions: &mut [f64],
    features: &mut [u32],
    warnings: &mut [u32],
    st: Result<State, Refusal>,
) -> Result<State, Refusal>
    requires { (room s.now < 4294967295)
        × Fits (output_by (length work.old) positions.old features.old warnings.old st)
        (state_by st).budget
        × LabelsFrom (payload s.now) from }
    ensures { Draws
        (convert_of (entry_of kinds.now) cx (items_at (payload s.now) 0) (state_by st).budget)
        work.old positions.old features.old warnings.old st
        work.new positions.new features.new warnings.new result }
{
    let st = st?;
    let r = draw_items(s, kinds, from, cx, work, positions, features, warnings, st)?;
    if !r.budget.hit {
        return Ok(r);
    }
    warn(warnings, r, WarningKind::AllowanceSpent, 0)
}
