// The warnings of a registration, written once it is accepted.
ghost use Rattle.std.specs.Prelude.{◌≡◌, true, not, ◌&&◌, ◌+◌, ◌≤◌, length, take, drop, leb, is_some, IfOk};
ghost use Rattle.stream.specs.Payload.{payload};
ghost use Rattle.stream.specs.Inner.Payload.{room};
ghost use Rattle.records.specs.Records.{bytes_at};
ghost use Rattle.scene.specs.Scene.{Scene, scene_of};
ghost use Rattle.values.specs.Inner.Refusals.{kind_of};
ghost use Rattle.values.specs.Inner.Warnings.{cursor_by, all_pushed};
ghost use Rattle.register.specs.Register.{feature_events, variable_events, events, warnings_in, only};
ghost use Rattle.register.specs.Register.{any_declared, ignored_with, px_mode, register_warnings};
ghost use Rattle.register.specs.Inner.Survey.{Declares, Registrable};
ghost use Rattle.register.specs.Inner.Gathered.{KeptControls, KeptNumbers};
ghost use Rattle.register.specs.Inner.Warnings.{first_is, any_name_is, NamesFit, PositionRoom, AfterFeatures};
ghost use Rattle.register.specs.Inner.Warnings.{kind_by, Warned, used_of};

use crate::controls::{MAX_CONTROLS, first_cursor};
use crate::declared::Declared;
use crate::lat_lookup::PREFIX_STARTS;
use crate::mentions::{Mention, next_mention};
use crate::survey::Survey;
use scene::{name_at_equals, next_name};
use values::{NoRoom, WarningKind, push_warning};

// What the walk over the host features comes to: how many numbers of the warnings' slice are used, how many host
// features there are, and how many of them are control points.
#[derive(Clone, Copy)]
pub struct FeatureWarnings {
    pub used: usize,
    pub count: usize,
    pub controls: usize,
}

// Whether the k-th of the kept numbers is j.
fn is_kept(kept: &[u32], k: usize, j: usize) -> bool
    ensures { result ≡ first_is j (drop k kept.now) }
{
    k < kept.len() && kept[k] as usize == j
}

// Warns of each host feature that is no control point. Where the length of the name of each other one stands goes into
// `positions`.
fn warn_features(
    s: &[u8],
    kept: &[u32],
    positions: &mut [u32],
    out: &mut [u32],
    mut used: usize,
) -> Result<FeatureWarnings, NoRoom>
    requires { PositionRoom s.now positions.old × KeptNumbers (scene_of (payload s.now)) kept.now
        × (used ≤ length out.old) }
    ensures warned { Warned (warnings_in (feature_events (scene_of (payload s.now)) 0
        (scene_of (payload s.now)).features)) out.old used out.new (used_of result) }
    ensures after { IfOk result
        (λ f. (f.controls ≤ 64) × AfterFeatures s.now kept.now (take f.controls positions.new) f.count) }
{
    let mut controls = 0usize;
    let mut q = 0usize;
    // Counted by hand: behind `for i in 0..`, which has no end of its own, nothing can be answered.
    let mut i = 0usize;
    while let Ok(f) = next_name(s, q) {
        q = f.next;
        if is_kept(kept, controls, i) {
            positions[controls] = (f.at - 1) as u32;
            controls += 1;
        } else {
            used = push_warning(out, Ok(used), WarningKind::Unresolved.number(), i as u32)?;
        }
        i += 1;
    }
    Ok(FeatureWarnings {
        used,
        count: i,
        controls,
    })
}

// Whether a name at one of the positions is the n bytes at `at`.
fn is_feature_name(s: &[u8], positions: &[u32], at: usize, n: usize) -> bool
    requires { NamesFit s.now positions.now × (at + n ≤ room s.now) }
    ensures { result ≡ any_name_is (payload s.now) positions.now (bytes_at (payload s.now) at n) }
{
    for p in positions {
        if name_at_equals(s, *p as usize, at, n) {
            return true;
        }
    }
    false
}

// The kind of warning of a mention that is no control point, by whether a host feature has its name and resolves.
fn kind_of(s: &[u8], positions: &[u32], m: Mention) -> WarningKind
    requires { NamesFit s.now positions.now × (m.at + m.len ≤ room s.now) }
    ensures { kind_of result ≡ kind_by m.lat
        (any_name_is (payload s.now) positions.now (bytes_at (payload s.now) m.at m.len)) }
{
    if m.lat.is_some() && is_feature_name(s, positions, m.at, m.len) {
        WarningKind::Overridden
    } else {
        WarningKind::Unresolved
    }
}

// Warns of each `_lon` variable that is no control point, behind `features` host features, whose names that are control
// points stand at `positions`.
fn warn_lons(
    s: &[u8],
    v: Survey,
    kept: &[u32],
    positions: &[u32],
    features: usize,
    out: &mut [u32],
    mut used: usize,
) -> Result<usize, NoRoom>
    requires { Registrable s.now v × AfterFeatures s.now kept.now positions.now features
        × (used ≤ length out.old) }
    ensures { Warned (warnings_in (variable_events (scene_of (payload s.now)) 0
        (scene_of (payload s.now)).variables)) out.old used out.new result }
{
    let mut starts = [0usize; PREFIX_STARTS];
    let mut c = first_cursor(true, v);
    let mut k = positions.len();
    // Counted by hand: as host features are.
    let mut j = features;
    while let Ok(m) = next_mention(s, true, c, &mut starts) {
        c = m.next;
        if is_kept(kept, k, j) {
            k += 1;
        } else {
            used = push_warning(
                out,
                Ok(used),
                kind_of(s, positions, m).number(),
                m.index as u32,
            )?;
        }
        j += 1;
    }
    Ok(used)
}

// Warns of each name that is no control point. Where every name is one, no name is looked at.
fn warn_names(
    s: &[u8],
    v: Survey,
    kept: &[u32],
    out: &mut [u32],
    used: usize,
) -> Result<usize, NoRoom>
    requires { Registrable s.now v × KeptNumbers (scene_of (payload s.now)) kept.now
        × (used ≤ length out.old) }
    ensures { Warned (warnings_in (events (scene_of (payload s.now)))) out.old used out.new result }
{
    if v.name_count == kept.len() {
        return Ok(used);
    }
    let mut positions = [0u32; MAX_CONTROLS];
    let f = warn_features(s, kept, &mut positions, out, used)?;
    if v.lon_count == 0 {
        return Ok(f.used);
    }
    warn_lons(s, v, kept, &positions[..f.controls], f.count, out, f.used)
}

// A warning of the whole stream, if it is due.
fn warn_if(due: bool, kind: WarningKind, out: &mut [u32], used: usize) -> Result<usize, NoRoom>
    requires { used ≤ length out.old }
    ensures { Warned (only due (record { kind = kind_of kind; index = 0 })) out.old used out.new result }
{
    if due {
        push_warning(out, Ok(used), kind.number(), 0)
    } else {
        Ok(used)
    }
}

// Whether there is a view_scale without geo_px.
fn ignores_view_scale(d: Declared) -> bool
    ensures { (sc : Scene) → Declares sc d → result ≡ is_some sc.view_scale && not (px_mode sc) }
{
    d.view.is_some() && !d.px
}

// Whether a scale, a bearing or geo_px is declared.
#[tactic(auto, unfolding(crate::specs::Register::any_declared))]
fn declares(d: Declared) -> bool
    ensures { (sc : Scene) → Declares sc d → result ≡ any_declared sc }
{
    d.scale.is_some() || d.bearing.is_some() || d.px
}

// Whether n control points make ignored what is declared beside an anchor.
fn ignores_declared(d: Declared, n: usize) -> bool
    ensures { (sc : Scene) → Declares sc d → result ≡ leb 2 n && any_declared sc }
{
    n >= 2 && declares(d)
}

// Warns of what is ignored with n control points.
fn warn_ignored(d: Declared, out: &mut [u32], used: usize, n: usize) -> Result<usize, NoRoom>
    requires { used ≤ length out.old }
    ensures { (sc : Scene) → Declares sc d → Warned (ignored_with n sc) out.old used out.new result }
{
    if n == 0 {
        return Ok(used);
    }
    let used = warn_if(ignores_declared(d, n), WarningKind::Ignored, out, used)?;
    warn_if(d.anchor.is_some(), WarningKind::Ignored, out, used)
}

// All warnings of the registration of a stream that is laid out, with n control points, of the names that are kept.
pub fn write_warnings(
    s: &[u8],
    v: Survey,
    kept: &[u32],
    out: &mut [u32],
    n: u32,
) -> Result<usize, NoRoom>
    requires { Registrable s.now v × KeptControls (scene_of (payload s.now)) n kept.now }
    ensures { record { out = out.new; cursor = cursor_by result }
        ≡ all_pushed (register_warnings (scene_of (payload s.now)))
        (record { out = out.old; cursor = record { ok = true; used = 0 } }) }
{
    let d = v.declared;
    let n = n as usize;
    let used = warn_if(ignores_view_scale(d), WarningKind::ViewScale, out, 0)?;
    let used = warn_names(s, v, &kept[..n], out, used)?;
    // half an anchor
    let used = warn_if(d.half, WarningKind::Unresolved, out, used)?;
    warn_ignored(d, out, used, n)
}
