// Refusals 7 to 14, and the registration.
ghost use Rattle.std.specs.Prelude.{◌≡◌, ◌≤◌, length, IfOk};
ghost use Rattle.stream.specs.Payload.{payload};
ghost use Rattle.scene.specs.Scene.{Scene, scene_of};
ghost use Rattle.register.specs.Register.{anchor_within_limits, controls_of};
ghost use Rattle.register.specs.Inner.Survey.{Declares, Registrable};
ghost use Rattle.register.specs.Inner.Gathered.{Kept};
ghost use Rattle.register.specs.Inner.Outcome.{outcome_by, outcome_of, checked_of, declared_outcome};
ghost use Rattle.register.specs.Inner.Outcome.{fitted_outcome, Passed};

use crate::controls::{MAX_CONTROLS, gather, is_within_limits};
use crate::declared::Declared;
use crate::survey::Survey;
use fit::{Control, fit_points};
use float::is_finite;
use projection::Registration;
use values::{Point, Refusal};

// The largest effective scale, in metres an inch, and the one where none is declared.
const MAX_SCALE_M_PER_IN: f64 = 1e9;

const DEFAULT_SCALE_M_PER_IN: f64 = 100.0;

// How a registration was found: about an anchor or one control point, by two control points, or by a fit to more.
// Numbers are the header's.
#[derive(Clone, Copy)]
enum Method {
    Anchor = 0,
    TwoPoints = 1,
    Helmert = 2,
}

// The registration, unless condition 14 refuses its scale.
#[tactic(auto, unfolding(crate::specs::Inner::Outcome::checked_of))]
fn check_scale(r: Registration) -> Result<Registration, Refusal>
    ensures { outcome_by result ≡ checked_of r }
{
    if is_finite(r.scale) && r.scale <= MAX_SCALE_M_PER_IN {
        Ok(r)
    } else {
        Err(Refusal::MaxScale)
    }
}

// The registration by what is declared, with n control points, which puts the point `origin` of the canvas at the
// position `anchor`, unless one of the conditions 12 to 14 holds.
#[tactic(auto, unfolding(crate::specs::Inner::Outcome::declared_outcome, crate::specs::Register::scale_value, crate::specs::Register::above0, crate::specs::Register::effective_scale))]
fn declare(d: Declared, anchor: Point, origin: Point, n: u32) -> Result<Registration, Refusal>
    ensures { (sc : Scene) → Declares sc d → outcome_by result ≡ declared_outcome sc anchor origin n }
{
    let scale = d.scale.unwrap_or(DEFAULT_SCALE_M_PER_IN);
    if !(0.0 < scale) {
        return Err(Refusal::Scale);
    }
    let per_inch = if d.px {
        let view = d.view.ok_or(Refusal::ViewScale)?;
        if !(0.0 < view) {
            return Err(Refusal::ViewScale);
        }
        scale * view
    } else {
        scale
    };
    check_scale(Registration {
        lon: anchor.x,
        lat: anchor.y,
        x: origin.x,
        y: origin.y,
        scale: per_inch / d.rescale,
        bearing: d.bearing.unwrap_or(0.0),
        method: Method::Anchor as u32,
        controls: n,
    })
}

// The registration by a fit to two control points or more, unless condition 11 or 14 holds.
#[tactic(auto, unfolding(crate::specs::Inner::Outcome::fitted_outcome))]
fn fit_controls(controls: &[Control]) -> Result<Registration, Refusal>
    requires { length controls.now ≤ 64 }
    ensures { outcome_by result ≡ fitted_outcome controls.now }
{
    let f = fit_points(controls).ok_or(Refusal::Degenerate)?;
    let n = controls.len();
    let method = if n == 2 {
        Method::TwoPoints
    } else {
        Method::Helmert
    };
    check_scale(Registration {
        lon: f.lon,
        lat: f.lat,
        x: f.x,
        y: f.y,
        scale: f.scale,
        bearing: f.bearing,
        method: method as u32,
        controls: n as u32,
    })
}

// The registration by all control points, unless one of the conditions 10 to 14 holds.
fn register_by(d: Declared, controls: &[Control]) -> Result<Registration, Refusal>
    requires { length controls.now ≤ 64 }
    ensures { (sc : Scene) → Declares sc d → Passed sc → controls_of sc ≡ controls.now
        → outcome_by result ≡ outcome_of sc }
{
    match controls {
        [] => {
            let anchor = d.anchor.ok_or(Refusal::NoAnchor)?;
            declare(d, anchor, Point { x: 0.0, y: 0.0 }, 0)
        }
        [c] => declare(d, Point { x: c.lon, y: c.lat }, Point { x: c.x, y: c.y }, 1),
        _ => fit_controls(controls),
    }
}

// Whether the anchor, where there is one, is within condition 8's limits.
#[tactic(auto, unfolding(crate::specs::Register::anchor_within_limits))]
fn is_anchor_within_limits(anchor: Option<Point>) -> bool
    ensures { result ≡ anchor_within_limits anchor }
{
    anchor.is_none_or(|a| is_within_limits(a.x, a.y))
}

// The registration of a stream that the conditions before 7 let pass. Where it is accepted, `kept` has the numbers of
// the names that are control points.
pub fn register(s: &[u8], v: Survey, kept: &mut [u32]) -> Result<Registration, Refusal>
    requires { Registrable s.now v × (length kept.old ≡ 64) }
    ensures value { outcome_by result ≡ outcome_of (scene_of (payload s.now)) }
    ensures kept { IfOk result (λ r. Kept (scene_of (payload s.now)) kept.new) }
{
    let d = v.declared;
    if !d.mercator {
        return Err(Refusal::Frame);
    }
    let none = Control {
        x: 0.0,
        y: 0.0,
        lon: 0.0,
        lat: 0.0,
    };
    let mut controls = [none; MAX_CONTROLS];
    let g = gather(s, v, &mut controls, kept);
    if !g.within {
        return Err(Refusal::Outside);
    }
    if !is_anchor_within_limits(d.anchor) {
        return Err(Refusal::Outside);
    }
    if g.n > MAX_CONTROLS {
        return Err(Refusal::TooMany);
    }
    register_by(d, &controls[..g.n])
}
