// What options and `geo_` variables declare, read once.
ghost use Rattle.std.specs.Option.{option_or};
ghost use Rattle.std.specs.Prelude.{◌≡◌, not, ◌&&◌, is_some};
ghost use Rattle.stream.specs.Payload.{payload};
ghost use Rattle.scene.specs.Scene.{scene_of};
ghost use Rattle.scene.specs.Inner.Answers.{variables_at};
ghost use Rattle.register.specs.Register.{is_mercator, not_zero, both_of, only_one};
ghost use Rattle.register.specs.Inner.Survey.{Agrees, Declares};

use scene::Frame;
use values::Point;

// The variables geo_frame, geo_px and so on.
#[derive(Clone, Copy)]
pub struct Geo {
    pub frame: Option<f64>,
    pub px: Option<f64>,
    pub scale: Option<f64>,
    pub bearing: Option<f64>,
    pub lon: Option<f64>,
    pub lat: Option<f64>,
}

#[derive(Clone, Copy)]
pub struct Declared {
    // the frame is Mercator
    pub mercator: bool,
    // lengths are pixels
    pub px: bool,
    pub scale: Option<f64>,
    pub bearing: Option<f64>,
    pub anchor: Option<Point>,
    // one of geo_lon and geo_lat is set without the other, and no option
    pub half: bool,
    pub view: Option<f64>,
    pub rescale: f64,
}

// The frame is Mercator, by the option, else by the variable.
#[tactic(auto, unfolding(crate::specs::Register::is_mercator))]
fn is_mercator(s: &[u8], frame: Option<f64>) -> bool
    ensures { result ≡ is_mercator (scene_of (payload s.now)).frame frame }
{
    match scene::frame(s) {
        Some(Frame::Mercator) => true,
        Some(Frame::Enu) => false,
        None => frame.is_some_and(|x| x == 1.0),
    }
}

// Whether a variable is set, and not 0.
#[tactic(auto, unfolding(crate::specs::Register::not_zero))]
fn is_set(v: Option<f64>) -> bool
    ensures { result ≡ not_zero v }
{
    v.is_some_and(|x| x != 0.0)
}

// The position by the option, else by the variables.
#[tactic(auto, unfolding(crate::specs::Register::both_of))]
fn anchor_of(option: Option<Point>, lon: Option<f64>, lat: Option<f64>) -> Option<Point>
    ensures { result ≡ option_or option (both_of lon lat) }
{
    option.or(lon.zip(lat).map(|(x, y)| Point { x, y }))
}

fn is_half(option: Option<Point>, lon: Option<f64>, lat: Option<f64>) -> bool
    ensures { result ≡ not (is_some option) && only_one (is_some lon) (is_some lat) }
{
    option.is_none() && lon.is_some() != lat.is_some()
}

// What the options and these `geo_` variables declare.
pub fn read_declared(s: &[u8], g: Geo) -> Declared
    requires { Agrees (variables_at (payload s.now) 0) g }
    ensures { Declares (scene_of (payload s.now)) result }
{
    let anchor = scene::anchor(s);
    Declared {
        mercator: is_mercator(s, g.frame),
        px: is_set(g.px),
        scale: scene::scale(s).or(g.scale),
        bearing: scene::bearing(s).or(g.bearing),
        anchor: anchor_of(anchor, g.lon, g.lat),
        half: is_half(anchor, g.lon, g.lat),
        view: scene::view_scale(s),
        rescale: scene::rescale(s),
    }
}
