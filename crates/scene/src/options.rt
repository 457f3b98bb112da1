// `rescale` and the options.
#![tactic(auto, using(crate::proofs::Bounds::behind), unfolding(crate::specs::Scene::scene_of, stream::specs::Inner::Payload::rest))]

ghost use Rattle.std.specs.Prelude.{◌≡◌, ◌≤◌};
ghost use Rattle.stream.specs.Payload.{payload};
ghost use Rattle.records.specs.Inner.Hits.{records_at};
ghost use Rattle.records.specs.Inner.Numbers.{sheet_option_of};
ghost use Rattle.scene.specs.Scene.{scene_of, float_value_at, first};
ghost use Rattle.scene.specs.Inner.Answers.{frame_by};

use crate::fields::{Frame, float_at, point_from, value_of};
use records::{SheetOption, option_at};
use stream::byte;
use values::Point;

// An option that is one float.
fn float_option(s: &[u8], option: SheetOption) -> Option<f64>
    requires { 3 ≤ sheet_option_of option }
    ensures { result ≡ first (λ b. float_value_at b 2)
        (records_at (payload s.now) 0 2 (sheet_option_of option)) }
{
    let p = option_at(s, option.number())?;
    Some(float_at(s, p))
}

pub fn scale(s: &[u8]) -> Option<f64>
    ensures { result ≡ (scene_of (payload s.now)).scale }
{
    float_option(s, SheetOption::Scale)
}

pub fn bearing(s: &[u8]) -> Option<f64>
    ensures { result ≡ (scene_of (payload s.now)).bearing }
{
    float_option(s, SheetOption::Bearing)
}

pub fn view_scale(s: &[u8]) -> Option<f64>
    ensures { result ≡ (scene_of (payload s.now)).view_scale }
{
    float_option(s, SheetOption::ViewScale)
}

// The tolerance of curves, in inches.
pub fn flatten(s: &[u8]) -> f64
    ensures { result ≡ (scene_of (payload s.now)).flatten }
{
    value_of(records::flatten(s))
}

// The longest step between two positions, in metres.
pub fn step(s: &[u8]) -> f64
    ensures { result ≡ (scene_of (payload s.now)).step }
{
    value_of(records::sheet_step(s))
}

pub fn frame(s: &[u8]) -> Option<Frame>
    ensures { frame_by result ≡ (scene_of (payload s.now)).frame }
{
    let p = option_at(s, SheetOption::Frame as u8)?;
    if byte(s, 0, p) == 0 {
        return Some(Frame::Enu);
    }
    Some(Frame::Mercator)
}

pub fn anchor(s: &[u8]) -> Option<Point>
    ensures { result ≡ (scene_of (payload s.now)).anchor }
{
    let p = option_at(s, SheetOption::Anchor as u8)?;
    Some(point_from(s, p))
}

// The first record's float, 0 in a stream without a block.
pub fn rescale(s: &[u8]) -> f64
    ensures { result ≡ (scene_of (payload s.now)).rescale }
{
    if s.len() < 512 {
        return 0.0;
    }
    float_at(s, 1)
}
