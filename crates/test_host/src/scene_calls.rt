// The refusals of a stream and the questions to its scene as C symbols, for the comparison.
ghost use Rattle.std.specs.Prelude.{◌≡◌};
ghost use Rattle.stream.specs.Payload.{payload};
ghost use Rattle.records.specs.Inner.Refusals.{refusal_of};
ghost use Rattle.scene.specs.Scene.{scene_of};
ghost use Rattle.scene.specs.Inner.Answers.{features_at, variables_at, places_at, items_at, points_from, paths_from};
ghost use Rattle.test_host.specs.Inner.Answers.{float_in, point_in, frame_in, features_in, variables_in, places_in};
ghost use Rattle.test_host.specs.Inner.Answers.{items_in, points_in, paths_in};
ghost use Rattle.test_host.specs.Inner.Guarded.{spot_in, label_in};

use crate::answers::{
    Feature, FrameOption, Item, OptionalFloat, OptionalPoint, Path, Place, Points, Variable,
};

#[unsafe(no_mangle)]
pub extern "C" fn scene_refusal(s: &[u8]) -> u32
    ensures { result ≡ refusal_of s.now }
{
    match records::check_stream(s) {
        Ok(()) => 0,
        Err(r) => r.number(),
    }
}

#[unsafe(no_mangle)]
pub extern "C" fn scene_rescale(s: &[u8]) -> f64
    ensures { result ≡ (scene_of (payload s.now)).rescale }
{
    scene::rescale(s)
}

#[unsafe(no_mangle)]
pub extern "C" fn scene_frame(s: &[u8]) -> FrameOption
    ensures { frame_in result ≡ (scene_of (payload s.now)).frame }
{
    scene::frame(s).into()
}

#[unsafe(no_mangle)]
pub extern "C" fn scene_anchor(s: &[u8]) -> OptionalPoint
    ensures { point_in result ≡ (scene_of (payload s.now)).anchor }
{
    scene::anchor(s).into()
}

#[unsafe(no_mangle)]
pub extern "C" fn scene_scale(s: &[u8]) -> OptionalFloat
    ensures { float_in result ≡ (scene_of (payload s.now)).scale }
{
    scene::scale(s).into()
}

#[unsafe(no_mangle)]
pub extern "C" fn scene_bearing(s: &[u8]) -> OptionalFloat
    ensures { float_in result ≡ (scene_of (payload s.now)).bearing }
{
    scene::bearing(s).into()
}

#[unsafe(no_mangle)]
pub extern "C" fn scene_flatten(s: &[u8]) -> f64
    ensures { result ≡ (scene_of (payload s.now)).flatten }
{
    scene::flatten(s)
}

#[unsafe(no_mangle)]
pub extern "C" fn scene_step(s: &[u8]) -> f64
    ensures { result ≡ (scene_of (payload s.now)).step }
{
    scene::step(s)
}

#[unsafe(no_mangle)]
pub extern "C" fn scene_view_scale(s: &[u8]) -> OptionalFloat
    ensures { float_in result ≡ (scene_of (payload s.now)).view_scale }
{
    scene::view_scale(s).into()
}

#[unsafe(no_mangle)]
pub extern "C" fn scene_feature(s: &[u8], p: usize) -> Feature
    ensures { features_at (payload s.now) p ≡ features_in (payload s.now) result }
{
    scene::next_feature(s, p).into()
}

#[unsafe(no_mangle)]
pub extern "C" fn scene_variable(s: &[u8], p: usize) -> Variable
    ensures { variables_at (payload s.now) p ≡ variables_in (payload s.now) result }
{
    scene::next_variable(s, p).into()
}

#[unsafe(no_mangle)]
pub extern "C" fn scene_place(s: &[u8], p: usize) -> Place
    ensures { places_at (payload s.now) p ≡ places_in (payload s.now) result }
{
    scene::next_place(s, p).into()
}

#[unsafe(no_mangle)]
pub extern "C" fn scene_item(s: &[u8], p: usize) -> Item
    ensures { items_at (payload s.now) p ≡ items_in (payload s.now) result }
{
    scene::next_item(s, p).into()
}

#[unsafe(no_mangle)]
pub extern "C" fn scene_points(s: &[u8], p: usize, role: u8) -> Points
    ensures { points_from (payload s.now) p role ≡ points_in (payload s.now) result }
{
    scene::points_of(s, p, role).into()
}

#[unsafe(no_mangle)]
pub extern "C" fn scene_path(s: &[u8], p: usize, role: u8) -> Path
    ensures { paths_from (payload s.now) p role ≡ paths_in (payload s.now) role result }
{
    scene::next_path(s, p, role).into()
}

// The i-th point of those from `at` on, if the payload goes that far.
#[tactic(auto, using(crate::proofs::Lengths::lengths), unfolding(crate::specs::Inner::Guarded::spot_in, stream::specs::Inner::Payload::rest))]
#[unsafe(no_mangle)]
pub extern "C" fn scene_point(s: &[u8], at: usize, i: usize) -> OptionalPoint
    ensures { point_in result ≡ spot_in (payload s.now) at i }
{
    let room = stream::remaining(s, 0);
    if at > room {
        return None.into();
    }
    if i >= (room - at) / 16 {
        return None.into();
    }
    Some(scene::point_at(s, at, i)).into()
}

// The point that the label of n bytes at `at` names, if the payload goes that far.
#[tactic(auto, using(crate::proofs::Lengths::lengths), unfolding(crate::specs::Inner::Guarded::label_in, scene::specs::Scene::scene_of, stream::specs::Inner::Payload::rest))]
#[unsafe(no_mangle)]
pub extern "C" fn scene_label(s: &[u8], at: usize, n: usize) -> OptionalPoint
    ensures { point_in result ≡ label_in (payload s.now) at n }
{
    let room = stream::remaining(s, 0);
    if at > room {
        return None.into();
    }
    if n > room - at {
        return None.into();
    }
    scene::point_of_label(s, 0, at, n).into()
}
