// Floats and points of the payload, and bits of a byte.
ghost use Rattle.std.specs.Prelude.{◌≡◌, true, ◌+◌, ◌*◌, ◌≤◌};
ghost use Rattle.stream.specs.Payload.{payload};
ghost use Rattle.stream.specs.Inner.Payload.{room};
ghost use Rattle.scene.specs.Scene.{bit, value_of, float_value_at, point_at};
ghost use Rattle.values.specs.Options.{given};

use values::Point;

// A frame that the options may name.
#[derive(Clone, Copy)]
pub enum Frame {
    Enu,
    Mercator,
}

// A float's value: 0 stands for one that is not finite, which condition 4 refuses.
#[tactic(auto, unfolding(crate::specs::Scene::value_of))]
pub fn value_of(x: Option<f64>) -> f64
    ensures { result ≡ value_of x }
{
    x.unwrap_or(0.0)
}

// The value of the float at p.
#[tactic(auto, using(crate::proofs::Bounds::lengths, stream::specs::Laws::Numbers::float_read), unfolding(crate::specs::Scene::float_value_at, stream::specs::Inner::Payload::rest))]
pub fn float_at(s: &[u8], p: usize) -> f64
    requires { p + 8 ≤ room s.now }
    ensures { result ≡ float_value_at (payload s.now) p }
{
    value_of(stream::float_of(stream::u64_at(s, 0, p)))
}

// The point at p.
#[tactic(auto, unfolding(crate::specs::Scene::point_at))]
pub fn point_from(s: &[u8], p: usize) -> Point
    requires { p + 16 ≤ room s.now }
    ensures { result ≡ point_at (payload s.now) p }
{
    Point {
        x: float_at(s, p),
        y: float_at(s, p + 8),
    }
}

// The float at p, or none.
pub fn float_if(s: &[u8], some: bool, p: usize) -> Option<f64>
    requires { some ≡ true → p + 8 ≤ room s.now }
    ensures { result ≡ given some (float_value_at (payload s.now) p) }
{
    if some {
        return Some(float_at(s, p));
    }
    None
}

// The point at p, or none.
pub fn point_if(s: &[u8], some: bool, p: usize) -> Option<Point>
    requires { some ≡ true → p + 16 ≤ room s.now }
    ensures { result ≡ given some (point_at (payload s.now) p) }
{
    if some {
        return Some(point_from(s, p));
    }
    None
}

// The i-th point of those from `at` on.
pub fn point_at(s: &[u8], at: usize, i: usize) -> Point
    requires { at + 16 * i + 16 ≤ room s.now }
    ensures { result ≡ point_at (payload s.now) (at + 16 * i) }
{
    point_from(s, at + 16 * i)
}

// Whether the bit of weight k is set.
#[tactic(auto, unfolding(crate::specs::Scene::bit))]
pub fn has_bit(x: u8, k: u8) -> bool
    requires { 1 ≤ k }
    ensures { result ≡ bit x k }
{
    x / k % 2 == 1
}
