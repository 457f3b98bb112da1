// Web Mercator, EPSG:3857, after the source's geodesy.rs.
#![tactic(auto)]

ghost use Rattle.std.specs.Prelude.{◌≡◌, [], ◌∷◌};
ghost use Rattle.geodesy.specs.Geodesy.{normalize_lon_of, mercator_forward_of, mercator_inverse_of};
ghost use Rattle.geodesy.specs.Inner.Stages.{longitude_of, exp_ordinate_of, latitude_of};

use elementary::{atan, exp, exp_both, ln, tan, to_degrees, to_radians};
use float::rem_euclid_360;
use std::f64::consts::{FRAC_PI_2, FRAC_PI_4};

// The radius of the projection's sphere, in metres.
const MERCATOR_RADIUS: f64 = 6378137.0;

// A WGS84 position, in degrees.
#[repr(C)]
#[derive(Clone, Copy)]
pub struct LonLat {
    pub lon: f64,
    pub lat: f64,
}

// A position on the projection's plane, in metres.
#[derive(Clone, Copy)]
pub struct Metres {
    pub x: f64,
    pub y: f64,
}

// A longitude above -180 and up to 180.
pub fn normalize_lon(lon: f64) -> f64
    ensures { result ≡ normalize_lon_of lon }
{
    let l = rem_euclid_360(lon + 180.0) - 180.0;
    if l == -180.0 {
        return 180.0;
    }
    l
}

// The position on the plane of a position on the sphere.
pub fn mercator_forward(p: LonLat) -> Metres
    ensures { result ≡ mercator_forward_of p }
{
    let x = MERCATOR_RADIUS * to_radians(p.lon);
    let phi = to_radians(p.lat);
    let y = MERCATOR_RADIUS * ln(tan(FRAC_PI_4 + phi / 2.0));
    Metres { x, y }
}

// The longitude of an abscissa.
pub fn longitude(x: f64) -> f64
    ensures { result ≡ longitude_of x }
{
    normalize_lon(to_degrees(x / MERCATOR_RADIUS))
}

// The exponential of an ordinate over the radius.
pub fn exp_ordinate(y: f64) -> f64
    ensures { result ≡ exp_ordinate_of y }
{
    exp(y / MERCATOR_RADIUS)
}

// The exponentials of two ordinates over the radius, side by side. Apart from `exp_ordinate`, as `exp_both` is from
// `exp`.
pub fn exp_ordinate_both(y: f64, z: f64) -> [f64; 2]
    ensures { result ≡ exp_ordinate_of y ∷ exp_ordinate_of z ∷ [] }
{
    exp_both(y / MERCATOR_RADIUS, z / MERCATOR_RADIUS)
}

// The latitude for a, the arc tangent of what `exp_ordinate` gives.
pub fn latitude(a: f64) -> f64
    ensures { result ≡ latitude_of a }
{
    to_degrees(2.0 * a - FRAC_PI_2)
}

// The position on the sphere of a position on the plane.
pub fn mercator_inverse(m: Metres) -> LonLat
    ensures { result ≡ mercator_inverse_of m }
{
    LonLat {
        lon: longitude(m.x),
        lat: latitude(atan(exp_ordinate(m.y))),
    }
}
