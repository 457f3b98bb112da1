// Canvas points to the Earth, after the source's register.rs with its frame Mercator.
#![tactic(auto)]

ghost use Rattle.std.specs.Prelude.{◌≡◌};
ghost use Rattle.projection.specs.Projection.{projection_of, to_lon_lat_by, round9_of, geo_by};
ghost use Rattle.projection.specs.Inner.Stages.{plane_position_of, plane_stage_of, rounded_latitude_of};
ghost use Rattle.elementary.specs.Inner.Stages.{atan_third};

use elementary::{atan_third, cos, sin, to_radians};
use float::round;
use geodesy::{LonLat, Metres, latitude, longitude, mercator_forward, mercator_inverse};

mod project;

pub use project::project_points;

// A canvas point p goes to the anchor's plane: p less the origin, times the scale, turned so that the canvas's y axis
// points to the bearing.
#[repr(C)]
#[derive(Clone, Copy)]
pub struct Registration {
    // the anchor, in degrees
    pub lon: f64,
    pub lat: f64,
    // the canvas point that sits there
    pub x: f64,
    pub y: f64,
    // metres an inch, and degrees clockwise from north
    pub scale: f64,
    pub bearing: f64,
    // 0 an anchor, 1 two control points, 2 more
    pub method: u32,
    pub controls: u32,
}

// A registration, with what is the same for every point worked out once.
#[derive(Clone, Copy)]
pub struct Projection {
    pub registration: Registration,
    // of the bearing
    pub sin: f64,
    pub cos: f64,
    // the anchor's position on the plane
    pub east: f64,
    pub north: f64,
}

pub fn projection_of(r: Registration) -> Projection
    ensures { result ≡ projection_of r }
{
    let b = to_radians(r.bearing);
    let a = mercator_forward(LonLat {
        lon: r.lon,
        lat: r.lat,
    });
    Projection {
        registration: r,
        sin: sin(b),
        cos: cos(b),
        east: a.x,
        north: a.y,
    }
}

// The point's position on the plane.
fn plane_position(p: Projection, x: f64, y: f64) -> Metres
    ensures { result ≡ plane_position_of p x y }
{
    let r = p.registration;
    let dx = (x - r.x) * r.scale;
    let dy = (y - r.y) * r.scale;
    let e = dx * p.cos + dy * p.sin;
    let n = -dx * p.sin + dy * p.cos;
    Metres {
        x: p.east + e,
        y: p.north + n,
    }
}

// The source's `to_lonlat`, for the registration that the projection is of.
pub fn to_lonlat(p: Projection, x: f64, y: f64) -> LonLat
    ensures { result ≡ to_lon_lat_by p x y }
{
    let m = plane_position(p, x, y);
    mercator_inverse(m)
}

// Nine decimals, about 0.1 mm.
fn round9(v: f64) -> f64
    ensures { result ≡ round9_of v }
{
    round(v * 1e9) / 1e9
}

// The position that is given out for a canvas point.
pub fn geo(p: Projection, x: f64, y: f64) -> LonLat
    ensures { result ≡ geo_by p x y }
{
    let at = to_lonlat(p, x, y);
    LonLat {
        lon: round9(at.lon),
        lat: round9(at.lat),
    }
}

// The first stage of `geo`, for a line of points: the longitude that is given out, and the ordinate on the plane where
// the latitude will stand.
pub fn plane_stage(p: Projection, x: f64, y: f64) -> LonLat
    ensures { result ≡ plane_stage_of p x y }
{
    let m = plane_position(p, x, y);
    LonLat {
        lon: round9(longitude(m.x)),
        lat: m.y,
    }
}

// The latitude that is given out, of what the first two stages of the arc tangent left.
pub fn rounded_latitude(w: f64) -> f64
    ensures { result ≡ rounded_latitude_of (atan_third w) }
{
    round9(latitude(atan_third(w)))
}
