// What is given out for each feature, after the source's geojson.rs: positions and a feature line.
#![tactic(auto)]

ghost use Rattle.std.specs.Prelude.{◌≡◌, ◌+◌, ◌≤◌, length, leb};
ghost use Rattle.geojson.specs.Inner.Features.{geometry_of, role_of, placement_of, feature_by, FeatureWritten};

// What a feature's positions are.
#[derive(Clone, Copy, Debug, PartialEq, Eq)]
pub enum Geometry {
    Point = 0,
    Line = 1,
    Polygon = 2,
}

impl Geometry {
    // Its number in a feature line.
    pub fn number(self) -> u32
        ensures { result ≡ geometry_of self }
    {
        self as u32
    }
}

// Whether a feature is drawn as it stands, or is a separate fill.
#[derive(Clone, Copy, Debug, PartialEq, Eq)]
pub enum Role {
    Drawn = 0,
    Fill = 1,
}

impl Role {
    // Its number in a feature line.
    pub fn number(self) -> u32
        ensures { result ≡ role_of self }
    {
        self as u32
    }
}

// Where a feature is placed.
#[derive(Clone, Copy, Debug, PartialEq, Eq)]
pub enum Placement {
    Map = 0,
    Screen = 1,
}

impl Placement {
    // Its number in a feature line.
    pub fn number(self) -> u32
        ensures { result ≡ placement_of self }
    {
        self as u32
    }
}

// A feature line is so many numbers.
pub const FEATURE_WORDS: usize = 6;

// A feature line. Part: 0, or 1 and the path's index. Count: its positions.
#[derive(Clone, Copy)]
pub struct Feature {
    pub item: u32,
    pub geometry: u32,
    pub role: u32,
    pub placement: u32,
    pub part: u32,
    pub count: u32,
}

// Writes a feature line at `at`, where it has room.
pub fn write_feature(out: &mut [u32], at: usize, f: Feature) -> bool
    requires { at ≤ length out.old }
    ensures value { result ≡ leb (at + 6) (length out.old) }
    ensures feature_written { FeatureWritten out.old out.new at (feature_by f) }
{
    if out.len() - at < FEATURE_WORDS {
        return false;
    }
    let words = [f.item, f.geometry, f.role, f.placement, f.part, f.count];
    out[at..at + FEATURE_WORDS].copy_from_slice(&words);
    true
}
