// What is declared, how many names there are and where things stand, in one walk over host features and variables.
ghost use Rattle.std.specs.Prelude.{◌≡◌, ◌+◌, ◌≤◌};
ghost use Rattle.stream.specs.Payload.{payload};
ghost use Rattle.stream.specs.Inner.Payload.{room};
ghost use Rattle.records.specs.Records.{bytes_at};
ghost use Rattle.register.specs.Inner.Survey.{first_value, recorded_geo, Numbered, Surveyed};

use crate::declared::{Declared, Geo, read_declared};
use crate::mentions::is_lon;
use scene::{Variable, name_is, next_name, next_variable};

#[derive(Clone, Copy)]
pub struct Survey {
    pub declared: Declared,
    // how many names there are to be looked up, of host features and `<L>_lon` variables, and how many of these
    pub name_count: usize,
    pub lon_count: usize,
    // the positions in the payload from which on variables, and places, are asked for
    pub variables_at: usize,
    pub places_at: usize,
}

// The value looked for by a name, after the variable v: the first one stays.
fn first_value(s: &[u8], old: Option<f64>, v: Variable, name: &[u8]) -> Option<f64>
    requires { v.at + v.len ≤ room s.now }
    ensures { result
        ≡ first_value (bytes_at (payload s.now) v.at v.len) v.value name.now old }
{
    old.or_else(|| name_is(s, v.at, v.len, name).then_some(v.value))
}

// The values of the `geo_` variables, after the variable v.
#[tactic(auto, unfolding(crate::specs::Inner::Survey::recorded_geo))]
fn record_geo(s: &[u8], g: Geo, v: Variable) -> Geo
    requires { v.at + v.len ≤ room s.now }
    ensures { result ≡ recorded_geo (bytes_at (payload s.now) v.at v.len) v.value g }
{
    Geo {
        frame: first_value(s, g.frame, v, b"geo_frame"),
        px: first_value(s, g.px, v, b"geo_px"),
        scale: first_value(s, g.scale, v, b"geo_scale"),
        bearing: first_value(s, g.bearing, v, b"geo_bearing"),
        lon: first_value(s, g.lon, v, b"geo_lon"),
        lat: first_value(s, g.lat, v, b"geo_lat"),
    }
}

#[derive(Clone, Copy)]
struct FeatureCount {
    count: usize,
    // where variables are asked for: behind the host features
    end: usize,
}

fn count_features(s: &[u8]) -> FeatureCount
    ensures { Numbered (payload s.now) result.count result.end }
{
    // Counted by hand: behind `for count in 0..`, which has no end of its own, nothing can be answered.
    let mut count = 0usize;
    let mut end = 0usize;
    while let Ok(f) = next_name(s, end) {
        end = f.next;
        count += 1;
    }
    FeatureCount { count, end }
}

pub fn survey_stream(s: &[u8]) -> Survey
    ensures { Surveyed (payload s.now) result }
{
    let mut geo = Geo {
        frame: None,
        px: None,
        scale: None,
        bearing: None,
        lon: None,
        lat: None,
    };
    let f = count_features(s);
    let variables_at = f.end;
    let mut name_count = f.count;
    let mut lon_count = 0usize;
    let mut q = variables_at;
    loop {
        let v = match next_variable(s, q) {
            Ok(v) => v,
            Err(places_at) => {
                return Survey {
                    declared: read_declared(s, geo),
                    name_count,
                    lon_count,
                    variables_at,
                    places_at,
                };
            }
        };
        geo = record_geo(s, geo, v);
        if is_lon(s, v.at, v.len) {
            name_count += 1;
            lon_count += 1;
        }
        q = v.next;
    }
}
