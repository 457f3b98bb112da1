// Registration as C symbols, for the comparison.
ghost use Rattle.std.specs.Prelude.{◌≡◌, length};
ghost use Rattle.projection.specs.Projection.{to_lon_lat_of};
ghost use Rattle.values.specs.Inner.Warnings.{cursor_by};
ghost use Rattle.register.specs.Inner.Outcome.{outcome_by};
ghost use Rattle.test_host.specs.Inner.Answer.{outcome_in, cursor_in, answer_of, warned_of, Opens};

use geodesy::LonLat;
use projection::{Registration, projection_of, to_lonlat};
use records::check_stream;
use register::{Survey, register, survey_stream, write_warnings};
use values::{NoRoom, Refusal};

// 0 and the registration, or the number of the first condition that holds and zeros.
#[repr(C)]
#[derive(Clone, Copy)]
pub struct Outcome {
    pub number: u32,
    pub registration: Registration,
}

impl From<Result<Registration, Refusal>> for Outcome {
    ghost from_gives = { λ o r. outcome_in r ≡ outcome_by o };

    fn from(o: Result<Registration, Refusal>) -> Outcome {
        match o {
            Ok(registration) => Outcome {
                number: 0,
                registration,
            },
            Err(r) => Outcome {
                number: r.number(),
                registration: Registration {
                    lon: 0.0,
                    lat: 0.0,
                    x: 0.0,
                    y: 0.0,
                    scale: 0.0,
                    bearing: 0.0,
                    method: 0,
                    controls: 0,
                },
            },
        }
    }
}

// How far a slice of warnings is used, in numbers, and whether everything fitted.
#[repr(C)]
#[derive(Clone, Copy)]
pub struct WarningCursor {
    pub ok: bool,
    pub used: usize,
}

impl From<Result<usize, NoRoom>> for WarningCursor {
    ghost from_gives = { λ o r. cursor_in r ≡ cursor_by o };

    fn from(o: Result<usize, NoRoom>) -> WarningCursor {
        match o {
            Ok(used) => WarningCursor { ok: true, used },
            Err(e) => WarningCursor {
                ok: false,
                used: e.used,
            },
        }
    }
}

// Conditions 1 to 14 and 19, in the order of checking.
#[tactic(auto, using(stream::specs::Laws::Conditions::refusal_numbered, register::specs::Laws::Registrable::is_registrable), unfolding(crate::specs::Inner::Answer::answer_of))]
fn open_stream(s: &[u8], kept: &mut [u32]) -> Result<(Survey, Registration), Refusal>
    requires { length kept.old ≡ 64 }
    ensures { Opens s.now kept.new result }
{
    check_stream(s)?;
    let survey = survey_stream(s);
    let r = register(s, survey, kept)?;
    Ok((survey, r))
}

// Refusals 1 to 14 and 19, or 0 and the registration.
#[unsafe(no_mangle)]
pub extern "C" fn register_stream(s: &[u8]) -> Outcome
    ensures { outcome_in result ≡ answer_of s.now }
{
    let mut kept = [0u32; 64];
    open_stream(s, &mut kept).map(|opened| opened.1).into()
}

// The warnings of an accepted registration; none of any other stream.
#[tactic(auto, using(stream::specs::Laws::Conditions::refusal_numbered), unfolding(crate::specs::Inner::Answer::warned_of))]
#[unsafe(no_mangle)]
pub extern "C" fn register_warnings(s: &[u8], out: &mut [u32]) -> WarningCursor
    ensures { record { out = out.new; cursor = cursor_in result }
        ≡ warned_of s.now out.old }
{
    let mut kept = [0u32; 64];
    match open_stream(s, &mut kept) {
        Ok((v, r)) => write_warnings(s, v, &kept, out, r.controls).into(),
        Err(_) => Ok(0).into(),
    }
}

// A canvas point through a registration.
#[tactic(auto, using(projection::specs::Laws::Projects::projects))]
#[unsafe(no_mangle)]
pub extern "C" fn register_project(r: Registration, x: f64, y: f64) -> LonLat
    ensures { result ≡ to_lon_lat_of r x y }
{
    to_lonlat(projection_of(r), x, y)
}
