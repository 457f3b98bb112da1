// Names one after another: those of host features, and those of `<L>_lon` variables with the value of `<L>_lat`.
ghost use Rattle.std.specs.Prelude.{◌≡◌, true, false, List, ℕ, ◌+◌, ◌≤◌};
ghost use Rattle.stream.specs.Payload.{payload};
ghost use Rattle.stream.specs.Inner.Payload.{room};
ghost use Rattle.records.specs.Records.{bytes_at};
ghost use Rattle.register.specs.Register.{is_lon};
ghost use Rattle.register.specs.Inner.Mentions.{Follows, Asked};

use crate::lat_lookup::{lat_of, pass_variable};
use scene::{name_is, next_feature, next_variable};

// Where the next name is looked for, how many host features or variables come before it, and the name of the last
// variable.
#[derive(Clone, Copy)]
pub struct Cursor {
    pub q: usize,
    pub i: usize,
    pub at: usize,
    pub len: usize,
}

// A name of `len` bytes at `at`, where it is said to be, the number of its host feature or variable, and where the next
// name is looked for.
#[derive(Clone, Copy)]
pub struct Mention {
    pub at: usize,
    pub len: usize,
    pub lon: f64,
    pub lat: Option<f64>,
    pub index: usize,
    pub next: Cursor,
}

fn next_feature_name(s: &[u8], c: Cursor) -> Result<Mention, Cursor>
    requires { c.i ≤ c.q }
    ensures { (starts : List ℕ) → Asked s.now false c result starts }
{
    let Ok(f) = next_feature(s, c.q) else {
        return Err(c);
    };
    Ok(Mention {
        at: f.at,
        len: f.len,
        lon: f.lon,
        lat: Some(f.lat),
        index: c.i,
        next: Cursor {
            q: f.next,
            i: c.i + 1,
            at: 0,
            len: 0,
        },
    })
}

// Whether the name of n bytes at `at` is `<L>_lon`, L other than geo.
pub fn is_lon(s: &[u8], at: usize, n: usize) -> bool
    requires { at + n ≤ room s.now }
    ensures { result ≡ is_lon (bytes_at (payload s.now) at n) }
{
    n >= 4 && name_is(s, at + n - 4, 4, b"_lon") && !name_is(s, at, n - 4, b"geo")
}

fn next_lon(s: &[u8], mut c: Cursor, starts: &mut [usize]) -> Result<Mention, Cursor>
    requires { Follows s.now true c starts.old }
    ensures { Asked s.now true c result starts.new }
{
    while let Ok(v) = next_variable(s, c.q) {
        pass_variable(s, c, v, starts);
        let index = c.i;
        c = Cursor {
            q: v.next,
            i: index + 1,
            at: v.at,
            len: v.len,
        };
        if is_lon(s, v.at, v.len) {
            let from = starts[v.len - 2];
            return Ok(Mention {
                at: v.at,
                len: v.len - 4,
                lon: v.value,
                lat: lat_of(s, from, v.at, v.len - 4),
                index,
                next: c,
            });
        }
    }
    Err(c)
}

// The first name from c on: of a `_lon` variable, or of a host feature. Where there is none, the cursor behind them.
pub fn next_mention(
    s: &[u8],
    lons: bool,
    c: Cursor,
    starts: &mut [usize],
) -> Result<Mention, Cursor>
    requires { Follows s.now lons c starts.old }
    ensures { Asked s.now lons c result starts.new }
{
    if lons {
        next_lon(s, c, starts)
    } else {
        next_feature_name(s, c)
    }
}
