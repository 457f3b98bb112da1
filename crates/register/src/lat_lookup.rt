// The `_lat` variable of a `_lon` variable, without a search of all of them for each.
//
// Names rise, and `<L>_lat` stands before `<L>_lon` with only names between them that begin with `<L>_l`. So it is
// looked for from the first variable that shares these bytes with the current one, up to that.
ghost use Rattle.std.specs.Prelude.{◌≡◌, [], ◌++◌, ◌+◌, ◌≤◌, ◌<◌, length};
ghost use Rattle.stream.specs.Payload.{payload};
ghost use Rattle.stream.specs.Inner.Payload.{room};
ghost use Rattle.records.specs.Records.{bytes_at};
ghost use Rattle.scene.specs.Labels.{same_bytes, variable_of};
ghost use Rattle.scene.specs.Inner.Answers.{variables_at};
ghost use Rattle.scene.specs.Laws.Rising.{Rising};
ghost use Rattle.register.specs.Register.{suffix_lon, suffix_lat};
ghost use Rattle.register.specs.Inner.LatLookup.{prefix_starts, Along, FirstVariable};

use crate::mentions::Cursor;
use records::common_prefix;
use scene::{Variable, name_is, names_equal, next_variable};

// A start for each number of bytes that a name may share with another: names have 31 bytes at most.
pub const PREFIX_STARTS: usize = 32;

// Where a lookup starts, by how many bytes a name shares with the current one: from q on for more than c bytes, and for
// fewer as before. So it is at a variable that is found from q on and shares c bytes with the one before it.
fn set_prefix_starts(starts: &mut [usize], c: usize, q: usize)
    requires { (c < 32) × (length starts.old ≡ 32) }
    ensures { starts.new ≡ prefix_starts starts.old c q }
{
    starts[c + 1..].fill(q);
}

// The variable v, the first from c on, becomes the current one.
pub fn pass_variable(s: &[u8], c: Cursor, v: Variable, starts: &mut [usize])
    requires { Along s.now starts.old c.at c.len c.q × FirstVariable s.now c.q v }
    ensures { Along s.now starts.new v.at v.len v.next }
{
    let alike = common_prefix(s, c.at, c.len, v.at, v.len);
    set_prefix_starts(starts, alike, c.q);
}

// Whether the m bytes at q are the n bytes at p and `_lat`.
fn is_lat(s: &[u8], q: usize, m: usize, p: usize, n: usize) -> bool
    requires { (q + m ≤ room s.now) × (p + n ≤ room s.now) }
    ensures { result
        ≡ same_bytes (bytes_at (payload s.now) q m) (bytes_at (payload s.now) p n ++ suffix_lat) }
{
    m >= 4 && names_equal(s, q, m - 4, p, n) && name_is(s, q + m - 4, 4, b"_lat")
}

// The value of `<L>_lat`, where `<L>_lon` stands at `at` and L has n bytes, among the variables from p on.
pub fn lat_of(s: &[u8], p: usize, at: usize, n: usize) -> Option<f64>
    requires { (at + n + 4 ≤ room s.now) × (bytes_at (payload s.now) (at + n) 4 ≡ suffix_lon)
        × Rising [] (variables_at (payload s.now) p) }
    ensures { result
        ≡ variable_of (bytes_at (payload s.now) at n ++ suffix_lat)
        (variables_at (payload s.now) p) }
{
    let mut q = p;
    while let Ok(v) = next_variable(s, q) {
        if is_lat(s, v.at, v.len, at, n) {
            return Some(v.value);
        }
        if v.at == at && v.len == n + 4 {
            return None;
        }
        q = v.next;
    }
    None
}
