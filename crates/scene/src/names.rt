// Names, by their bytes.
#![tactic(auto, using(crate::proofs::Bounds::lengths), unfolding(stream::specs::Inner::Payload::rest))]

ghost use Rattle.std.specs.Prelude.{◌≡◌, ◌+◌, ◌≤◌, get_or};
ghost use Rattle.stream.specs.Payload.{payload};
ghost use Rattle.stream.specs.Inner.Payload.{room};
ghost use Rattle.records.specs.Records.{bytes_at};
ghost use Rattle.scene.specs.Labels.{same_bytes, label_is};
ghost use Rattle.scene.specs.Inner.Answers.{label_by};

use records::common_prefix;
use stream::byte;

// Whether the n bytes at p are the m bytes at q.
#[tactic(auto, using(crate::proofs::Bounds::compared), unfolding(stream::specs::Inner::Payload::rest))]
pub fn names_equal(s: &[u8], p: usize, n: usize, q: usize, m: usize) -> bool
    requires { (p + n ≤ room s.now) × (q + m ≤ room s.now) }
    ensures { result ≡ same_bytes (bytes_at (payload s.now) p n) (bytes_at (payload s.now) q m) }
{
    if n != m {
        return false;
    }
    common_prefix(s, p, n, q, m) == n
}

// Whether the n bytes at p are those of `name`.
#[tactic(auto, using(crate::proofs::Bounds::compared), unfolding(stream::specs::Inner::Payload::rest))]
pub fn name_is(s: &[u8], p: usize, n: usize, name: &[u8]) -> bool
    requires { p + n ≤ room s.now }
    ensures { result ≡ same_bytes (bytes_at (payload s.now) p n) name.now }
{
    if n != name.len() {
        return false;
    }
    for (i, b) in name.iter().enumerate() {
        if byte(s, 0, p + i) != *b {
            return false;
        }
    }
    true
}

// Whether an item whose label has n bytes at p, none where n is 0, carries the label of m bytes at q.
#[tactic(auto, unfolding(crate::specs::Labels::label_is))]
pub fn label_equals(s: &[u8], p: usize, n: usize, q: usize, m: usize) -> bool
    requires { (p + n ≤ room s.now) × (q + m ≤ room s.now) }
    ensures { result ≡ label_is (label_by (payload s.now) p n)
        (bytes_at (payload s.now) q m) }
{
    if n == 0 {
        return false;
    }
    names_equal(s, p, n, q, m)
}

// Whether the name that stands at q, its length first, is the n bytes at `at`.
pub fn name_at_equals(s: &[u8], q: usize, at: usize, n: usize) -> bool
    requires { (q + 1 + get_or (payload s.now) q 0 ≤ room s.now) × (at + n ≤ room s.now) }
    ensures { result ≡ same_bytes (bytes_at (payload s.now) (q + 1) (get_or (payload s.now) q 0))
        (bytes_at (payload s.now) at n) }
{
    names_equal(s, q + 1, usize::from(byte(s, 0, q)), at, n)
}

// Whether the label that stands at q, its length first and 0 for none, is the n bytes at `at`.
pub fn label_at_equals(s: &[u8], q: usize, at: usize, n: usize) -> bool
    requires { (q + 1 + get_or (payload s.now) q 0 ≤ room s.now) × (at + n ≤ room s.now) }
    ensures { result ≡ label_is (label_by (payload s.now) (q + 1)
        (get_or (payload s.now) q 0)) (bytes_at (payload s.now) at n) }
{
    label_equals(s, q + 1, usize::from(byte(s, 0, q)), at, n)
}
