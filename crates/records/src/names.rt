// Names of the payload, by their bytes.
ghost use Rattle.std.specs.Prelude.{◌≡◌, ◌+◌, ◌≤◌};
ghost use Rattle.stream.specs.Payload.{payload};
ghost use Rattle.stream.specs.Inner.Payload.{room};
ghost use Rattle.records.specs.Records.{bytes_at};
ghost use Rattle.records.specs.Layout.{before};
ghost use Rattle.records.specs.Inner.Names.{common_prefix};

use stream::byte;

// How many bytes the n bytes at p and the m bytes at q begin with alike.
pub fn common_prefix(s: &[u8], p: usize, n: usize, q: usize, m: usize) -> usize
    requires { (p + n ≤ room s.now) × (q + m ≤ room s.now) }
    ensures { (result ≡ common_prefix (bytes_at (payload s.now) p n)
        (bytes_at (payload s.now) q m)) × (result ≤ n) }
{
    let both = n.min(m);
    for i in 0..both {
        if byte(s, 0, p + i) != byte(s, 0, q + i) {
            return i;
        }
    }
    both
}

// Whether the n bytes at p come before the m bytes at q.
pub fn name_before(s: &[u8], p: usize, n: usize, q: usize, m: usize) -> bool
    requires { (p + n ≤ room s.now) × (q + m ≤ room s.now) }
    ensures { result
        ≡ before (bytes_at (payload s.now) p n) (bytes_at (payload s.now) q m) }
{
    let i = common_prefix(s, p, n, q, m);
    if i < n && i < m {
        return byte(s, 0, p + i) < byte(s, 0, q + i);
    }
    n < m
}
