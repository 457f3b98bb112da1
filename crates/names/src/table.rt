// A table of names: the positions where their lengths stand in the payload, in the order of the names, no name twice.
//
// Names are ordered by their length, then by their bytes, so that eight bytes from the length on decide most
// comparisons. The names of one table have lengths that are `more` too great: 4 for `_lon` variables, whose ending is
// not counted, else 0. There is no heap: a table is a slice that its caller lends, used up to `count`.
ghost use Rattle.std.specs.Prelude.{◌≡◌, ◌+◌, ◌-◌, ◌*◌, ◌≤◌, ◌<◌, ◌%◌, length, get_or, set};
ghost use Rattle.stream.specs.Payload.{payload};
ghost use Rattle.stream.specs.Inner.Payload.{room};
ghost use Rattle.records.specs.Records.{bytes_at};
ghost use Rattle.names.specs.Inner.Words.{word_of, front_of};
ghost use Rattle.names.specs.Inner.Table.{name_at, mark_of, order_of, NameFits, NameQuery, NewName, Table};
ghost use Rattle.names.specs.Inner.Table.{Searched, Inserted};

use crate::words::word_at;
use std::cmp::Ordering;
use stream::{byte, u64_at};

// A payload has fewer bytes than this, 2^25: what an entry is beyond it, is a mark. A position and its mark are packed
// in one u32: the tables of the host's call are most of the stack that it may take.
const MAX_PAYLOAD: usize = 1 << 25;

// The weight of an entry's mark, in the width of an entry.
pub const MARK: u32 = MAX_PAYLOAD as u32;

// The weight of the first of eight bytes.
const FIRST: u64 = 1 << 56;

// The order of the n bytes at p and the n bytes at q.
fn order_bytes(s: &[u8], p: usize, q: usize, n: usize) -> Ordering
    requires { (p + n ≤ room s.now) × (q + n ≤ room s.now) }
    ensures { result
        ≡ order_of (bytes_at (payload s.now) p n) (bytes_at (payload s.now) q n) }
{
    for i in 0..n {
        let o = byte(s, 0, p + i).cmp(&byte(s, 0, q + i));
        if o.is_ne() {
            return o;
        }
    }
    Ordering::Equal
}

// How many bits of the first eight bytes are not those of a name of n bytes and its length.
fn spare_bits(n: usize) -> u64
    ensures { result ≡ 8 * (7 - n) }
{
    8 * 7u64.saturating_sub(n as u64)
}

// The length of a name of n bytes and its first bytes, as a number: the name stands behind p. It is not read by
// `word_at`, which is called at one place, in the search, and so is put in line there.
fn word_of(s: &[u8], p: usize, n: usize, more: u64) -> u64
    requires { (p + 8 ≤ room s.now) × (n + more ≤ 255) }
    ensures { result ≡ word_of (payload s.now) p (n + more) }
{
    u64_at(s, 0, p).swap_bytes() % FIRST + (n as u64 + more) * FIRST
}

// The order of the name whose length stands at p and the n bytes behind q, of which w are the first without the spare
// bits.
fn order(s: &[u8], p: usize, q: usize, n: usize, w: u64, more: u64) -> Ordering
    requires { NameFits more (payload s.now) p × NameQuery s.now q n more
        × (w ≡ front_of (word_of (payload s.now) q (n + more)) n) }
    ensures { result ≡ order_of (name_at more (payload s.now) p)
        (bytes_at (payload s.now) (q + 1) n) }
{
    let x = word_at(s, p) >> spare_bits(n);
    // Two tests and no `cmp`: each tells at once where the search goes on.
    if x < w {
        return Ordering::Less;
    }
    if w < x {
        return Ordering::Greater;
    }
    if n <= 7 {
        return Ordering::Equal;
    }
    order_bytes(s, p + 8, q + 8, n - 7)
}

// The n bytes behind p among the first `count` entries, by halves; the entry `first` is looked at first. By hand:
// `binary_search_by` does not take the entry to begin with, and goes on where it has found.
#[tactic(auto, using(crate::proofs::Halves::turned_on))]
fn find_near(
    s: &[u8],
    t: &[u32],
    count: usize,
    first: usize,
    p: usize,
    n: usize,
    more: u64,
) -> Result<usize, usize>
    requires { NameQuery s.now p n more × Table more (payload s.now) t.now count
        × (0 < count → first < count) }
    ensures { Searched more (payload s.now) t.now count
        (bytes_at (payload s.now) (p + 1) n) result }
{
    let w = word_of(s, p, n, more) >> spare_bits(n);
    let mut lo = 0usize;
    let mut hi = count;
    let mut mid = first;
    while lo < hi {
        match order(s, t[mid] as usize % MAX_PAYLOAD, p, n, w, more) {
            Ordering::Equal => {
                return Ok(mid);
            }
            Ordering::Less => lo = mid + 1,
            Ordering::Greater => hi = mid,
        }
        mid = lo + (hi - lo) / 2;
    }
    Err(lo)
}

// The n bytes behind p among the first `count` entries: where they stand, else where they belong.
pub fn find_name(
    s: &[u8],
    t: &[u32],
    count: usize,
    p: usize,
    n: usize,
    more: u64,
) -> Result<usize, usize>
    requires { (p + 9 + n ≤ room s.now) × (n + more ≤ 255)
        × Table more (payload s.now) t.now count }
    ensures { Searched more (payload s.now) t.now count
        (bytes_at (payload s.now) (p + 1) n) result }
{
    find_near(s, t, count, count / 2, p, n, more)
}

// The name of n bytes whose length stands at p becomes one of the first `count` entries, unless it is one of them. How
// many there are then. Most names come in their order: the last entry is looked at first.
pub fn insert(s: &[u8], t: &mut [u32], count: usize, p: usize, n: usize, more: u64) -> usize
    requires { NewName more (payload s.now) p n × (count < length t.old)
        × Table more (payload s.now) t.old count }
    ensures { Inserted more (payload s.now) t.old t.new count result
        (bytes_at (payload s.now) (p + 1) n) }
{
    match find_near(s, t, count, count.saturating_sub(1), p, n, more) {
        Ok(_) => count,
        Err(at) => {
            t.copy_within(at..count, at + 1);
            t[at] = p as u32;
            count + 1
        }
    }
}

// The mark of entry k, which has none from then on.
pub fn unmark(t: &mut [u32], k: usize) -> usize
    requires { k < length t.old }
    ensures { (result ≡ mark_of (get_or t.old k 0))
        × (t.new ≡ set t.old k (get_or t.old k 0 % 33554432)) }
{
    let e = t[k];
    t[k] = e % MARK;
    (e / MARK) as usize
}
