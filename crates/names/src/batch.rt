// One walk over places and items for the names of a table: which of them have a point, and where.
//
// What was found stands in 64 slots. Mark m of an entry, from 1 to 64, is slot m - 1; mark 65 is that no slot was left.
ghost use Rattle.std.specs.Prelude.{◌≡◌, ◌+◌, ◌*◌, ◌<◌, length, get_or};
ghost use Rattle.stream.specs.Payload.{payload};
ghost use Rattle.records.specs.Inner.Hits.{SkipsTo};
ghost use Rattle.records.specs.Inner.Wanted.{wanted_tag, wanted_key};
ghost use Rattle.scene.specs.Inner.Answers.{best_by};
ghost use Rattle.names.specs.Inner.Table.{NameQuery, Unmarked};
ghost use Rattle.names.specs.Inner.Batch.{Batch, slots_of, slot_of, BestStored};
ghost use Rattle.names.specs.Inner.Batch.{tag_by, label_at, considered, Matched, step_at, steps_from, LabelsMatched};

use crate::table::{MARK, find_name};
use records::Wanted;
use scene::{Best, Key, consider_item, consider_place};
use stream::byte;
use values::Point;

// There are so many slots.
const SLOTS: usize = 64;

// What a slot holds before it is used.
pub const UNUSED: Best = Best {
    key: Key {
        top: false,
        line: 0,
        col: 0,
        order: 0,
    },
    at: Point { x: 0.0, y: 0.0 },
};

// What mark 65 adds to an entry.
const NO_SLOT: u32 = 65 * MARK;

// What was found for an entry with the mark m.
fn best_of(slots: &[Best], m: usize) -> Option<Best>
    requires { length slots.now ≡ 64 }
    ensures { result ≡ slot_of slots.now m }
{
    slots.get(m.checked_sub(1)?).copied()
}

// The best for entry k is b from now on. How many slots are used then.
fn store_best(t: &mut [u32], slots: &mut [Best], used: usize, k: usize, b: Option<Best>) -> usize
    requires { (k < length t.old) × (length slots.old ≡ 64) }
    ensures { BestStored k (best_by b) (slots_of t.old slots.old used)
        (slots_of t.new slots.new result) }
{
    let Some(v) = b else {
        return used;
    };
    let e = t[k];
    if e >= NO_SLOT {
        return used;
    }
    if e >= MARK {
        slots[(e / MARK) as usize - 1] = v;
        return used;
    }
    if used >= SLOTS {
        t[k] = e + NO_SLOT;
        return used;
    }
    slots[used] = v;
    t[k] = e + MARK * (used as u32 + 1);
    used + 1
}

// What carries labels.
#[derive(Clone, Copy)]
enum Carrier {
    Place,
    Item,
}

impl Carrier {
    // What a search asks for.
    fn wanted(self) -> Wanted
        ensures { (wanted_tag result ≡ tag_by self) × (wanted_key result ≡ 0) }
    {
        match self {
            Carrier::Place => Wanted::Place,
            Carrier::Item => Wanted::Item,
        }
    }

    // How far behind a record's start the length of its label stands.
    fn label_at(self) -> usize
        ensures { result ≡ label_at self }
    {
        match self {
            Carrier::Place => 1,
            Carrier::Item => 3,
        }
    }

    // The first of them from q on, as the i-th, becomes a candidate.
    fn consider(self, s: &[u8], b: Option<Best>, q: usize, i: usize) -> Option<Best>
        ensures { best_by result ≡ considered self (payload s.now) q i (best_by b) }
    {
        match self {
            Carrier::Place => consider_place(s, b, q, i),
            Carrier::Item => consider_item(s, b, q, i),
        }
    }
}

// The place or item at q, the i-th of its kind: a candidate for the label that it has, if it has one and that is one of
// the first `count` entries.
fn match_record(
    s: &[u8],
    t: &mut [u32],
    count: usize,
    more: u64,
    slots: &mut [Best],
    used: usize,
    kind: Carrier,
    q: usize,
    i: usize,
) -> usize
    requires { NameQuery s.now (q + label_at kind) (get_or (payload s.now) (q + label_at kind) 0) more
        × Batch more s.now t.old count slots.old }
    ensures { Matched more (payload s.now) count
        (slots_of t.old slots.old used)
        (slots_of t.new slots.new result)
        (step_at kind (payload s.now) q i) }
{
    let p = q + kind.label_at();
    let n = usize::from(byte(s, 0, p));
    if n == 0 {
        return used;
    }
    match find_name(s, t, count, p, n, more) {
        Err(_) => used,
        Ok(k) => {
            let old = best_of(slots, (t[k] / MARK) as usize);
            let b = kind.consider(s, old, q, i);
            store_best(t, slots, used, k, b)
        }
    }
}

// How many slots are used, and where records of greater tags are asked for.
#[derive(Clone, Copy)]
struct Walked {
    used: usize,
    end: usize,
}

// The places or items from p on become candidates, each for the label that it has, where so many slots are used before.
// A record leads to the next one, and i counts them on the way: a `for` over i would need an end.
fn match_records(
    s: &[u8],
    p: usize,
    t: &mut [u32],
    count: usize,
    more: u64,
    slots: &mut [Best],
    before: usize,
    kind: Carrier,
) -> Walked
    requires { Batch more s.now t.old count slots.old }
    ensures cases { Matched more (payload s.now) count
        (slots_of t.old slots.old before)
        (slots_of t.new slots.new result.used)
        (steps_from kind (payload s.now) p 0) }
    ensures skips_to { SkipsTo (payload s.now) (tag_by kind) p result.end }
{
    let mut used = before;
    let mut q = p;
    let mut i = 0usize;
    loop {
        match kind.wanted().find(s, q) {
            Err(end) => {
                return Walked { used, end };
            }
            Ok(h) => {
                used = match_record(s, t, count, more, slots, used, kind, h.at, i);
                q = h.next;
                i += 1;
            }
        }
    }
}

// The labels from p on, for the names of the first `count` entries, none of which has a mark. How many slots are used
// then.
pub fn match_labels(
    s: &[u8],
    p: usize,
    t: &mut [u32],
    count: usize,
    more: u64,
    slots: &mut [Best],
) -> usize
    requires { Batch more s.now t.old count slots.old × Unmarked t.old count }
    ensures { LabelsMatched more (payload s.now) t.old t.new count
        slots.new result p }
{
    let w = match_records(s, p, t, count, more, slots, 0, Carrier::Place);
    match_records(s, w.end, t, count, more, slots, w.used, Carrier::Item).used
}
