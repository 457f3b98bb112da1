// Control points: the names of host features first, then those of pairs of `_lon` and `_lat` variables, in batches.
//
// A batch is as many names as a table holds. One walk over the labels tells which of them resolve; then the batch is
// read again, in its order: of each name that resolves the first mention is a control point.
ghost use Rattle.std.specs.Prelude.{◌≡◌, Bool, true, false, List, ◌∷◌, [], ◌++◌, ℕ, ◌+◌, ◌≤◌, ◌<◌, length, take, Some};
ghost use Rattle.stream.specs.Payload.{payload};
ghost use Rattle.stream.specs.Inner.Payload.{room};
ghost use Rattle.records.specs.Records.{bytes_at};
ghost use Rattle.scene.specs.Scene.{scene_of};
ghost use Rattle.fit.specs.declared.Control.{Control};
ghost use Rattle.names.specs.Inner.Table.{Table};
ghost use Rattle.names.specs.Inner.Batch.{slot_point};
ghost use Rattle.register.specs.Register.{within_limits};
ghost use Rattle.register.specs.Inner.Survey.{Registrable};
ghost use Rattle.register.specs.Inner.Mentions.{mentions_at, mention_by, more_of, Follows, MentionFits};
ghost use Rattle.register.specs.Inner.Gathered.{ControlRoom, Holds, Gathers, TableRoom, Added, Batch};
ghost use Rattle.register.specs.Inner.Gathered.{BatchFrom, Taken, KnownCleared, Readable, Reads, point_in};
ghost use Rattle.register.specs.Inner.Gathered.{TableSize, before_of, GathersBatch, GathersPart, first_cursor};

use crate::lat_lookup::PREFIX_STARTS;
use crate::mentions::{Cursor, Mention, next_mention};
use crate::survey::Survey;
use fit::Control;
use float::abs;
use names::{UNUSED, find_name, insert, match_labels, unmark};
use scene::{Best, next_name};

// The most control points that a registration has.
pub const MAX_CONTROLS: usize = 64;
// How many control points a tally counts at most.
const TOO_MANY_CONTROLS: usize = 65;
// How many names a batch has where there are more than MAX_CONTROLS: 44 KiB of the stack.
const BATCH_NAMES: usize = 11264;
// Condition 8's limits, in degrees.
const MAX_LATITUDE: f64 = 85.06;

const MAX_LONGITUDE: f64 = 180.0;

// How many control points there are.
#[derive(Clone, Copy)]
pub struct Tally {
    // TOO_MANY_CONTROLS for more than MAX_CONTROLS
    pub n: usize,
    // whether all of them are within condition 8's limits
    pub within: bool,
}

// Whether a position is within condition 8's limits.
#[tactic(auto, unfolding(crate::specs::Register::within_limits))]
pub fn is_within_limits(lon: f64, lat: f64) -> bool
    ensures { result ≡ within_limits lon lat }
{
    abs(lat) <= MAX_LATITUDE && abs(lon) <= MAX_LONGITUDE
}

// One more control point, of the j-th name.
fn put_control(controls: &mut [Control], kept: &mut [u32], g: Tally, j: usize, c: Control) -> Tally
    requires { (j < 4294967296) × ControlRoom controls.old kept.old }
    ensures { (b : Bool) (cs : List Control) (js : List ℕ)
        → Holds b cs js g controls.old kept.old
        → Holds b (cs ++ c ∷ []) (js ++ j ∷ []) result controls.new kept.new }
{
    let within = g.within && is_within_limits(c.lon, c.lat);
    let n = g.n;
    if n >= MAX_CONTROLS {
        return Tally {
            n: TOO_MANY_CONTROLS,
            within,
        };
    }
    kept[n] = j as u32;
    controls[n] = c;
    Tally { n: n + 1, within }
}

// How many bytes the length before a name counts that the name lacks: those of `_lon`.
fn more_of(lons: bool) -> u64
    ensures { result ≡ more_of lons }
{
    if lons { 4 } else { 0 }
}

// How many entries a batch has, how many mentions it is, and where the next begins.
#[derive(Clone, Copy)]
pub struct FilledBatch {
    pub n: usize,
    pub count: usize,
    pub next: Cursor,
}

// The name of a mention becomes an entry, if there is a latitude.
fn add_name(s: &[u8], t: &mut [u32], n: usize, m: Mention, more: u64) -> usize
    requires { TableRoom more s.now t.old n × MentionFits s.now more m }
    ensures { Added more (payload s.now) t.old t.new n result
        (mention_by (payload s.now) m) }
{
    match m.lat {
        Some(_) => insert(s, t, n, m.at - 1, m.len, more),
        None => n,
    }
}

// The names from c on, up to as many as the table holds.
fn fill_batch(s: &[u8], lons: bool, t: &mut [u32], c: Cursor, starts: &mut [usize]) -> FilledBatch
    requires { (room s.now < 33554432) × Follows s.now lons c starts.old }
    ensures { Batch s.now lons c result t.new starts.new }
{
    let more = more_of(lons);
    let mut n = 0usize;
    // Counted by hand: the table ends the loop.
    let mut count = 0usize;
    let mut at = c;
    while n < t.len() {
        let m = match next_mention(s, lons, at, starts) {
            Ok(m) => m,
            Err(next) => return FilledBatch { n, count, next },
        };
        at = m.next;
        n = add_name(s, t, n, m, more);
        count += 1;
    }
    FilledBatch { n, count, next: at }
}

// The name of n bytes behind p is known from now on: its entry, if there is one, loses its mark. The mark that it had.
fn take_mark(s: &[u8], t: &mut [u32], count: usize, p: usize, n: usize, more: u64) -> usize
    requires { (p + 9 + n ≤ room s.now) × (n + more ≤ 255)
        × Table more (payload s.now) t.old count }
    ensures { Taken more (payload s.now) t.old t.new count
        (bytes_at (payload s.now) (p + 1) n) result }
{
    match find_name(s, t, count, p, n, more) {
        Ok(k) => unmark(t, k),
        Err(_) => 0,
    }
}

// The names of the first i host features are known: their entries lose their marks.
fn clear_known(s: &[u8], t: &mut [u32], n: usize, i: usize, more: u64)
    requires { (more ≤ 4) × Table more (payload s.now) t.old n }
    ensures { KnownCleared (payload s.now) more t.old t.new n i }
{
    let mut q = 0usize;
    for k in 0..i {
        let Ok(f) = next_name(s, q) else {
            return;
        };
        take_mark(s, t, n, f.at - 1, f.len, more);
        q = f.next;
    }
}

// The point that a mark stands for; any point where no slot was left.
fn control_of(slots: &[Best], mark: usize, lon: f64, lat: f64) -> Control
    requires { (1 ≤ mark) × (length slots.now ≡ 64) }
    ensures { (result.lon ≡ lon) × (result.lat ≡ lat)
        × (mark ≤ 64 → Some (point_in result) ≡ slot_point slots.now mark) }
{
    let at = if mark > MAX_CONTROLS {
        UNUSED.at
    } else {
        slots[mark - 1].at
    };
    Control {
        x: at.x,
        y: at.y,
        lon,
        lat,
    }
}

// One mention of a batch, the j-th name of all.
fn read_mention(
    s: &[u8],
    lons: bool,
    t: &mut [u32],
    n: usize,
    slots: &[Best],
    m: Mention,
    j: usize,
    controls: &mut [Control],
    kept: &mut [u32],
    g: Tally,
) -> Tally
    requires { (j < 4294967296) × Readable s.now lons t.old n slots.now controls.old kept.old
        × MentionFits s.now (more_of lons) m }
    ensures reads { Reads (payload s.now) lons (mention_by (payload s.now) m ∷ []) n
        slots.now j t.old g controls.old kept.old
        t.new result controls.new kept.new }
    ensures table { Table (more_of lons) (payload s.now) t.new n }
{
    let Some(lat) = m.lat else {
        return g;
    };
    let mark = take_mark(s, t, n, m.at - 1, m.len, more_of(lons));
    if mark == 0 {
        return g;
    }
    put_control(controls, kept, g, j, control_of(slots, mark, m.lon, lat))
}

// The mentions of a batch from c on, in their order, the first of them being the base-th name of all.
fn read_batch(
    s: &[u8],
    lons: bool,
    t: &mut [u32],
    n: usize,
    slots: &[Best],
    c: Cursor,
    starts: &mut [usize],
    count: usize,
    base: usize,
    controls: &mut [Control],
    kept: &mut [u32],
    g: Tally,
) -> Tally
    requires { (base + count < 4294967296) × Readable s.now lons t.old n slots.now controls.old kept.old
        × Follows s.now lons c starts.old }
    ensures { Reads (payload s.now) lons (take count (mentions_at (payload s.now) lons c)) n
        slots.now base t.old g controls.old kept.old
        t.new result controls.new kept.new }
{
    let mut all = g;
    let mut at = c;
    for k in 0..count {
        let Ok(m) = next_mention(s, lons, at, starts) else {
            return all;
        };
        all = read_mention(s, lons, t, n, slots, m, base + k, controls, kept, all);
        at = m.next;
    }
    all
}

// How many host features come before a batch whose first name is the base-th of all; so many there are.
fn features_before(lons: bool, features: usize, base: usize) -> usize
    ensures { result ≡ before_of lons features base }
{
    if lons { features } else { base }
}

// The first cursor of a part of the names.
pub fn first_cursor(lons: bool, v: Survey) -> Cursor
    ensures { result ≡ first_cursor lons v.variables_at }
{
    Cursor {
        q: if lons { v.variables_at } else { 0 },
        i: 0,
        at: 0,
        len: 0,
    }
}

// One batch more: a walk over the labels, and where one of its names resolves, a look at the host features before it.
fn gather_batch(
    s: &[u8],
    v: Survey,
    lons: bool,
    t: &mut [u32],
    f: FilledBatch,
    c: Cursor,
    starts: &mut [usize],
    base: usize,
    controls: &mut [Control],
    kept: &mut [u32],
    g: Tally,
) -> Tally
    requires { Registrable s.now v × BatchFrom s.now v lons c f t.old starts.old base
        × ControlRoom controls.old kept.old }
    ensures { GathersBatch (payload s.now) lons base
        (take f.count (mentions_at (payload s.now) lons c))
        g controls.old kept.old result controls.new kept.new }
{
    let mut slots = [UNUSED; 64];
    let more = more_of(lons);
    let n = f.n;
    let used = match_labels(s, v.places_at, t, n, more, &mut slots);
    if used == 0 {
        return g;
    }
    clear_known(
        s,
        t,
        n,
        features_before(lons, v.name_count - v.lon_count, base),
        more,
    );
    read_batch(
        s, lons, t, n, &slots, c, starts, f.count, base, controls, kept, g,
    )
}

// All batches of a part of the names, behind the control points that g counts.
fn gather_part(
    s: &[u8],
    v: Survey,
    lons: bool,
    t: &mut [u32],
    controls: &mut [Control],
    kept: &mut [u32],
    g: Tally,
) -> Tally
    requires { Registrable s.now v × (1 ≤ length t.old) × ControlRoom controls.old kept.old }
    ensures { GathersPart (scene_of (payload s.now)) lons
        g controls.old kept.old result controls.new kept.new }
{
    let mut all = g;
    let mut starts = [0usize; PREFIX_STARTS];
    let mut c = first_cursor(lons, v);
    let mut base = features_before(lons, v.name_count - v.lon_count, 0);
    loop {
        let mut back = starts;
        let f = fill_batch(s, lons, t, c, &mut starts);
        if f.n == 0 {
            return all;
        }
        all = gather_batch(s, v, lons, t, f, c, &mut back, base, controls, kept, all);
        c = f.next;
        base += f.count;
    }
}

// Host features first, then variables.
fn gather_names(
    s: &[u8],
    v: Survey,
    t: &mut [u32],
    controls: &mut [Control],
    kept: &mut [u32],
) -> Tally
    requires { Registrable s.now v × (1 ≤ length t.old) × ControlRoom controls.old kept.old }
    ensures { Gathers (scene_of (payload s.now)) result controls.new kept.new }
{
    let none = Tally { n: 0, within: true };
    let g = gather_part(s, v, false, t, controls, kept, none);
    if v.lon_count == 0 {
        return g;
    }
    gather_part(s, v, true, t, controls, kept, g)
}

// All control points, in batches of as many names as a table of N holds.
fn gather_in<const N: usize>(
    s: &[u8],
    v: Survey,
    controls: &mut [Control],
    kept: &mut [u32],
) -> Tally
    requires { Registrable s.now v × ControlRoom controls.old kept.old × TableSize N }
    ensures { Gathers (scene_of (payload s.now)) result controls.new kept.new }
{
    let mut t = [0u32; N];
    gather_names(s, v, &mut t, controls, kept)
}

// All control points, in their order, and the numbers of their names.
pub fn gather(s: &[u8], v: Survey, controls: &mut [Control], kept: &mut [u32]) -> Tally
    requires { Registrable s.now v × ControlRoom controls.old kept.old }
    ensures { Gathers (scene_of (payload s.now)) result controls.new kept.new }
{
    if v.name_count <= MAX_CONTROLS {
        gather_in::<MAX_CONTROLS>(s, v, controls, kept)
    } else {
        gather_in::<BATCH_NAMES>(s, v, controls, kept)
    }
}
