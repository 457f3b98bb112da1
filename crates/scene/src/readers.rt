// Features, variables, places and items, one by one, and what follows an item.
#![tactic(auto, using(crate::proofs::Bounds::lengths))]

ghost use Rattle.std.specs.Prelude.{◌≡◌, [], ◌+◌, ◌*◌, ◌≤◌, drop};
ghost use Rattle.std.specs.Option.{IfSome};
ghost use Rattle.std.specs.Result.{IfOk, IfErr, result_ok};
ghost use Rattle.stream.specs.Payload.{payload};
ghost use Rattle.stream.specs.Inner.Payload.{room};
ghost use Rattle.records.specs.Inner.Hits.{records_at, SkipsTo};
ghost use Rattle.records.specs.Inner.Wanted.{wanted_tag};
ghost use Rattle.scene.specs.Scene.{item_at};
ghost use Rattle.scene.specs.Inner.Answers.{Within, LengthPrefixed, PathWithin, features_at, features_by};
ghost use Rattle.scene.specs.Inner.Answers.{feature_by, variables_at, variables_by, places_at, places_by};
ghost use Rattle.scene.specs.Inner.Answers.{ItemRecordAt, items_at, item_by, items_by, points_from, points_by};
ghost use Rattle.scene.specs.Inner.Answers.{paths_from, paths_by, next_of, NameAt, behind_name};

use crate::fields::{float_at, float_if, has_bit, point_from, point_if};
use records::{Form, Kind, Tag, Wanted, find, values_width};
use stream::{byte, u16_at, u32_at};
use values::Point;

// The weights of an item's flags.
const HIDDEN: u8 = 1;

const NESTED: u8 = 2;

const CLOSED: u8 = 4;

const FILL: u8 = 8;

const SCREEN: u8 = 16;

// The weights of a presence byte's bits. The values that are there stand in this order, so that one of weight k stands
// behind those that the byte modulo k names.
const HAS_AT: u8 = 1;

const HAS_W: u8 = 2;

const HAS_H: u8 = 4;

const HAS_R: u8 = 8;

const HAS_RAD: u8 = 16;

// A record's name, and where the next record stands.
#[derive(Clone, Copy)]
struct RecordName {
    at: usize,
    len: usize,
    next: usize,
}

// In each answer `next` is where to ask for the one after it. A name stands at `at` and takes `len` bytes. Without an
// answer, `Err` has where the search ended: records of greater tags, up to items, stand from there on.
#[derive(Clone, Copy)]
pub struct Feature {
    pub at: usize,
    pub len: usize,
    pub lon: f64,
    pub lat: f64,
    pub next: usize,
}

#[derive(Clone, Copy)]
pub struct FeatureName {
    pub at: usize,
    pub len: usize,
    pub next: usize,
}

#[derive(Clone, Copy)]
pub struct Variable {
    pub at: usize,
    pub len: usize,
    pub value: f64,
    pub next: usize,
}

#[derive(Clone, Copy)]
pub struct Place {
    pub at: usize,
    pub len: usize,
    pub x: f64,
    pub y: f64,
    pub nested: bool,
    pub line: u32,
    pub col: u32,
    pub next: usize,
}

// An item's label stands at `label`, none where `len` is 0. Its points and paths are asked for from `next` on.
#[derive(Clone, Copy)]
pub struct Item {
    pub kind: Kind,
    pub hidden: bool,
    pub nested: bool,
    pub closed: bool,
    pub fill: bool,
    pub screen: bool,
    pub label: usize,
    pub len: usize,
    pub line: u32,
    pub col: u32,
    pub at: Option<Point>,
    pub w: Option<f64>,
    pub h: Option<f64>,
    pub r: Option<f64>,
    pub rad: Option<f64>,
    pub next: usize,
}

// Points that follow an item: they stand at `at`, for `point_at`.
#[derive(Clone, Copy)]
pub struct Points {
    pub at: usize,
    pub count: u16,
}

// A curve starts at the point at `start` and has three points at `at` for each of its cubics; any other path has its
// points there.
#[derive(Clone, Copy)]
pub struct Path {
    pub closed: bool,
    pub curve: bool,
    pub start: usize,
    pub at: usize,
    pub count: u16,
    pub next: usize,
}

// The name of the first such record from p on, of a host feature, a variable or a place: what else it holds follows
// the name. Where there is none, records of greater tags stand from the position that is answered on.
fn next_named(s: &[u8], p: usize, wanted: Wanted) -> Result<RecordName, usize>
    requires { (3 ≤ wanted_tag wanted) × (wanted_tag wanted ≤ 5) }
    ensures none { IfErr result (λ end. records_at (payload s.now) p (wanted_tag wanted) 0 ≡ []) }
    ensures name_at { IfOk result (λ f. NameAt (payload s.now) (room s.now) p (wanted_tag wanted)
        (behind_name (wanted_tag wanted)) f) }
    ensures skips_to { SkipsTo (payload s.now) (wanted_tag wanted) p (next_of (λ f. f.next) result) }
{
    let h = wanted.find(s, p)?;
    Ok(RecordName {
        at: h.at + 2,
        len: usize::from(byte(s, 0, h.at + 1)),
        next: h.next,
    })
}

// The name of the first host feature from p on, for callers that need no more of it; its two floats follow the name.
pub fn next_name(s: &[u8], p: usize) -> Result<FeatureName, usize>
    ensures p_value { features_at (payload s.now) p ≡ features_by (payload s.now)
        (feature_by (payload s.now) result) }
    ensures within { IfOk result (λ f. Within (room s.now) p f.at (f.len + 16) f.next) }
    ensures skips_to { SkipsTo (payload s.now) 3 p (next_of (λ f. f.next) result) }
    ensures length_prefixed { IfOk result (λ f. LengthPrefixed (payload s.now) f.at f.len) }
{
    let f = next_named(s, p, Wanted::Feature)?;
    Ok(FeatureName {
        at: f.at,
        len: f.len,
        next: f.next,
    })
}

// The first host feature from p on.
pub fn next_feature(s: &[u8], p: usize) -> Result<Feature, usize>
    ensures p_value { features_at (payload s.now) p ≡ features_by (payload s.now) (result_ok result) }
    ensures within { IfOk result (λ f. Within (room s.now) p f.at f.len f.next) }
    ensures length_prefixed { IfOk result (λ f. LengthPrefixed (payload s.now) f.at f.len) }
    ensures skips_to { SkipsTo (payload s.now) 3 p (next_of (λ f. f.next) result) }
{
    let f = next_name(s, p)?;
    let end = f.at + f.len;
    Ok(Feature {
        at: f.at,
        len: f.len,
        lon: float_at(s, end),
        lat: float_at(s, end + 8),
        next: f.next,
    })
}

// The first variable from p on.
pub fn next_variable(s: &[u8], p: usize) -> Result<Variable, usize>
    ensures p_value { variables_at (payload s.now) p ≡ variables_by (payload s.now) result }
    ensures within { IfOk result (λ v. Within (room s.now) p v.at v.len v.next) }
    ensures length_prefixed { IfOk result (λ v. LengthPrefixed (payload s.now) v.at v.len) }
    ensures skips_to { SkipsTo (payload s.now) 4 p (next_of (λ v. v.next) result) }
{
    let f = next_named(s, p, Wanted::Variable)?;
    Ok(Variable {
        at: f.at,
        len: f.len,
        value: float_at(s, f.at + f.len),
        next: f.next,
    })
}

// The first place from p on.
pub fn next_place(s: &[u8], p: usize) -> Result<Place, usize>
    ensures p_value { places_at (payload s.now) p ≡ places_by (payload s.now) (result_ok result) }
    ensures within { IfOk result (λ c. Within (room s.now) p c.at c.len c.next) }
    ensures skips_to { SkipsTo (payload s.now) 5 p (next_of (λ c. c.next) result) }
{
    let f = next_named(s, p, Wanted::Place)?;
    let end = f.at + f.len;
    let Point { x, y } = point_from(s, end);
    Ok(Place {
        at: f.at,
        len: f.len,
        x,
        y,
        nested: byte(s, 0, end + 16) == 1,
        line: u32_at(s, 0, end + 17),
        col: u32_at(s, 0, end + 21),
        next: f.next,
    })
}

// The item that stands at q, with its label of n bytes and the presence byte m; the record behind it stands at `next`.
fn item_at(s: &[u8], q: usize, n: usize, m: u8, next: usize) -> Item
    requires { ItemRecordAt (payload s.now) q n m next }
    ensures result_value { item_by (payload s.now) result ≡ item_at (drop q (payload s.now)) }
    ensures position { (result.label ≡ q + 4) × (result.len ≡ n) × (result.next ≡ next) }
{
    let flags = byte(s, 0, q + 2);
    let has = usize::from(m);
    let b = q + 13 + n;
    Item {
        kind: Kind::of_byte(byte(s, 0, q + 1)),
        hidden: has_bit(flags, HIDDEN),
        nested: has_bit(flags, NESTED),
        closed: has_bit(flags, CLOSED),
        fill: has_bit(flags, FILL),
        screen: has_bit(flags, SCREEN),
        label: q + 4,
        len: n,
        line: u32_at(s, 0, q + 4 + n),
        col: u32_at(s, 0, q + 8 + n),
        at: point_if(s, has_bit(m, HAS_AT), b),
        w: float_if(s, has_bit(m, HAS_W), b + values_width(has % 2)),
        h: float_if(s, has_bit(m, HAS_H), b + values_width(has % 4)),
        r: float_if(s, has_bit(m, HAS_R), b + values_width(has % 8)),
        rad: float_if(s, has_bit(m, HAS_RAD), b + values_width(has % 16)),
        next,
    }
}

// The first item from p on.
pub fn next_item(s: &[u8], p: usize) -> Result<Item, usize>
    ensures p_value { items_at (payload s.now) p ≡ items_by (payload s.now) (result_ok result) }
    ensures within { IfOk result (λ it. Within (room s.now) p it.label it.len it.next) }
    ensures p_le_end { IfErr result (λ end. p ≤ end) }
{
    let h = Wanted::Item.find(s, p)?;
    let at = h.at;
    let n = usize::from(byte(s, 0, at + 3));
    let m = byte(s, 0, at + 12 + n);
    Ok(item_at(s, at, n, m, h.next))
}

// The points of a role among what follows an item, from p on.
pub fn points_of(s: &[u8], p: usize, role: u8) -> Option<Points>
    ensures role_value { points_from (payload s.now) p role ≡ points_by (payload s.now) result }
    ensures count_bound { IfSome result (λ c. c.at + 16 * c.count ≤ room s.now) }
{
    let Ok(h) = find(s, p, Tag::Points as u8, role) else {
        return None;
    };
    Some(Points {
        at: h.at + 4,
        count: u16_at(s, 0, h.at + 2),
    })
}

// The first path of a role among what follows an item, from p on.
pub fn next_path(s: &[u8], p: usize, role: u8) -> Result<Path, usize>
    ensures role_value { paths_from (payload s.now) p role ≡ paths_by (payload s.now) role (result_ok result) }
    ensures path_within { IfOk result (λ c. PathWithin (room s.now) p c) }
    ensures p_le_end { IfErr result (λ end. p ≤ end) }
{
    let h = find(s, p, Tag::Path as u8, role)?;
    let at = h.at;
    let closed = byte(s, 0, at + 2) == 1;
    if byte(s, 0, at + 3) == Form::Cubics as u8 {
        return Ok(Path {
            closed,
            curve: true,
            start: at + 4,
            at: at + 22,
            count: u16_at(s, 0, at + 20),
            next: h.next,
        });
    }
    Ok(Path {
        closed,
        curve: false,
        start: at + 6,
        at: at + 6,
        count: u16_at(s, 0, at + 4),
        next: h.next,
    })
}
