// The next record that a question asks for.
ghost use Rattle.std.specs.Prelude.{◌≡◌, ◌||◌, [], ◌≤◌, IfOk, IfNone, IfSome, eqb, get_or, drop};
ghost use Rattle.stream.specs.Payload.{payload};
ghost use Rattle.records.specs.Records.{record_of};
ghost use Rattle.records.specs.Walk.{tag_of};
ghost use Rattle.records.specs.Search.{key_of, ends_search, search_step_of};
ghost use Rattle.records.specs.Inner.Hits.{records_at, RecordAt, hits_of, end_of, SkipsTo, OptionValue};
ghost use Rattle.records.specs.Inner.Numbers.{tag_number};
ghost use Rattle.records.specs.Inner.Wanted.{wanted_tag, wanted_key};

use crate::numbers::{PointsRole, SheetOption, Tag};
use crate::records::{Record, Step, next_record};

// What a search asks for: records of a tag and, of options, points and paths, of a kind.
#[derive(Clone, Copy, Debug, PartialEq, Eq)]
pub enum Wanted {
    Option(SheetOption),
    Feature,
    Variable,
    Place,
    Item,
    Points(PointsRole),
    Path(PointsRole),
}

impl Wanted {
    // The first byte of such a record.
    fn tag(self) -> Tag
        ensures { tag_number result ≡ wanted_tag self }
    {
        match self {
            Wanted::Option(_) => Tag::Option,
            Wanted::Feature => Tag::Feature,
            Wanted::Variable => Tag::Variable,
            Wanted::Place => Tag::Place,
            Wanted::Item => Tag::Item,
            Wanted::Points(_) => Tag::Points,
            Wanted::Path(_) => Tag::Path,
        }
    }

    // Which option it is, or what its points or path are for; 0 of the others.
    fn key(self) -> u8
        ensures { result ≡ wanted_key self }
    {
        match self {
            Wanted::Option(option) => option.number(),
            Wanted::Points(role) | Wanted::Path(role) => role.number(),
            _ => 0,
        }
    }

    // The first such record from p on, by `find`.
    pub fn find(self, s: &[u8], p: usize) -> Result<Hit, usize>
        ensures key_value { records_at (payload s.now) p (wanted_tag self) (wanted_key self)
            ≡ hits_of (payload s.now) (wanted_tag self) (wanted_key self) result }
        ensures record_at { IfOk result
            (λ h. RecordAt (payload s.now) (wanted_tag self) (wanted_key self) h.at h.next) }
        ensures p_le_at { p ≤ end_of result }
        ensures skips_to { SkipsTo (payload s.now) (wanted_tag self) p (end_of result) }
    {
        find(s, p, self.tag().number(), self.key())
    }
}

// Where a search stands at a record: it is one asked for, it is passed over, or none can follow.
#[derive(Clone, Copy)]
enum SearchStep {
    Matches,
    Skip,
    Over,
}

// A record that a search found: where it stands in the payload, and where the one after it.
#[derive(Clone, Copy)]
pub struct Hit {
    pub at: usize,
    pub next: usize,
}

// What stands at byte p of the payload; nothing behind its end.
pub fn record_at(s: &[u8], p: usize) -> Step
    ensures { result ≡ record_of (drop p (payload s.now)) }
{
    if p > stream::remaining(s, 0) {
        return Step::Bad;
    }
    next_record(stream::part_from(s, p), p % stream::PAYLOAD)
}

// A record's first byte.
fn tag_of(r: Record) -> Tag
    ensures { tag_number result ≡ tag_of r }
{
    match r {
        Record::Rescale => Tag::Rescale,
        Record::Option(_) => Tag::Option,
        Record::Feature(_) => Tag::Feature,
        Record::Variable(_) => Tag::Variable,
        Record::Place(_) => Tag::Place,
        Record::Item { .. } => Tag::Item,
        Record::Points { .. } => Tag::Points,
        Record::Path { .. } => Tag::Path,
    }
}

// Which option it is, or what its points or path are for; 0 of the others.
fn key_of(r: Record) -> u8
    ensures { result ≡ key_of r }
{
    match r {
        Record::Option(option) => option,
        Record::Points { role, .. } | Record::Path { role, .. } => role,
        _ => 0,
    }
}

// Whether a record of tag x ends a search for tag t.
fn ends_search(t: u8, x: u8) -> bool
    ensures { result ≡ ends_search t x }
{
    if t < Tag::Item as u8 {
        return t < x;
    }
    if t == Tag::Item as u8 {
        return false;
    }
    x < Tag::Points as u8
}

fn search_step(r: Record, tag: u8, key: u8) -> SearchStep
    ensures { result ≡ search_step_of tag key r }
{
    let x = tag_of(r).number();
    if x == tag {
        if key_of(r) == key {
            return SearchStep::Matches;
        }
    }
    if ends_search(tag, x) {
        return SearchStep::Over;
    }
    SearchStep::Skip
}

// The tag of what stands at byte q of the payload, 0 for the end record and behind the last byte.
pub fn tag_at(s: &[u8], q: usize) -> u8
    ensures { result ≡ get_or (payload s.now) q 0 }
{
    if q >= stream::remaining(s, 0) {
        return Tag::End as u8;
    }
    stream::byte(s, 0, q)
}

// Whether a search for tag t ends where a tag x stands, be it the end record's: what stands there needs no further
// look.
fn is_search_over(t: u8, x: u8) -> bool
    ensures { result ≡ (eqb x 0 || ends_search t x) }
{
    if x == Tag::End as u8 {
        return true;
    }
    ends_search(t, x)
}

// The first record of a tag and key from p on, as far as one can stand; where there is none, where the search ended. Up
// to where it ends, no record has a greater tag.
pub fn find(s: &[u8], p: usize, tag: u8, key: u8) -> Result<Hit, usize>
    ensures key_value { records_at (payload s.now) p tag key
        ≡ hits_of (payload s.now) tag key result }
    ensures record_at { IfOk result (λ h. RecordAt (payload s.now) tag key h.at h.next) }
    ensures p_le_at { p ≤ end_of result }
    ensures skips_to { SkipsTo (payload s.now) tag p (end_of result) }
{
    let mut q = p;
    // Records follow one another by their sizes: no range has them.
    loop {
        if is_search_over(tag, tag_at(s, q)) {
            return Err(q);
        }
        let Step::Got(r, k) = record_at(s, q) else {
            return Err(q);
        };
        match search_step(r, tag, key) {
            SearchStep::Matches => {
                return Ok(Hit { at: q, next: q + k });
            }
            SearchStep::Over => {
                return Err(q);
            }
            SearchStep::Skip => {
                q += k;
            }
        }
    }
}

// Where the records behind rescale begin, if that is the first record.
fn behind_rescale(s: &[u8]) -> usize
    ensures { SkipsTo (payload s.now) 1 0 result }
{
    if tag_at(s, 0) != Tag::Rescale as u8 {
        return 0;
    }
    if stream::remaining(s, 0) < 9 {
        return 0;
    }
    9
}

// Where an option's value stands in the payload, if there is such an option.
pub fn option_at(s: &[u8], option: u8) -> Option<usize>
    ensures absent { IfNone result (records_at (payload s.now) 0 2 option ≡ []) }
    ensures present { IfSome result (λ p. OptionValue (payload s.now) option p) }
{
    let Ok(h) = find(s, behind_rescale(s), Tag::Option as u8, option) else {
        return None;
    };
    Some(h.at + 2)
}
