// One reader for each record, by the part of the stream that starts at the record's block and the offset in that block.
ghost use Rattle.std.specs.Prelude.{◌≡◌, ◌+◌, ◌<◌, ◌≤◌, length, drop, get_or};
ghost use Rattle.std.specs.Bool.{then_some};
ghost use Rattle.stream.specs.Numbers.{u16_at};
ghost use Rattle.stream.specs.Inner.Payload.{room, rest};
ghost use Rattle.records.specs.Inner.Numbers.{form_of};
ghost use Rattle.records.specs.Inner.Records.{FormFits};
ghost use Rattle.records.specs.Records.{all_ascii_graphic, named, labelled, named_then, counted};
ghost use Rattle.records.specs.Records.{all_zero, option_width, option_fits, values_width, item_begins, end_of};
ghost use Rattle.records.specs.Records.{rescale_of, option_of, feature_of, variable_of, place_of, item_of, points_of};
ghost use Rattle.records.specs.Records.{path_with, path_of, record_of};

use crate::numbers::{Form, Kind, MAX_NAME, PointsRole, SheetOption, Tag};
use stream::{byte, remaining, u16_at, u64_at};

// A record. Names, floats and pairs stay in the stream, at places that the fields here settle.
#[derive(Clone, Copy)]
pub enum Record {
    Rescale,
    // an option: which
    Option(u8),
    // the name's length
    Feature(u8),
    Variable(u8),
    Place(u8),
    Item {
        kind: u8,
        flags: u8,
        // the label's length, 0 for none
        label: u8,
        // the presence byte
        has: u8,
    },
    Points {
        role: u8,
        count: u16,
    },
    Path {
        role: u8,
        closed: u8,
        form: u8,
        // cubics, or points
        count: u16,
    },
}

// What stands at a place: a record and how many bytes it takes, the end, or neither.
#[derive(Clone, Copy)]
pub enum Step {
    Got(Record, usize),
    End,
    Bad,
}

// Whether n bytes from p on are all of 33 to 126, a check between them or not.
fn split_ascii_graphic(part: &[u8], off: usize, p: usize, n: usize) -> bool
    requires { (off ≤ room part.now) × (p + n ≤ length (rest part.now off)) }
    ensures { result ≡ all_ascii_graphic (rest part.now off) p n }
{
    // By index: in `all` the closure would have to state what `byte` requires.
    for i in 0..n {
        if !byte(part, off, p + i).is_ascii_graphic() {
            return false;
        }
    }
    true
}

// Whether n bytes of the part itself, from `at` on, are all of 33 to 126.
fn contiguous_ascii_graphic(part: &[u8], at: usize, n: usize) -> bool
    requires { at + n ≤ length part.now }
    ensures { result ≡ all_ascii_graphic part.now at n }
{
    part[at..at + n].iter().all(|x| x.is_ascii_graphic())
}

// Whether n bytes from p on are all of 33 to 126. A name seldom has a check between its bytes: it is read where it
// stands.
fn all_ascii_graphic(part: &[u8], off: usize, p: usize, n: usize) -> bool
    requires { (off ≤ room part.now) × (p + n ≤ length (rest part.now off)) }
    ensures { result ≡ all_ascii_graphic (rest part.now off) p n }
{
    match stream::contiguous_at(off, p, n) {
        Ok(at) => contiguous_ascii_graphic(part, at, n),
        Err(_) => split_ascii_graphic(part, off, p, n),
    }
}

// Whether a name stands at p.
fn is_name(part: &[u8], off: usize, p: usize) -> bool
    requires { off ≤ room part.now }
    ensures { result ≡ named (rest part.now off) p }
{
    let len = remaining(part, off);
    if p >= len {
        return false;
    }
    let n = usize::from(byte(part, off, p));
    if n < 1 {
        return false;
    }
    if n > MAX_NAME {
        return false;
    }
    if len - p - 1 < n {
        return false;
    }
    all_ascii_graphic(part, off, p + 1, n)
}

// Whether a name stands at p, or length 0 for none.
fn is_label(part: &[u8], off: usize, p: usize) -> bool
    requires { (off ≤ room part.now) × (p < length (rest part.now off)) }
    ensures { result ≡ labelled (rest part.now off) p }
{
    if byte(part, off, p) == 0 {
        return true;
    }
    is_name(part, off, p)
}

// The length of the name after the tag, if a name stands there, and `more` bytes after it.
fn name_then(part: &[u8], off: usize, more: usize) -> Option<u8>
    requires { (off ≤ room part.now) × (more < 256) }
    ensures { result ≡ then_some (named_then (rest part.now off) more) (get_or (rest part.now off) 1 0) }
{
    if !is_name(part, off, 1) {
        return None;
    }
    let name = byte(part, off, 1);
    (remaining(part, off) >= 2 + more + usize::from(name)).then_some(name)
}

// The count at p, if one stands there, and `each` bytes for each after it.
#[inline(always)]
fn count_at(part: &[u8], off: usize, p: usize, each: usize) -> Option<u16>
    requires { (off ≤ room part.now) × (p < 256) × (each < 256) }
    ensures { result ≡ then_some (counted (rest part.now off) p each) (u16_at (rest part.now off) p) }
{
    let len = remaining(part, off);
    if len < p + 2 {
        return None;
    }
    let count = u16_at(part, off, p);
    (len >= p + 2 + each * usize::from(count)).then_some(count)
}

// Whether the bytes from i on are zeros.
fn zeros_from(part: &[u8], off: usize, i: usize) -> bool
    requires { off ≤ room part.now }
    ensures { result ≡ all_zero (drop i (rest part.now off)) }
{
    for k in i..remaining(part, off) {
        if byte(part, off, k) != 0 {
            return false;
        }
    }
    true
}

// Whether all bytes are zeros: eight at a time, since they may be the stream's most.
fn zeros(part: &[u8], off: usize) -> bool
    requires { off ≤ room part.now }
    ensures { result ≡ all_zero (rest part.now off) }
{
    let n = remaining(part, off) / 8;
    for k in 0..n {
        if u64_at(part, off, 8 * k) != 0 {
            return false;
        }
    }
    zeros_from(part, off, 8 * n)
}

// The end record: only zeros follow.
fn read_end(part: &[u8], off: usize) -> Step
    requires { off ≤ room part.now }
    ensures { result ≡ end_of (rest part.now off) }
{
    if zeros(part, off) {
        Step::End
    } else {
        Step::Bad
    }
}

fn read_rescale(part: &[u8], off: usize) -> Step
    requires { off ≤ room part.now }
    ensures { result ≡ rescale_of (rest part.now off) }
{
    if remaining(part, off) < 9 {
        return Step::Bad;
    }
    Step::Got(Record::Rescale, 9)
}

// How many bytes an option's value takes.
pub fn option_width(option: u8) -> usize
    ensures { (result ≡ option_width option) × (1 ≤ result) × (result ≤ 16) }
{
    if option == SheetOption::Frame as u8 {
        return 1;
    }
    if option == SheetOption::Anchor as u8 {
        return 16;
    }
    8
}

// Whether there is such an option, and its value is within the payload and right.
fn option_fits(part: &[u8], off: usize, option: u8) -> bool
    requires { off ≤ room part.now }
    ensures { result ≡ option_fits (rest part.now off) option }
{
    if option < SheetOption::Frame as u8 {
        return false;
    }
    if option > SheetOption::Step as u8 {
        return false;
    }
    if remaining(part, off) < 2 + option_width(option) {
        return false;
    }
    if option > SheetOption::Frame as u8 {
        return true;
    }
    byte(part, off, 2) <= 1
}

fn read_option(part: &[u8], off: usize) -> Step
    requires { off ≤ room part.now }
    ensures { result ≡ option_of (rest part.now off) }
{
    if remaining(part, off) < 2 {
        return Step::Bad;
    }
    let option = byte(part, off, 1);
    if !option_fits(part, off, option) {
        return Step::Bad;
    }
    Step::Got(Record::Option(option), 2 + option_width(option))
}

fn read_feature(part: &[u8], off: usize) -> Step
    requires { off ≤ room part.now }
    ensures { result ≡ feature_of (rest part.now off) }
{
    match name_then(part, off, 16) {
        Some(name) => Step::Got(Record::Feature(name), 18 + usize::from(name)),
        None => Step::Bad,
    }
}

// Apart from `read_feature`: one reader of both would be given its constructor and its width, and be no shorter.
fn read_variable(part: &[u8], off: usize) -> Step
    requires { off ≤ room part.now }
    ensures { result ≡ variable_of (rest part.now off) }
{
    match name_then(part, off, 8) {
        Some(name) => Step::Got(Record::Variable(name), 10 + usize::from(name)),
        None => Step::Bad,
    }
}

fn read_place(part: &[u8], off: usize) -> Step
    requires { off ≤ room part.now }
    ensures { result ≡ place_of (rest part.now off) }
{
    let Some(name) = name_then(part, off, 25) else {
        return Step::Bad;
    };
    let n = usize::from(name);
    if byte(part, off, 18 + n) > 1 {
        return Step::Bad;
    }
    Step::Got(Record::Place(name), 27 + n)
}

// How many bytes the values take that a presence byte names.
pub fn values_width(m: usize) -> usize
    requires { m < 32 }
    ensures { (result ≡ values_width m) × (result ≤ 48) }
{
    16 * (m % 2) + 8 * (m / 2 % 2) + 8 * (m / 4 % 2) + 8 * (m / 8 % 2) + 8 * (m / 16 % 2)
}

// Whether an item's kind, flags and label are right.
fn item_begins(part: &[u8], off: usize) -> bool
    requires { off ≤ room part.now }
    ensures { result ≡ item_begins (rest part.now off) }
{
    if remaining(part, off) < 4 {
        return false;
    }
    if byte(part, off, 1) > Kind::Block as u8 {
        return false;
    }
    if byte(part, off, 2) >= 32 {
        return false;
    }
    is_label(part, off, 3)
}

fn read_item(part: &[u8], off: usize) -> Step
    requires { off ≤ room part.now }
    ensures { result ≡ item_of (rest part.now off) }
{
    if !item_begins(part, off) {
        return Step::Bad;
    }
    let len = remaining(part, off);
    let kind = byte(part, off, 1);
    let flags = byte(part, off, 2);
    let label = byte(part, off, 3);
    let n = usize::from(label);
    if len < 13 + n {
        return Step::Bad;
    }
    let has = byte(part, off, 12 + n);
    if has >= 32 {
        return Step::Bad;
    }
    let size = 13 + n + values_width(usize::from(has));
    if len < size {
        return Step::Bad;
    }
    Step::Got(
        Record::Item {
            kind,
            flags,
            label,
            has,
        },
        size,
    )
}

fn read_points(part: &[u8], off: usize) -> Step
    requires { off ≤ room part.now }
    ensures { result ≡ points_of (rest part.now off) }
{
    let Some(count) = count_at(part, off, 2, 16) else {
        return Step::Bad;
    };
    let role = byte(part, off, 1);
    if role > PointsRole::Fill as u8 {
        return Step::Bad;
    }
    Step::Got(Record::Points { role, count }, 4 + 16 * usize::from(count))
}

// A path of a form whose count stands at p, with `each` bytes for each after it.
#[inline(always)]
fn read_form(part: &[u8], off: usize, form: Form, p: usize, each: usize) -> Step
    requires { (off ≤ room part.now) × FormFits p each }
    ensures { result ≡ path_with (rest part.now off) (form_of form) p each }
{
    let Some(count) = count_at(part, off, p, each) else {
        return Step::Bad;
    };
    let role = byte(part, off, 1);
    let closed = byte(part, off, 2);
    Step::Got(
        Record::Path {
            role,
            closed,
            form: form.number(),
            count,
        },
        p + 2 + each * usize::from(count),
    )
}

fn read_path(part: &[u8], off: usize) -> Step
    requires { off ≤ room part.now }
    ensures { result ≡ path_of (rest part.now off) }
{
    if remaining(part, off) < 4 {
        return Step::Bad;
    }
    if byte(part, off, 1) > PointsRole::Fill as u8 {
        return Step::Bad;
    }
    if byte(part, off, 2) > 1 {
        return Step::Bad;
    }
    match Form::try_from(byte(part, off, 3)) {
        Ok(Form::Cubics) => read_form(part, off, Form::Cubics, 20, 48),
        Ok(Form::Polyline) => read_form(part, off, Form::Polyline, 4, 16),
        Err(_) => Step::Bad,
    }
}

// What stands at the offset of a part of the stream that starts at the record's block.
pub fn next_record(part: &[u8], off: usize) -> Step
    requires { off ≤ room part.now }
    ensures { result ≡ record_of (rest part.now off) }
{
    if remaining(part, off) == 0 {
        return Step::Bad;
    }
    match Tag::try_from(byte(part, off, 0)) {
        Ok(Tag::End) => read_end(part, off),
        Ok(Tag::Rescale) => read_rescale(part, off),
        Ok(Tag::Option) => read_option(part, off),
        Ok(Tag::Feature) => read_feature(part, off),
        Ok(Tag::Variable) => read_variable(part, off),
        Ok(Tag::Place) => read_place(part, off),
        Ok(Tag::Item) => read_item(part, off),
        Ok(Tag::Points) => read_points(part, off),
        Ok(Tag::Path) => read_path(part, off),
        Err(_) => Step::Bad,
    }
}
