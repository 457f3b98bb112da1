// The point that a label names, after the source's `reference_point` and `point_of_label`.
ghost use Rattle.std.specs.Prelude.{◌≡◌, ◌+◌, ◌*◌, ◌≤◌, None};
ghost use Rattle.stream.specs.Payload.{payload};
ghost use Rattle.stream.specs.Inner.Payload.{room};
ghost use Rattle.records.specs.Records.{bytes_at};
ghost use Rattle.scene.specs.Scene.{points_at};
ghost use Rattle.scene.specs.Labels.{mean_point, first_start, mean_or_start, reference_point, consider};
ghost use Rattle.scene.specs.Labels.{best_place, best_item, point_of_label};
ghost use Rattle.scene.specs.Inner.Answers.{consider_place, consider_item, key_by, best_by};
ghost use Rattle.scene.specs.Inner.Answers.{points_from, paths_from, places_at, items_at, item_by};

use crate::fields::{point_at, point_from};
use crate::names::{label_at_equals, name_at_equals};
use crate::readers::{Item, next_item, next_path, next_place, points_of};
use records::{PointsRole, Wanted};
use values::Point;

// Where in the source a label is defined: a greater key comes later. Of two equal keys the first stays.
#[derive(Clone, Copy, PartialEq, Eq, PartialOrd, Ord)]
pub struct Key {
    pub top: bool,
    pub line: u32,
    pub col: u32,
    pub order: usize,
}

// The best definition of a label so far.
#[derive(Clone, Copy)]
pub struct Best {
    pub key: Key,
    pub at: Point,
}

// The best of the places, and where the items are asked for: behind the places.
#[derive(Clone, Copy)]
pub struct BestPlace {
    pub best: Option<Best>,
    pub end: usize,
}

// The mean of points, each sum from 0 in their order.
fn mean(s: &[u8], at: usize, count: u16) -> Point
    requires { at + 16 * count ≤ room s.now }
    ensures { result ≡ mean_point (points_at (payload s.now) at count) }
{
    let mut x = 0.0f64;
    let mut y = 0.0f64;
    for i in 0..usize::from(count) {
        let p = point_at(s, at, i);
        x += p.x;
        y += p.y;
    }
    let n = count as f64;
    Point { x: x / n, y: y / n }
}

// The start of the first path among what follows an item.
#[tactic(auto, unfolding(crate::specs::Labels::first_start, crate::specs::Labels::start_of, crate::specs::Scene::points_at))]
fn first_start(s: &[u8], p: usize) -> Option<Point>
    ensures { result ≡ first_start (paths_from (payload s.now) p 0) }
{
    let Ok(c) = next_path(s, p, PointsRole::Drawn as u8) else {
        return None;
    };
    if !c.curve && c.count == 0 {
        return None;
    }
    Some(point_from(s, c.start))
}

// The mean of the points that follow an item at p, else the start of its first path.
#[tactic(auto, unfolding(crate::specs::Labels::mean_or_start, crate::specs::Scene::points_at))]
fn mean_or_start(s: &[u8], p: usize) -> Option<Point>
    ensures { result ≡ mean_or_start (points_from (payload s.now) p 0)
        (paths_from (payload s.now) p 0) }
{
    match points_of(s, p, PointsRole::Drawn as u8) {
        Some(ps) if ps.count > 0 => Some(mean(s, ps.at, ps.count)),
        _ => first_start(s, p),
    }
}

// A point that stands for the item: where it is, else the mean of its points, else the start of its first path.
#[tactic(auto, unfolding(crate::specs::Labels::reference_point, crate::specs::Inner::Answers::item_by))]
pub fn reference_point(s: &[u8], it: Item) -> Option<Point>
    ensures { result ≡ reference_point (item_by (payload s.now) it) }
{
    match it.at {
        Some(p) => Some(p),
        None => mean_or_start(s, it.next),
    }
}

// A candidate, by its key: only a strictly greater one replaces the best.
#[tactic(auto, unfolding(crate::specs::Labels::consider))]
fn consider_point(b: Option<Best>, key: Key, at: Point) -> Option<Best>
    ensures { best_by result ≡ consider (best_by b) (key_by key) at }
{
    match b {
        Some(old) if key <= old.key => b,
        _ => Some(Best { key, at }),
    }
}

// The first place from q on, as the i-th, becomes a candidate.
pub fn consider_place(s: &[u8], b: Option<Best>, q: usize, i: usize) -> Option<Best>
    ensures { best_by result ≡ consider_place (best_by b) i (places_at (payload s.now) q) }
{
    let Ok(c) = next_place(s, q) else {
        return b;
    };
    let key = Key {
        top: !c.nested,
        line: c.line,
        col: c.col,
        order: i,
    };
    consider_point(b, key, Point { x: c.x, y: c.y })
}

// The best of the places from p on, the name having n bytes at `at`. Only those that carry it are read whole.
fn best_place(s: &[u8], p: usize, at: usize, n: usize) -> BestPlace
    requires { at + n ≤ room s.now }
    ensures best_value { best_by result.best ≡ best_place (bytes_at (payload s.now) at n) 0
        (places_at (payload s.now) p) None }
    ensures p_value { items_at (payload s.now) p ≡ items_at (payload s.now) result.end }
{
    let mut b = None;
    let mut q = p;
    // Counted by hand, and not by a range: how many places there are is known only behind the last.
    let mut i = 0usize;
    loop {
        match Wanted::Place.find(s, q) {
            Ok(h) => {
                if name_at_equals(s, h.at + 1, at, n) {
                    b = consider_place(s, b, h.at, i);
                }
                q = h.next;
                i += 1;
            }
            Err(end) => {
                return BestPlace { best: b, end };
            }
        }
    }
}

// The first item from q on, as the i-th, becomes a candidate, if it has a reference point. Apart from `consider_place`:
// an item is read otherwise and its point may be absent, so one function for both would be given all that differs.
#[tactic(auto, unfolding(crate::specs::Inner::Answers::item_by))]
pub fn consider_item(s: &[u8], b: Option<Best>, q: usize, i: usize) -> Option<Best>
    ensures { best_by result ≡ consider_item (best_by b) i (items_at (payload s.now) q) }
{
    let Ok(it) = next_item(s, q) else {
        return b;
    };
    let Some(at) = reference_point(s, it) else {
        return b;
    };
    let key = Key {
        top: !it.nested,
        line: it.line,
        col: it.col,
        order: i,
    };
    consider_point(b, key, at)
}

// The best of what was found among the places and of the items from p on, the label having n bytes at `at`. Apart from
// `best_place`: what is searched, where the label stands and what is considered all differ, so one walk is no plainer.
fn best_item(s: &[u8], p: usize, at: usize, n: usize, best: Option<Best>) -> Option<Best>
    requires { at + n ≤ room s.now }
    ensures { best_by result ≡ best_item (bytes_at (payload s.now) at n) 0
        (items_at (payload s.now) p) (best_by best) }
{
    let mut b = best;
    let mut q = p;
    // Counted by hand, as the places.
    let mut i = 0usize;
    while let Ok(h) = Wanted::Item.find(s, q) {
        if label_at_equals(s, h.at + 3, at, n) {
            b = consider_item(s, b, h.at, i);
        }
        q = h.next;
        i += 1;
    }
    b
}

// The point that the label of n bytes at `at` names, among the places and items from p on.
#[tactic(auto, unfolding(crate::specs::Labels::point_of_label))]
pub fn point_of_label(s: &[u8], p: usize, at: usize, n: usize) -> Option<Point>
    requires { at + n ≤ room s.now }
    ensures { result ≡ point_of_label (bytes_at (payload s.now) at n)
        (places_at (payload s.now) p) (items_at (payload s.now) p) }
{
    let placed = best_place(s, p, at, n);
    let b = best_item(s, placed.end, at, n, placed.best)?;
    Some(b.at)
}
