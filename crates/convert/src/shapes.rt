// What an item draws.
ghost use Rattle.std.specs.Prelude.{◌≡◌, List, ℕ};
ghost use Rattle.scene.specs.Inner.Answers.{item_by};
ghost use Rattle.convert.specs.Convert.{box_of, ellipse_of, circle_of, dot_of, shape_of, props_of};

use geojson::Placement;
use kind_table::{is_not_drawn, is_on_screen};
use records::Kind;
use scene::Item;
use strokes::Props;

// A drawn shape with its centre, sizes and radii, or a list of points or paths.
#[derive(Clone, Copy)]
pub enum Shape {
    Box(f64, f64, f64, f64, f64),
    Ellipse(f64, f64, f64, f64),
    Circle(f64, f64, f64),
    Dot(f64, f64),
    Points,
    Paths,
    Missing,
    Nothing,
}

#[tactic(auto, unfolding(crate::specs::Convert::box_of, scene::specs::Inner::Answers::item_by))]
fn box_of(it: Item) -> Shape
    ensures { (l : List ℕ) → result ≡ box_of (item_by l it) }
{
    let (Some(c), Some(w), Some(h)) = (it.at, it.w, it.h) else {
        return Shape::Missing;
    };
    Shape::Box(c.x, c.y, w, h, it.rad.unwrap_or(0.0))
}

#[tactic(auto, unfolding(crate::specs::Convert::ellipse_of, scene::specs::Inner::Answers::item_by))]
fn ellipse_of(it: Item) -> Shape
    ensures { (l : List ℕ) → result ≡ ellipse_of (item_by l it) }
{
    let (Some(c), Some(w), Some(h)) = (it.at, it.w, it.h) else {
        return Shape::Missing;
    };
    Shape::Ellipse(c.x, c.y, w, h)
}

#[tactic(auto, unfolding(crate::specs::Convert::circle_of, scene::specs::Inner::Answers::item_by))]
fn circle_of(it: Item) -> Shape
    ensures { (l : List ℕ) → result ≡ circle_of (item_by l it) }
{
    let (Some(c), Some(r)) = (it.at, it.r) else {
        return Shape::Missing;
    };
    Shape::Circle(c.x, c.y, r)
}

#[tactic(auto, unfolding(crate::specs::Convert::dot_of, scene::specs::Inner::Answers::item_by))]
fn dot_of(it: Item) -> Shape
    ensures { (l : List ℕ) → result ≡ dot_of (item_by l it) }
{
    match it.at {
        Some(c) => Shape::Dot(c.x, c.y),
        None => Shape::Missing,
    }
}

// By its kind, where the entry of its kind lets it be drawn.
#[tactic(auto, unfolding(crate::specs::Convert::shape_of, scene::specs::Inner::Answers::item_by))]
pub fn shape_of(it: Item, entry: u8) -> Shape
    ensures { (l : List ℕ) → result ≡ shape_of entry (item_by l it) }
{
    if is_not_drawn(it.hidden, entry) {
        return Shape::Nothing;
    }
    match it.kind {
        Kind::Box => box_of(it),
        Kind::Circle => circle_of(it),
        Kind::Ellipse => ellipse_of(it),
        Kind::Text | Kind::Dot => dot_of(it),
        Kind::Line | Kind::Arrow => Shape::Points,
        Kind::Arc | Kind::Spline | Kind::Brace | Kind::Block => Shape::Paths,
    }
}

// What its feature lines say of the i-th item, by the entry of its kind.
#[tactic(auto, unfolding(crate::specs::Convert::props_of, scene::specs::Inner::Answers::item_by))]
pub fn props_of(it: Item, i: u32, entry: u8) -> Props
    ensures { (l : List ℕ) → result ≡ props_of entry i (item_by l it) }
{
    let placement = if is_on_screen(it.screen, entry) {
        Placement::Screen as u32
    } else {
        Placement::Map as u32
    };
    Props {
        item: i,
        placement,
        part: 0,
        fill: it.fill,
    }
}
