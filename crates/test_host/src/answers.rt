// What the module's parts answer, as C lays it out: `some` says whether there is an answer. Where it is false the other
// fields are zeros, but for `next`, which is where the search ended. A struct each, and no generic one of `some` and a
// value: in C the fields stand side by side, and a struct behind `some` would lie otherwise.
ghost use Rattle.std.specs.Prelude.{◌≡◌, List, ℕ};
ghost use Rattle.std.specs.Result.{result_ok};
ghost use Rattle.scene.specs.Inner.Answers.{features_by, frame_by, items_by, paths_by, places_by, points_by, variables_by};
ghost use Rattle.test_host.specs.Inner.Answers.{float_in, point_in, frame_in, features_in, variables_in, places_in};
ghost use Rattle.test_host.specs.Inner.Answers.{items_in, points_in, paths_in};

use scene::Frame;
use values::Point;

#[repr(C)]
#[derive(Clone, Copy)]
pub struct OptionalFloat {
    pub some: bool,
    pub value: f64,
}

impl From<Option<f64>> for OptionalFloat {
    ghost from_gives = { λ o r. float_in r ≡ o };

    fn from(o: Option<f64>) -> OptionalFloat {
        match o {
            Some(value) => OptionalFloat { some: true, value },
            None => OptionalFloat {
                some: false,
                value: 0.0,
            },
        }
    }
}

#[repr(C)]
#[derive(Clone, Copy)]
pub struct OptionalPoint {
    pub some: bool,
    pub x: f64,
    pub y: f64,
}

impl From<Option<Point>> for OptionalPoint {
    ghost from_gives = { λ o r. point_in r ≡ o };

    fn from(o: Option<Point>) -> OptionalPoint {
        match o {
            Some(p) => OptionalPoint {
                some: true,
                x: p.x,
                y: p.y,
            },
            None => OptionalPoint {
                some: false,
                x: 0.0,
                y: 0.0,
            },
        }
    }
}

#[repr(C)]
#[derive(Clone, Copy)]
pub struct FrameOption {
    pub some: bool,
    // 0 enu, 1 Mercator
    pub frame: u8,
}

impl From<Option<Frame>> for FrameOption {
    ghost from_gives = { λ o r. frame_in r ≡ frame_by o };

    fn from(o: Option<Frame>) -> FrameOption {
        match o {
            Some(frame) => FrameOption {
                some: true,
                frame: frame as u8,
            },
            None => FrameOption {
                some: false,
                frame: 0,
            },
        }
    }
}

#[repr(C)]
#[derive(Clone, Copy)]
pub struct Feature {
    pub some: bool,
    pub at: usize,
    pub len: usize,
    pub lon: f64,
    pub lat: f64,
    pub next: usize,
}

impl From<Result<scene::Feature, usize>> for Feature {
    ghost from_gives = { λ o r. (l : List ℕ) → features_in l r ≡ features_by l (result_ok o) };

    fn from(o: Result<scene::Feature, usize>) -> Feature {
        match o {
            Ok(f) => Feature {
                some: true,
                at: f.at,
                len: f.len,
                lon: f.lon,
                lat: f.lat,
                next: f.next,
            },
            Err(end) => Feature {
                some: false,
                at: 0,
                len: 0,
                lon: 0.0,
                lat: 0.0,
                next: end,
            },
        }
    }
}

#[repr(C)]
#[derive(Clone, Copy)]
pub struct Variable {
    pub some: bool,
    pub at: usize,
    pub len: usize,
    pub value: f64,
    pub next: usize,
}

impl From<Result<scene::Variable, usize>> for Variable {
    ghost from_gives = { λ o r. (l : List ℕ) → variables_in l r ≡ variables_by l o };

    fn from(o: Result<scene::Variable, usize>) -> Variable {
        match o {
            Ok(v) => Variable {
                some: true,
                at: v.at,
                len: v.len,
                value: v.value,
                next: v.next,
            },
            Err(end) => Variable {
                some: false,
                at: 0,
                len: 0,
                value: 0.0,
                next: end,
            },
        }
    }
}

#[repr(C)]
#[derive(Clone, Copy)]
pub struct Place {
    pub some: bool,
    pub at: usize,
    pub len: usize,
    pub x: f64,
    pub y: f64,
    pub nested: bool,
    pub line: u32,
    pub col: u32,
    pub next: usize,
}

impl From<Result<scene::Place, usize>> for Place {
    ghost from_gives = { λ o r. (l : List ℕ) → places_in l r ≡ places_by l (result_ok o) };

    fn from(o: Result<scene::Place, usize>) -> Place {
        match o {
            Ok(p) => Place {
                some: true,
                at: p.at,
                len: p.len,
                x: p.x,
                y: p.y,
                nested: p.nested,
                line: p.line,
                col: p.col,
                next: p.next,
            },
            Err(end) => Place {
                some: false,
                at: 0,
                len: 0,
                x: 0.0,
                y: 0.0,
                nested: false,
                line: 0,
                col: 0,
                next: end,
            },
        }
    }
}

#[repr(C)]
#[derive(Clone, Copy)]
pub struct Item {
    pub some: bool,
    pub kind: u8,
    pub hidden: bool,
    pub nested: bool,
    pub closed: bool,
    pub fill: bool,
    pub screen: bool,
    pub label: usize,
    pub len: usize,
    pub line: u32,
    pub col: u32,
    pub at: OptionalPoint,
    pub w: OptionalFloat,
    pub h: OptionalFloat,
    pub r: OptionalFloat,
    pub rad: OptionalFloat,
    pub next: usize,
}

#[tactic(auto, unfolding(scene::specs::Inner::Answers::item_by))]
impl From<Result<scene::Item, usize>> for Item {
    ghost from_gives = { λ o r. (l : List ℕ) → items_in l r ≡ items_by l (result_ok o) };

    fn from(o: Result<scene::Item, usize>) -> Item {
        match o {
            Ok(it) => Item {
                some: true,
                kind: it.kind.number(),
                hidden: it.hidden,
                nested: it.nested,
                closed: it.closed,
                fill: it.fill,
                screen: it.screen,
                label: it.label,
                len: it.len,
                line: it.line,
                col: it.col,
                at: it.at.into(),
                w: it.w.into(),
                h: it.h.into(),
                r: it.r.into(),
                rad: it.rad.into(),
                next: it.next,
            },
            Err(end) => Item {
                some: false,
                kind: 0,
                hidden: false,
                nested: false,
                closed: false,
                fill: false,
                screen: false,
                label: 0,
                len: 0,
                line: 0,
                col: 0,
                at: None.into(),
                w: None.into(),
                h: None.into(),
                r: None.into(),
                rad: None.into(),
                next: end,
            },
        }
    }
}

#[repr(C)]
#[derive(Clone, Copy)]
pub struct Points {
    pub some: bool,
    pub at: usize,
    pub count: u16,
}

impl From<Option<scene::Points>> for Points {
    ghost from_gives = { λ o r. (l : List ℕ) → points_in l r ≡ points_by l o };

    fn from(o: Option<scene::Points>) -> Points {
        match o {
            Some(p) => Points {
                some: true,
                at: p.at,
                count: p.count,
            },
            None => Points {
                some: false,
                at: 0,
                count: 0,
            },
        }
    }
}

#[repr(C)]
#[derive(Clone, Copy)]
pub struct Path {
    pub some: bool,
    pub closed: bool,
    pub curve: bool,
    pub start: usize,
    pub at: usize,
    pub count: u16,
    pub next: usize,
}

impl From<Result<scene::Path, usize>> for Path {
    ghost from_gives = { λ o r. (l : List ℕ) (role : ℕ) → paths_in l role r ≡ paths_by l role (result_ok o) };

    fn from(o: Result<scene::Path, usize>) -> Path {
        match o {
            Ok(p) => Path {
                some: true,
                closed: p.closed,
                curve: p.curve,
                start: p.start,
                at: p.at,
                count: p.count,
                next: p.next,
            },
            Err(end) => Path {
                some: false,
                closed: false,
                curve: false,
                start: 0,
                at: 0,
                count: 0,
                next: end,
            },
        }
    }
}
