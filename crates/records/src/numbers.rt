// The numbers of document 01's layout, and of what document 02 adds to it.
ghost use Rattle.std.specs.Prelude.{◌≡◌, ◌≤◌, MatchResult};
ghost use Rattle.records.specs.Inner.Numbers.{tag_number, sheet_option_of, role_of, kind_of, form_of};

// The first byte of a record.
#[derive(Clone, Copy, Debug, PartialEq, Eq)]
pub enum Tag {
    End = 0,
    Rescale = 1,
    Option = 2,
    Feature = 3,
    Variable = 4,
    Place = 5,
    Item = 6,
    Points = 7,
    Path = 8,
}

impl Tag {
    // The byte that says so.
    pub fn number(self) -> u8
        ensures { result ≡ tag_number self }
    {
        self as u8
    }
}

impl TryFrom<u8> for Tag {
    type Error = u8;

    ghost try_from_gives = { λ b r. MatchResult r (λ t. tag_number t ≡ b) (λ e. 9 ≤ b) };

    fn try_from(b: u8) -> Result<Tag, u8> {
        match b {
            0 => Ok(Tag::End),
            1 => Ok(Tag::Rescale),
            2 => Ok(Tag::Option),
            3 => Ok(Tag::Feature),
            4 => Ok(Tag::Variable),
            5 => Ok(Tag::Place),
            6 => Ok(Tag::Item),
            7 => Ok(Tag::Points),
            8 => Ok(Tag::Path),
            _ => Err(b),
        }
    }
}

// Which option a record of options is.
#[derive(Clone, Copy, Debug, PartialEq, Eq)]
pub enum SheetOption {
    Frame = 1,
    Anchor = 2,
    Scale = 3,
    Bearing = 4,
    Flatten = 5,
    ViewScale = 6,
    Step = 7,
}

impl SheetOption {
    // The byte that says so.
    pub fn number(self) -> u8
        ensures { result ≡ sheet_option_of self }
    {
        self as u8
    }
}

// What an item's points or path are for.
#[derive(Clone, Copy, Debug, PartialEq, Eq)]
pub enum PointsRole {
    Drawn = 0,
    Fill = 1,
}

impl PointsRole {
    // The byte that says so.
    pub fn number(self) -> u8
        ensures { result ≡ role_of self }
    {
        self as u8
    }
}

impl TryFrom<u8> for PointsRole {
    type Error = u8;

    ghost try_from_gives = { λ b r. MatchResult r (λ role. role_of role ≡ b) (λ e. 2 ≤ b) };

    fn try_from(b: u8) -> Result<PointsRole, u8> {
        match b {
            0 => Ok(PointsRole::Drawn),
            1 => Ok(PointsRole::Fill),
            _ => Err(b),
        }
    }
}

// What an item is.
#[derive(Clone, Copy, Debug, PartialEq, Eq)]
pub enum Kind {
    Box = 0,
    Circle = 1,
    Ellipse = 2,
    Arc = 3,
    Line = 4,
    Arrow = 5,
    Spline = 6,
    Text = 7,
    Dot = 8,
    Brace = 9,
    Block = 10,
}

impl Kind {
    // The byte that says so.
    pub fn number(self) -> u8
        ensures { result ≡ kind_of self }
    {
        self as u8
    }

    // What the byte of an item says.
    pub fn of_byte(b: u8) -> Kind
        requires { b ≤ 10 }
        ensures { kind_of result ≡ b }
    {
        match b {
            0 => Kind::Box,
            1 => Kind::Circle,
            2 => Kind::Ellipse,
            3 => Kind::Arc,
            4 => Kind::Line,
            5 => Kind::Arrow,
            6 => Kind::Spline,
            7 => Kind::Text,
            8 => Kind::Dot,
            9 => Kind::Brace,
            _ => Kind::Block,
        }
    }
}

// What a path is made of.
#[derive(Clone, Copy, Debug, PartialEq, Eq)]
pub enum Form {
    Cubics = 0,
    Polyline = 1,
}

impl Form {
    // The byte that says so.
    pub fn number(self) -> u8
        ensures { result ≡ form_of self }
    {
        self as u8
    }
}

impl TryFrom<u8> for Form {
    type Error = u8;

    ghost try_from_gives = { λ b r. MatchResult r (λ form. form_of form ≡ b) (λ e. 2 ≤ b) };

    fn try_from(b: u8) -> Result<Form, u8> {
        match b {
            0 => Ok(Form::Cubics),
            1 => Ok(Form::Polyline),
            _ => Err(b),
        }
    }
}

// A name has so many bytes at most.
pub const MAX_NAME: usize = 31;

// A measure of the canvas has this magnitude at most.
pub const MAX_MEASURE: f64 = 1000000.0;

// The tolerance of curves where the option is absent.
pub const FLATTEN: f64 = 0.001;

// The longest step between two positions, in metres, where the option is absent.
pub const MAX_STEP_M: f64 = 100.0;

// What the option may be.
pub const LEAST_STEP: f64 = 1.0;

pub const GREATEST_STEP: f64 = 1000.0;
