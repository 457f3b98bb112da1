// Refusals.
ghost use Rattle.std.specs.Prelude.{◌≡◌};
ghost use Rattle.values.specs.Inner.Refusals.{number_of};

// Why a stream is refused: the condition that it does not meet. Numbers are the host's.
#[derive(Clone, Copy, Debug, PartialEq, Eq)]
pub enum Refusal {
    Size = 1,
    Check = 2,
    Layout = 3,
    Limit = 4,
    Flatten = 5,
    Rescale = 6,
    Frame = 7,
    Outside = 8,
    TooMany = 9,
    NoAnchor = 10,
    Degenerate = 11,
    Scale = 12,
    ViewScale = 13,
    MaxScale = 14,
    WorkRoom = 15,
    PositionRoom = 16,
    FeatureRoom = 17,
    WarningRoom = 18,
    Step = 19,
    KindTable = 20,
}

impl Refusal {
    // The number that a host is given.
    pub fn number(self) -> u32
        ensures { result ≡ number_of self }
    {
        self as u32
    }
}
