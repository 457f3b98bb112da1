// What is handed from item to item.
ghost use Rattle.std.specs.Prelude.{◌≤◌, length};
ghost use Rattle.values.specs.Inner.Refusals.{kind_of};
ghost use Rattle.strokes.specs.Strokes.{one_event, warned};
ghost use Rattle.strokes.specs.Inner.Space.{Warns};

use budget::Budget;
use projection::Projection;
use values::{Refusal, WarningKind, push_warning};

// What is the same for every item: the projection, the longest step in metres, and the tolerance for curves in inches.
#[derive(Clone, Copy)]
pub struct Ctx {
    pub projection: Projection,
    pub step: f64,
    pub flatten: f64,
}

// What a feature line says of its item; `fill` asks for a separate fill of an open shape.
#[derive(Clone, Copy)]
pub struct Props {
    pub item: u32,
    pub placement: u32,
    pub part: u32,
    pub fill: bool,
}

// How much of each slice is used, in floats and words.
#[derive(Clone, Copy)]
pub struct State {
    pub positions: usize,
    pub features: usize,
    pub warnings: usize,
    pub budget: Budget,
}

// One warning more.
pub fn warn(
    warnings: &mut [u32],
    st: State,
    kind: WarningKind,
    index: u32,
) -> Result<State, Refusal>
    requires { st.warnings ≤ length warnings.old }
    ensures { Warns (one_event (warned (record { kind = kind_of kind; index = index })) st.budget)
        warnings.old st warnings.new result }
{
    let used = push_warning(warnings, Ok(st.warnings), kind.number(), index)?;
    Ok(State {
        warnings: used,
        ..st
    })
}
