// What several crates share: points, refusals, and warnings in a lent slice.
#![tactic(auto)]

mod refusal;
mod warning;

pub use refusal::Refusal;
pub use warning::{NoRoom, WarningKind, push_warning};

// A point of the canvas, in inches, or a position: longitude as x, latitude as y.
#[repr(C)]
#[derive(Clone, Copy)]
pub struct Point {
    pub x: f64,
    pub y: f64,
}
