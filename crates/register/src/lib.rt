// Registration, after the source's register.rs: control points and anchor, refusals 7 to 14, warnings 1 to 4.
#![tactic(auto)]

mod controls;
mod declared;
mod lat_lookup;
mod mentions;
mod outcome;
mod survey;
mod warnings;

pub use outcome::register;
pub use survey::{Survey, survey_stream};
pub use warnings::write_warnings;
