// Items to features, after the source's convert.rs.
#![tactic(auto)]

mod items;
mod shapes;

pub use items::convert;
