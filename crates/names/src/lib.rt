// Names against labels: a batch of names as a table, and one walk over the labels for all of them.
#![tactic(auto)]

mod batch;
mod table;
mod words;

pub use batch::{UNUSED, match_labels};
pub use table::{find_name, insert, unmark};
