// The records of a stream.
#![tactic(auto)]

mod floats;
mod names;
mod numbers;
mod order;
mod records;
mod refusals;
mod search;

pub use names::common_prefix;
pub use numbers::{Form, Kind, PointsRole, SheetOption, Tag};
pub use records::{Record, Step, values_width};
pub use refusals::{check_stream, flatten, sheet_step};
pub use search::{Hit, Wanted, find, option_at};
