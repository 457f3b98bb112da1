// The scene that a stream holds. A position is one of the payload; a question that starts at a position asks of the
// records from there on.
#![tactic(auto)]

mod fields;
mod labels;
mod names;
mod options;
mod readers;

pub use fields::{Frame, point_at};
pub use labels::{Best, Key, consider_item, consider_place, point_of_label};
pub use names::{name_at_equals, name_is, names_equal};
pub use options::{anchor, bearing, flatten, frame, rescale, scale, step, view_scale};
pub use readers::{
    Feature, FeatureName, Item, Path, Place, Points, Variable, next_feature, next_item, next_name,
    next_path, next_place, next_variable, points_of,
};
