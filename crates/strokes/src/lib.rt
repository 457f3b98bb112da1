// Lines, rings and points to features, after the source's convert.rs: densified, carried to the Earth, written.
#![tactic(auto)]

mod polylines;
mod positions;
mod state;
mod workspace;

pub use polylines::{draw_ring, polyline_or_polygon};
pub use positions::point_feature;
pub use state::{Ctx, Props, State, warn};
pub use workspace::{load_path, load_points};
