// Points on the canvas, after the source's densify.rs.
#![tactic(auto)]

mod append;
mod counts;
mod cubic;
mod paths;
mod rings;
mod segments;

pub use append::{PointCursor, close_ring, put_point};
pub use counts::arc_vertices;
pub use paths::{copy_points, path_points};
pub use rings::{box_ring, ellipse_ring};
pub use segments::{densify_polyline, segment_want, spend_polyline};
