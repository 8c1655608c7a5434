//! What a ray within a plane first meets of a complex, and whether a point of a ray is a vertex or lies on an edge.
#![tactic(auto)]

mod along;
mod course;
mod first;
mod places;
mod plane;
mod window;

pub use along::{first_along_dir, first_in_plane};
pub use places::{is_at_vertex, is_in_line, is_on_edge};
pub use plane::first_along_axis;
