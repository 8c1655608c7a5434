//! Exact geometry on whole numbers: planes, points, directions, rays, meets and hits.
//!
//! All arithmetic is on machine integers of at most 128 bits, and no call takes memory.
#![tactic(auto)]

mod dir;
mod gcd;
mod hit;
mod list;
mod order;
mod plane;
mod point;
mod ray;
mod sides;
mod sign;
mod ways;

pub use dir::Dir;
pub use hit::{FarHit, Hit};
pub use list::List;
pub use nef_space::{HALF_SIDE, Label, NORMAL_LIMIT, OFFSET_LIMIT};
pub use order::{dir_cmp, far_order, hit_order, lex_cmp, normal_form_laws, wide_product};
pub use plane::{Oriented, Plane, PlaneFault};
pub use point::Point;
pub use ray::{far_hit, hit_at, ray_hit};
pub use sides::{far_side, hit_side, meet, side};
pub use sign::{
    Sign, Wide, common_perpendicular, cross, cross_wide, dir_side, dot, dot_wide, quad, triple,
};
pub use ways::{axis_x, axis_y, axis_z, plane_axis, plane_dir, plane_normal, up, wide};
