//! Complexes: the vertices of a set with their sphere maps, and the edges between them.
//!
//! A complex shows a set where its vertices are the points of the set without a flat direction, each with the least
//! map of the set there. Source: Granados et al., "Boolean Operations on 3D Selective Nef Complexes", ESA 2003.
#![tactic(auto)]

mod complex;
mod indexing;
mod items;
mod parts;
mod taken_rows;
mod walk;

pub use complex::{
    Complex, Corner, PlaneItems, PlaneMeet, Vertex, carrier_items, carrier_spans, edge_holders,
    find_vertex, plane_items, point_spans, vertex_at, vertex_holders,
};
pub use indexing::vertex_rows;
pub use nef_index::{
    Bounds, Edge, Index as PlaneIndex, SortedCarriers, Span, Table, holds, may_meet,
};
pub use parts::{Cycle, Facet, Parts, Shell, Side};
pub use std::alloc::AllocError as OutOfMemory;
pub use taken_rows::vertex_rows_from;
pub use walk::{Search, search_carriers};
