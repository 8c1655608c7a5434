//! What a set looks like near a point: laws on labels, germs, cones and flat directions.
//!
//! The cone of a set at a point is the local pyramid of Granados, Hachenberger, Hert, Kettner, Mehlhorn and Seel,
//! "Boolean operations on 3D selective Nef complexes" (ESA 2003). The statements of the laws stand in specs/near/Laws.antt.

mod forms;
mod laws;

pub use forms::{
    factor_laws, first_change_laws, form_segment_laws, generic_laws, near_form_laws,
    representative_laws,
};
pub use laws::{
    cell_laws, combination_laws, cone_examples, cone_laws, decision_laws, flat_laws, joined_laws,
    near_laws, same_set_laws, segment_laws, topology_laws,
};
