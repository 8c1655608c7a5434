//! The 48 turns of space, on sets, on germs, on sphere maps and on complexes.

mod laws;

pub use laws::{complex_laws, map_laws, number_laws, place_laws, set_laws, vector_laws};
