//! The text of a complex tells its vertices, and the set of a complex determines its parts and its text. A text is a
//! list of bytes; nothing runs. Each law is a clause of a function with an empty body.

pub mod existence;
mod laws;

pub use laws::{determined_laws, frame_text_laws, text_laws};
