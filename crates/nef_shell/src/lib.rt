//! The top call of the program: reads the words and the script, checks them, works the steps of the
//! script's plan and writes the answers in the order of the commands.
//!
//! What a run and the program say stands in the specs of `nef_statement`, where `Statement` is to be
//! read first. The definitions in specs/ here are for the proofs, and for those who take apart what
//! the texts tell of facets and shells: `Output` says what each command writes, `Ended` what a run
//! that is done has written. `work_steps` and `work_step` are public for what they say of memory: no set
//! is kept past its last use (`Lean`).
#![tactic(auto)]

mod ahead;
mod comparison;
mod early;
mod held;
mod operation;
mod piece;
mod top;
mod values;
mod work;

pub use comparison::{same_text, written_laws};
pub use held::{Held, Value};
pub use nef_statement::Status;
pub use operation::Resources;
pub use top::{code, program, run};
pub use work::{work_step, work_steps};
