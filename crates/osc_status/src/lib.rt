//! What the calls of C answer: a number for each refusal of the layers below, its name, and a detail. `bindings/c/oscore.h` has the numbers.
#![tactic(auto)]

mod refusal;
mod status;

pub use refusal::Refusal;
pub use status::{DONE, Status, name_of};
