//! What holds of what is obeyed, over all that happens at both ends and between them: bodies that are joined of blocks, commands that are
//! sealed anew, and requests that have to be fresh (RFC 7252, 4.5; RFC 7959, 2.3; RFC 8613, 7.3, 7.4 and 8.4; RFC 9175, 2.3 and 3.5.1). These
//! functions exist only for their contracts.
#![tactic(auto)]

mod laws;

pub use laws::{bodies_are_cut, fresh_on_demand, one_command};
