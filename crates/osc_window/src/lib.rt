//! Which numbers of requests are new (RFC 8613, 7.4), and the gate that stays closed after a restart until a
//! request carries the challenge (RFC 8613, B.1.2, and RFC 9175, 2.3).
//!
//! The request with number 20 of RFC 8613, C.4, and then the same request again:
//!
//!     let mut window = Window::fresh(WindowSize::Places32);
//!     let number = Piv::new(20)?;
//!     if window.is_new(number) {
//!         // Open the request, and only if its tag is right:
//!         window.mark(number);
//!     }
//!     // From now on `window.is_new(number)` is false.
#![tactic(auto)]

mod gate;
mod laws;
mod window;
mod window_size;

pub use gate::Gate;
pub use laws::{in_order, takes_new_numbers};
pub use window::{Window, WindowParts};
pub use window_size::WindowSize;
