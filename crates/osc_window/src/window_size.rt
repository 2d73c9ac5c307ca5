//! The sizes of a replay window (RFC 8613, 3.2 and 7.4).

ghost use Rattle.std.specs.Prelude.{◌≡◌, ◌≤◌};
ghost use Rattle.osc_window.specs.Views.{places_of};

/// The size of a replay window: 32 places, which is the standard's default (RFC 8613, 3.2.2), or 1 or 64 (own rule).
#[derive(Clone, Copy, Debug, PartialEq, Eq)]
pub enum WindowSize {
    /// A number is new only above the highest one: numbers come in order (RFC 8613, 7.4).
    Place1,
    /// The lowest number that can be new is 31 below the highest one.
    Places32,
    /// The lowest number that can be new is 63 below the highest one.
    Places64,
}

impl WindowSize {
    /// Returns the number of places. A number this far below the highest marked one, or farther, is too old
    /// (RFC 8613, 7.4).
    #[must_use]
    pub fn places(self) -> u64
        ensures value { result ≡ places_of self }
        ensures least { 1 ≤ result }
        ensures most { result ≤ 64 }
    {
        match self {
            WindowSize::Place1 => 1,
            WindowSize::Places32 => 32,
            WindowSize::Places64 => 64,
        }
    }
}

impl Default for WindowSize {
    ghost use Rattle.osc_window.specs.declared.window_size.WindowSize.TheVariants.{Places32};

    ghost is_default = { λ size. size ≡ Places32 };

    /// Returns the standard's default, 32 places (RFC 8613, 3.2.2).
    fn default() -> WindowSize {
        WindowSize::Places32
    }
}
