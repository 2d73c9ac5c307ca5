//! Which optional parts of RFC 8613 a context takes part in (4.1.3.4 and 4.1.3.5).

ghost use Rattle.std.specs.Prelude.{◌≡◌};
ghost use Rattle.osc_context.specs.Features.{unobserved};

/// The optional parts that a context takes part in. Both ends of a context must have the same ones.
#[derive(Clone, Copy, Debug, PartialEq, Eq)]
pub struct Features {
    /// Observe: a request may register, and notifications answer it (RFC 7641; RFC 8613, 4.1.3.5).
    pub observe: bool,
    /// Block-wise transfer inside the protection: Block1, Block2, Q-Block1 and Q-Block2 pass, both ways (RFC 7959; RFC 8613, 4.1.3.4.1;
    /// RFC 9177).
    pub blocks: bool,
}

impl Features {
    /// Returns the same features without Observe: those that count for a request that registers nothing and for its
    /// response (RFC 8613, 4.1.3.5).
    #[inline(always)]
    #[must_use]
    pub fn unobserved(self) -> Features
        ensures { result ≡ unobserved self }
    {
        Features {
            observe: false,
            blocks: self.blocks,
        }
    }
}

/// None of them: what a context has unless you say otherwise.
pub const NO_FEATURES: Features = Features {
    observe: false,
    blocks: false,
};
