//! Numbers that are reserved 64 at a time, before they are used (RFC 8613, B.1.1).

ghost use Rattle.std.specs.Prelude.{◌≡◌, ◌≤◌, ◌^◌, IfSome, None};
ghost use Rattle.osc_context.specs.Reserving.{next_limit};
ghost use Rattle.osc_handle.specs.Reserved.{WantsSave};

/// No number is this large (RFC 8613, 7.2.1).
const NUMBER_LIMIT: u64 = 1 << 40;

/// How many numbers one save reserves.
const STEP: u64 = 64;

/// Returns the limit of the next reservation.
#[must_use]
pub fn next_limit(reserved: u64) -> u64
    requires { reserved ≤ 2 ^ 40 }
    ensures { result ≡ next_limit reserved }
{
    (reserved + STEP).min(NUMBER_LIMIT)
}

/// Returns the number to save before the end goes on, if there is one. `asked` says whether the end needs a number, `next` is its
/// next number, and `reserved` is the first number that isn't reserved.
#[must_use]
pub fn save_first(asked: bool, next: u64, reserved: u64) -> Option<u64>
    requires { reserved ≤ 2 ^ 40 }
    ensures refused { IfSome result (λ number. (number ≡ next_limit reserved) × WantsSave asked next reserved) }
    ensures accepted { result ≡ None → WantsSave asked next reserved → ⊥ }
{
    if next == reserved && reserved < NUMBER_LIMIT && (asked || reserved == 0) {
        return Some(next_limit(reserved));
    }
    None
}
