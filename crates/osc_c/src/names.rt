//! The names of the statuses, for C.

ghost use Rattle.std.specs.Prelude.{◌≡◌, Some, length, slice_get, take};
ghost use Rattle.osc_status.specs.Statuses.{status_name};

use osc_status::name_of;

/// Writes the name of a status as text that ends in a 0 byte: `Done` for 0, the name of the refusal for each other status, and
/// `Unknown` for a number that isn't a status.
#[unsafe(no_mangle)]
pub extern "C" fn oscore_status_name_v5(status: u32, name: &mut [u8; 24])
    ensures front { take (length (status_name status)) name.new ≡ status_name status }
    ensures ended { slice_get name.new (length (status_name status)) ≡ Some 0 }
{
    let text = name_of(status);
    name[..text.len()].copy_from_slice(text);
    name[text.len()] = 0;
}
