//! Writes bytes at a place.

ghost use Rattle.std.specs.Prelude.{◌≡◌, ◌≤◌, ◌+◌, length};
ghost use Rattle.osc_coap.specs.OptionText.{placed};

/// Copies the bytes to a place, and returns where they end.
pub(crate) fn put(buf: &mut [u8], place: usize, bytes: &[u8]) -> usize
    requires { place + length bytes.now ≤ length buf.old }
    ensures written { buf.new ≡ placed place bytes.now buf.old }
    ensures end { result ≡ place + length bytes.now }
{
    let end = place + bytes.len();
    buf[place..end].copy_from_slice(bytes);
    end
}
