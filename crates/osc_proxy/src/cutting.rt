//! Cuts bytes at a delimiter (RFC 3986, B).

ghost use Rattle.std.specs.Prelude.{◌≡◌, option_copied};
ghost use Rattle.osc_proxy.specs.Uri.{before, behind};

/// Returns the bytes in front of the first delimiter, and those behind it if there is one.
pub(crate) fn cut(bytes: &[u8], delimiter: u8) -> (&[u8], Option<&[u8]>)
    ensures before { result.0.now ≡ before delimiter bytes.now }
    ensures behind { option_copied result.1 ≡ behind delimiter bytes.now }
{
    let mut rest = bytes;
    while let Some((first, tail)) = rest.split_first() {
        if *first == delimiter {
            return (&bytes[..bytes.len() - rest.len()], Some(tail));
        }
        rest = tail;
    }
    (bytes, None)
}
