//! Whether a code is that of a request or of a response (RFC 7252, 12.1). A code is one byte: the class in the upper
//! three bits, the detail in the lower five.

ghost use Rattle.std.specs.Prelude.{◌≡◌};
ghost use Rattle.osc_coap.specs.Code.{is_request_code, is_response_code};

/// The code after the last request code, 0.31.
const REQUEST_CODE_LIMIT: u8 = 32;

/// Returns whether the code is that of a request, 0.01 to 0.31 (RFC 7252, 12.1).
#[must_use]
pub fn is_request_code(code: u8) -> bool
    ensures { result ≡ is_request_code code }
{
    0 < code && code < REQUEST_CODE_LIMIT
}

/// Returns whether the code is that of a response, of class 2, 4 or 5 (RFC 7252, 12.1).
#[must_use]
pub fn is_response_code(code: u8) -> bool
    ensures { result ≡ is_response_code code }
{
    let class = code / 32;
    class == 2 || class == 4 || class == 5
}
