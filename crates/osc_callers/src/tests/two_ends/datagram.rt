//! The tests' own reading of sealed datagrams. It reads only the head, the token of one byte, and the OSCORE option, which stands first
//! among their outer options (RFC 7252, 3; RFC 8613, 6.1).

/// What is read of a datagram before its payload.
#[derive(Clone, Copy)]
pub struct Front {
    pub token: u8,
    /// The number that the Partial IV spells, if there is one.
    pub number: Option<u64>,
}

/// Reads the front of a datagram. Returns `None` if it isn't of this form.
pub fn read(datagram: &[u8]) -> Option<Front> {
    let [first, _, _, _, token, option, behind @ ..] = datagram else {
        return None;
    };
    // A token of one byte; option 9, and the length of its value.
    if *first & 0x0f != 1 || *option >> 4 != 9 {
        return None;
    }
    let (value, _) = behind.split_at_checked(usize::from(*option & 0x0f))?;
    Some(Front {
        token: *token,
        number: partial_iv(value),
    })
}

/// Returns the number that the front of a datagram spells.
pub fn number_in(datagram: &[u8]) -> Option<u64> {
    read(datagram)?.number
}

/// Returns the number that the Partial IV in the value of an OSCORE option spells, high byte first.
fn partial_iv(value: &[u8]) -> Option<u64> {
    let (flags, behind) = value.split_first()?;
    let len = usize::from(*flags & 0x07);
    let (bytes, _) = behind.split_at_checked(len)?;
    if bytes.is_empty() {
        return None;
    }
    let mut number = 0u64;
    for byte in bytes {
        number = number << 8 | u64::from(*byte);
    }
    Some(number)
}
