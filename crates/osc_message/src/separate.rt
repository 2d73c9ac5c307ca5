//! A reply in a message of its own (RFC 7252, 5.2.2).
//!
//!     | version 2, Type 2, token length 4 bits | code | Message ID, high byte first, two bytes | token | ..
//!     |           new Type                     |      | new                                    |       | ..

ghost use Rattle.std.specs.Prelude.{◌≡◌, ◌≤◌, ◌<◌, length};
ghost use Rattle.osc_coap.specs.Datagram.{IsDatagram, Parts, kind_number};
ghost use Rattle.osc_coap.specs.OptionText.{placed};
ghost use Rattle.osc_message.specs.Separating.{kind_of};

/// How many bytes a head has (RFC 7252, 3).
const HEAD_LEN: usize = 4;

/// The Type of a reply in a message of its own (RFC 7252, 5.2.2 and 5.2.3).
#[derive(Clone, Copy, Debug, PartialEq, Eq)]
pub enum Separate {
    /// It is acknowledged, and sent again until then.
    Con,
    /// It isn't.
    Non,
}

/// Returns the number that the two bits of this Type hold (RFC 7252, 3).
fn number_of(separate: Separate) -> u8
    ensures value { result ≡ kind_number (kind_of separate) }
    ensures small { result < 2 }
{
    match separate {
        Separate::Con => 0,
        Separate::Non => 1,
    }
}

/// Writes four bytes to the front.
fn put_front(bytes: &mut [u8], front: [u8; 4])
    requires { 4 ≤ length bytes.old }
    ensures { bytes.new ≡ placed 0 front bytes.old }
{
    bytes[..HEAD_LEN].copy_from_slice(&front);
}

/// Makes a reply a message of its own, which answers a CON whose ACK was sent before: its datagram gets the Type CON or NON and a Message ID
/// of the sender's, and its token, code, options and payload stay. So do fewer than 4 bytes. A sealed reply stays the same to who opens it:
/// neither field is protected (RFC 7252, 5.2.2; RFC 8613, 4.2).
pub fn make_separate(datagram: &mut [u8], kind: Separate, message_id: u16)
    ensures message { (p : Parts) → IsDatagram p datagram.old
        → IsDatagram (record p { kind = kind_of kind; message_id = message_id }) datagram.new }
    ensures short { length datagram.old < 4 → datagram.new ≡ datagram.old }
    ensures length { length datagram.new ≡ length datagram.old }
{
    if datagram.len() < HEAD_LEN {
        return;
    }
    let (old, code) = (datagram[0], datagram[1]);
    let first = 64 + 16 * number_of(kind) + old % 16;
    let id = message_id.to_be_bytes();
    put_front(datagram, [first, code, id[0], id[1]]);
}
