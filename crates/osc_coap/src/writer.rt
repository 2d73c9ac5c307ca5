//! Writing a datagram or a plaintext into a caller's buffer, from the front to the payload.

ghost use Rattle.std.specs.Prelude.{◌≡◌, ◌≢◌, ◌≤◌, ◌<◌, ◌+◌, ℕ, List, [], drop, take, length, IsOk, IfOk, IfErr, OnOk, OnErr, IsErrOf, MatchResult};
ghost use Rattle.arrayvec.specs.ArrayVec.{array_vec_len};
ghost use Rattle.osc_coap.specs.Datagram.{Parts, IsDatagram};
ghost use Rattle.osc_coap.specs.Inner.{InnerParts, IsInner};
ghost use Rattle.osc_coap.specs.Writing.{Draft, Datagram, Plaintext, bare, bare_inner, with_option, with_payload, length_of, IsFirstReason, RefusesHead, TakesHead, RefusesOption, TakesOption, RefusesPayload, TakesPayload};

use crate::body::PAYLOAD_MARKER;
use crate::format_error::MOST_DATAGRAM;
use crate::head::{head_len, put_head};
use crate::message::{Kind, Token};
use crate::option_header::{MOST_VALUE, option_len, put_option};
use crate::placing::put;
use crate::write_error::WriteError;

/// What can follow.
#[derive(Clone, Copy, PartialEq, Eq)]
enum Stage {
    /// Nothing: the code is 0.00, and such a message is only a head (RFC 7252, 4.1).
    Alone,
    /// Options and a payload.
    Open,
    /// Nothing: the payload is written.
    Closed,
}

/// Writes a datagram (RFC 7252, 3), or a plaintext (RFC 8613, 5.3), at the front of a buffer. The bytes after what is
/// written stay as they are. A refusal changes neither the writer nor its bytes.
#[derive(Drop)]
pub struct Writer<'a> {
    buf: &'a mut [u8],
    len: usize,
    number: u16,
    stage: Stage,
    ghost within: { len ≤ length buf.now },
    ghost fits: { len ≤ 65535 },
}

impl<'a> Writer<'a> {
    ghost use Rattle.osc_coap.specs.Writer.{Holds, buffer_of};
    ghost use Rattle.osc_coap.specs.Held.{TakesNow, RefusesOptionNow, RefusesPayloadNow};
    ghost use Rattle.osc_coap.specs.declared.write_error.WriteError.TheVariants.{NoRoom};

    /// Begins a datagram (RFC 7252, 3). Refuses with EmptyWithRest or NoRoom, judged in this order, and then writes
    /// nothing. A caller whose proof is about its own buffer uses `begin`.
    pub fn new(
        buf: &'a mut [u8],
        kind: Kind,
        code: u8,
        message_id: u16,
        token: &Token,
    ) -> Result<Writer<'a>, WriteError>
        ensures same_reference { IfOk result (λ w. buffer_of w ≡ buf.entry.ghost_name) }
        ensures made { IfOk result (λ w.
            Holds w (Datagram (bare kind code message_id token.now.items)) buf.old) }
        ensures accepted { IsOk result → TakesHead (length buf.old) code token.now.items }
        ensures accepts { TakesHead (length buf.old) code token.now.items → IsOk result }
        ensures refused { IfErr result (IsFirstReason (RefusesHead (length buf.old) code token.now.items)) }
        ensures refuses { (e : WriteError) → IsFirstReason (RefusesHead (length buf.old) code token.now.items) e
            → IsErrOf result e }
    {
        if code == 0 && !token.is_empty() {
            return Err(WriteError::EmptyWithRest);
        }
        if buf.len() < head_len(token) {
            return Err(WriteError::NoRoom);
        }
        Ok(Writer::begin(buf, kind, code, message_id, token))
    }

    /// Begins a datagram in a buffer that has room for its head and its token (`head_len`). A datagram with code 0.00
    /// has no token (RFC 7252, 3 and 4.1).
    #[must_use]
    pub fn begin(
        buf: &'a mut [u8],
        kind: Kind,
        code: u8,
        message_id: u16,
        token: &Token,
    ) -> Writer<'a>
        requires room { 4 + array_vec_len token.now ≤ length buf.old }
        requires alone { code ≡ 0 → token.now.items ≡ [] }
        ensures same_reference { buffer_of result ≡ buf.entry.ghost_name }
        ensures made { Holds result (Datagram (bare kind code message_id token.now.items)) buf.old }
    {
        let len = put_head(buf, kind, code, message_id, token);
        Writer {
            buf,
            len,
            number: 0,
            stage: if code == 0 { Stage::Alone } else { Stage::Open },
        }
    }

    /// Begins a plaintext. Its code can be any code, even 0.00 (RFC 8613, 5.3). Refuses with NoRoom if the buffer is
    /// empty, and then writes nothing. A caller whose proof is about its own buffer uses `begin_inner`.
    pub fn inner(buf: &'a mut [u8], code: u8) -> Result<Writer<'a>, WriteError>
        ensures same_reference { IfOk result (λ w. buffer_of w ≡ buf.entry.ghost_name) }
        ensures made { IfOk result (λ w. Holds w (Plaintext (bare_inner code)) buf.old) }
        ensures accepted { IsOk result → 0 < length buf.old }
        ensures accepts { 0 < length buf.old → IsOk result }
        ensures refused { IfErr result (λ e. (e ≡ NoRoom) × (buf.old ≡ [])) }
        ensures refuses { buf.old ≡ [] → IsErrOf result NoRoom }
    {
        if buf.is_empty() {
            return Err(WriteError::NoRoom);
        }
        Ok(Writer::begin_inner(buf, code))
    }

    /// Begins a plaintext in a buffer that has room for its code, one byte (RFC 8613, 5.3).
    #[tactic(auto, unfolding(crate::specs::Writer::Holds))]
    #[must_use]
    pub fn begin_inner(buf: &'a mut [u8], code: u8) -> Writer<'a>
        requires { 0 < length buf.old }
        ensures same_reference { buffer_of result ≡ buf.entry.ghost_name }
        ensures made { Holds result (Plaintext (bare_inner code)) buf.old }
    {
        let len = put(buf, 0, &[code]);
        Writer {
            buf,
            len,
            number: 0,
            stage: Stage::Open,
        }
    }

    /// Judges whether an option can follow, given its number and the length of its value.
    fn judge_option(&self, number: u16, value_len: usize) -> Result<(), WriteError>
        ensures { MatchResult result (λ _. TakesNow self.now number value_len)
            (RefusesOptionNow self.now number value_len) }
    {
        match self.stage {
            Stage::Alone => return Err(WriteError::EmptyWithRest),
            Stage::Closed => return Err(WriteError::Order),
            Stage::Open => {}
        }
        if number < self.number {
            return Err(WriteError::Order);
        }
        if value_len > MOST_VALUE {
            return Err(WriteError::ValueTooLong);
        }
        let limit = self.buf.len().min(MOST_DATAGRAM);
        // What is shorter than a datagram has a length of two bytes.
        if limit - self.len < value_len {
            return Err(WriteError::NoRoom);
        }
        if limit - self.len < option_len(number - self.number, value_len as u16) {
            return Err(WriteError::NoRoom);
        }
        Ok(())
    }

    /// Adds an option after the others, where it can follow and there is room for it (`option_len`): `option` would take it (RFC 7252,
    /// 3.1).
    pub fn add_option(&mut self, number: u16, value: &[u8])
        requires { (draft : Draft) × (old : List ℕ) × Holds self.old draft old
            × TakesOption (length old) draft number value.now }
        ensures same_reference { buffer_of self.new ≡ buffer_of self.old }
        ensures written { (draft : Draft) (old : List ℕ) → Holds self.old draft old
            → Holds self.new (with_option draft number value.now) old }
    {
        let buf = &mut *self.buf;
        self.len = put_option(buf, self.len, number - self.number, value);
        self.number = number;
    }

    /// Adds an option after the others (RFC 7252, 3.1). Refuses with EmptyWithRest, Order, ValueTooLong or NoRoom,
    /// judged in this order.
    pub fn option(&mut self, number: u16, value: &[u8]) -> Result<(), WriteError>
        ensures same_reference { buffer_of self.new ≡ buffer_of self.old }
        ensures taken { OnOk result ((draft : Draft) (old : List ℕ) → Holds self.old draft old
            → Holds self.new (with_option draft number value.now) old) }
        ensures unchanged { OnErr result (self.new ≡ self.old) }
        ensures accepted { (draft : Draft) (old : List ℕ) → Holds self.old draft old → IsOk result
            → TakesOption (length old) draft number value.now }
        ensures accepts { (draft : Draft) (old : List ℕ) → Holds self.old draft old
            → TakesOption (length old) draft number value.now → IsOk result }
        ensures refused { (draft : Draft) (old : List ℕ) → Holds self.old draft old
            → IfErr result (IsFirstReason (RefusesOption (length old) draft number value.now)) }
        ensures refuses { (draft : Draft) (old : List ℕ) → Holds self.old draft old → (e : WriteError)
            → IsFirstReason (RefusesOption (length old) draft number value.now) e → IsErrOf result e }
    {
        self.judge_option(number, value.len())?;
        let delta = number - self.number;
        let buf = &mut *self.buf;
        self.len = put_option(buf, self.len, delta, value);
        self.number = number;
        Ok(())
    }

    /// Judges whether a payload of this length, which isn't 0, can follow.
    fn judge_payload(&self, payload_len: usize) -> Result<(), WriteError>
        ensures judged { MatchResult result (λ _. self.now.stage ≡ Stage.Open)
            (RefusesPayloadNow self.now payload_len) }
        ensures room { OnOk result ((self.now.len + (1 + payload_len) ≤ length self.now.buf.now)
            × (self.now.len + (1 + payload_len) ≤ 65535)) }
    {
        match self.stage {
            Stage::Alone => return Err(WriteError::EmptyWithRest),
            Stage::Closed => return Err(WriteError::Order),
            Stage::Open => {}
        }
        let limit = self.buf.len().min(MOST_DATAGRAM);
        if limit - self.len <= payload_len {
            return Err(WriteError::NoRoom);
        }
        Ok(())
    }

    /// Adds the marker and the payload (RFC 7252, 3). An empty payload is always accepted, and changes nothing. Any
    /// other payload can be refused with EmptyWithRest, Order or NoRoom, judged in this order.
    #[tactic(auto, unfolding(crate::specs::Writer::Holds))]
    pub fn payload(&mut self, bytes: &[u8]) -> Result<(), WriteError>
        ensures same_reference { buffer_of self.new ≡ buffer_of self.old }
        ensures taken { OnOk result ((draft : Draft) (old : List ℕ) → Holds self.old draft old
            → Holds self.new (with_payload draft bytes.now) old) }
        ensures unchanged { OnErr result (self.new ≡ self.old) }
        ensures nothing { bytes.now ≡ [] → (IsOk result) × (self.new ≡ self.old) }
        ensures accepted { (draft : Draft) (old : List ℕ) → Holds self.old draft old → bytes.now ≢ []
            → IsOk result → TakesPayload (length old) draft bytes.now }
        ensures accepts { (draft : Draft) (old : List ℕ) → Holds self.old draft old → bytes.now ≢ []
            → TakesPayload (length old) draft bytes.now → IsOk result }
        ensures refused { (draft : Draft) (old : List ℕ) → Holds self.old draft old → bytes.now ≢ []
            → IfErr result (IsFirstReason (RefusesPayload (length old) draft bytes.now)) }
        ensures refuses { (draft : Draft) (old : List ℕ) → Holds self.old draft old → bytes.now ≢ []
            → (e : WriteError) → IsFirstReason (RefusesPayload (length old) draft bytes.now) e → IsErrOf result e }
    {
        if bytes.is_empty() {
            return Ok(());
        }
        self.judge_payload(bytes.len())?;
        let buf = &mut *self.buf;
        let start = put(buf, self.len, &[PAYLOAD_MARKER]);
        self.len = put(buf, start, bytes);
        self.stage = Stage::Closed;
        Ok(())
    }

    /// Returns how many bytes are written, at the front of the buffer.
    #[tactic(auto, unfolding(crate::specs::Writer::Holds))]
    #[must_use]
    pub fn finish(self) -> usize
        ensures datagram { (p : Parts) (old : List ℕ) → Holds self.entry (Datagram p) old
            → IsDatagram p (take result self.exit.0.now) }
        ensures inner { (p : InnerParts) (old : List ℕ) → Holds self.entry (Plaintext p) old
            → IsInner p (take result self.exit.0.now) }
        ensures behind { (draft : Draft) (old : List ℕ) → Holds self.entry draft old
            → drop result self.exit.0.now ≡ drop result old }
        ensures length { (draft : Draft) (old : List ℕ) → Holds self.entry draft old
            → (result ≡ length_of draft) × (length self.exit.0.now ≡ length old) }
        ensures within { result ≤ length self.exit.0.now }
    {
        let Writer { len, .. } = self;
        len
    }
}
