//! A context in the caller's memory: plain bytes, each of which may have any value.

ghost use Rattle.std.specs.Option.{option_map};
ghost use Rattle.std.specs.Prelude.{◌≡◌, ◌≤◌, ◌&&◌, not, take, IfSome, IsSome, length, true, false};
ghost use Rattle.osc_context.specs.SecurityContext.{AnswersTo};
ghost use Rattle.osc_context.specs.Views.{as_client, as_server, is_constant_time};
ghost use Rattle.osc_context_handle.specs.ContextBytes.{client_in, server_in, id_context_in, is_constant_time_in, IsContext};

use osc_ccm::{Key, Nonce};
use osc_context::{Context, Features, IdContext, Kid};

/// A context in the caller's memory. If the ID Context has no bytes, there is none.
#[repr(C)]
#[derive(Clone, Copy)]
pub struct ContextHandle {
    pub sender: [u8; 7],
    pub sender_len: u8,
    pub recipient: [u8; 7],
    pub recipient_len: u8,
    pub id_context: [u8; 32],
    pub id_context_len: u8,
    pub sender_key: Key,
    pub recipient_key: Key,
    pub common_iv: Nonce,
    /// Whether its keys are used by the cipher with tables: any value but 0 asks for that, and 0 for the one in constant time.
    pub tables: u8,
    /// Whether block-wise transfer passes inside the protection: any value but 0 allows it.
    pub blocks: u8,
    /// Whether Observe passes inside the protection: any value but 0 allows it.
    pub observe: u8,
}

impl ContextHandle {
    /// Returns the bytes of a context.
    pub fn of(context: &Context) -> ContextHandle
        ensures client { client_in result ≡ as_client context.now }
        ensures server { server_in result ≡ as_server context.now }
        ensures chosen { is_constant_time_in result ≡ is_constant_time context.now }
        ensures handle { IsContext result }
    {
        let (sender, sender_len) = padded(context.sender().bytes());
        let (recipient, recipient_len) = padded(context.recipient().bytes());
        let (id_context, id_context_len) = match context.id_context() {
            Some(id_context) => padded(id_context.bytes()),
            None => ([0; 32], 0),
        };
        ContextHandle {
            sender,
            sender_len,
            recipient,
            recipient_len,
            id_context,
            id_context_len,
            sender_key: *context.sender_key(),
            recipient_key: *context.recipient_key(),
            common_iv: *context.common_iv(),
            tables: u8::from(!context.is_constant_time()),
            blocks: u8::from(context.features().blocks),
            observe: u8::from(context.features().observe),
        }
    }

    /// Returns the context that the handle holds, or `None` if its bytes can't have been written by a call.
    pub fn context(&self) -> Option<Context>
        ensures client { IfSome result (λ c. as_client c ≡ client_in self.now) }
        ensures server { IfSome result (λ c. as_server c ≡ server_in self.now) }
        ensures chosen { IfSome result (λ c. is_constant_time c ≡ is_constant_time_in self.now) }
        ensures accepted { IsSome result → IsContext self.now }
        ensures accepts { IsContext self.now → IsSome result }
    {
        let sender = identifier(&self.sender, self.sender_len)?;
        let recipient = identifier(&self.recipient, self.recipient_len)?;
        let id_context = id_context(&self.id_context, self.id_context_len)?;
        let context = Context::from_derived(
            sender,
            recipient,
            id_context,
            self.sender_key,
            self.recipient_key,
            self.common_iv,
        )?;
        let features = Features {
            observe: self.observe != 0,
            blocks: self.blocks != 0,
        };
        Some(as_asked(context, self.tables != 0, features))
    }
}

impl ContextHandle {
    /// Returns whether a call may have written the bytes.
    #[must_use]
    pub fn is_whole(&self) -> bool
        ensures yes { result ≡ true → IsContext self.now }
        ensures no { result ≡ false → IsContext self.now → ⊥ }
    {
        self.sender_len <= 7
            && self.recipient_len <= 7
            && self.id_context_len <= 32
            && self.sender[..usize::from(self.sender_len)]
                != self.recipient[..usize::from(self.recipient_len)]
    }

    /// Returns whether requests with this kid, and with this kid context or none, are for the context at its server.
    #[must_use]
    pub fn answers_to(&self, kid: &[u8], kid_context: Option<&[u8]>) -> bool
        requires { IsContext self.now }
        ensures yes { result ≡ true → AnswersTo (server_in self.now) kid.now (option_map (λ bytes. bytes.now) kid_context.entry) }
        ensures no { result ≡ false → AnswersTo (server_in self.now) kid.now (option_map (λ bytes. bytes.now) kid_context.entry) → ⊥ }
    {
        let id_context = &self.id_context[..usize::from(self.id_context_len)];
        let same = match kid_context {
            Some(kid_context) => kid_context == id_context && !kid_context.is_empty(),
            None => id_context.is_empty(),
        };
        same && &self.recipient[..usize::from(self.recipient_len)] == kid
    }
}

/// Returns the identifier in the first `len` bytes, or `None` if there aren't that many.
fn identifier(bytes: &[u8; 7], len: u8) -> Option<Kid>
    ensures made { IfSome result (λ kid. kid ≡ take len bytes.now) }
    ensures accepted { IsSome result → len ≤ 7 }
    ensures accepts { len ≤ 7 → IsSome result }
{
    Kid::new(bytes.get(..usize::from(len))?)
}

/// Returns the ID Context in the first `len` bytes, or `Some(None)` if `len` is 0. Returns `None` if there aren't that many bytes.
fn id_context(bytes: &[u8; 32], len: u8) -> Option<Option<IdContext>>
    ensures made { IfSome result (λ id_context. id_context ≡ id_context_in bytes.now len) }
    ensures accepted { IsSome result → len ≤ 32 }
    ensures accepts { len ≤ 32 → IsSome result }
{
    if len == 0 {
        return Some(None);
    }
    IdContext::new(bytes.get(..usize::from(len))?).map(Some)
}

/// Returns the context with these features, and with its keys used by the cipher with tables if that is asked for.
#[inline(always)]
fn as_asked(context: Context, tables: bool, features: Features) -> Context
    ensures client { as_client result ≡ record (as_client context) { features = features } }
    ensures server { as_server result ≡ record (as_server context) { features = features } }
    ensures chosen { is_constant_time result ≡ (not tables && is_constant_time context) }
{
    let context = context.with_features(features);
    if tables { context.tables() } else { context }
}

/// Returns a field with the bytes at the front and zeros after them, and how many they are.
pub fn padded<const N: usize>(bytes: &[u8]) -> ([u8; N], u8)
    requires fits { length bytes.now ≤ N }
    requires small { N ≤ 255 }
    ensures front { take result.1 result.0 ≡ bytes.now }
    ensures length { result.1 ≡ length bytes.now }
{
    let mut field = [0; N];
    field[..bytes.len()].copy_from_slice(bytes);
    (field, bytes.len() as u8)
}
