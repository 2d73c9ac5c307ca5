//! Reads the lines that put another context in the place of an end's.

ghost use Rattle.std.specs.Prelude.{◌≡◌, ◌^◌, IfNone, IfOk, IfSome, option_map};
ghost use Rattle.std.specs.Option.{option_copied};
ghost use Rattle.osc_context.specs.Views.{as_client, as_server};
ghost use Rattle.osc_text.specs.InputReading.{SpellsNone};
ghost use Rattle.osc_text.specs.Inputs.{SaysBelow};
ghost use Rattle.osc_text.specs.ReplaceEvents.{SaysStart, SpellsAsking, SpellsServing, client_by, server_by};
ghost use Rattle.osc_text.specs.ReplaceReading.{CanBeSaid, DerivesBy, ReadsContext, ReplacesNone, SpellsAskedLine, SpellsServedLine, id_context_read, keying_read, keying_seen, replace_read, six_parts, six_read, start_read, start_seen};

use crate::input_lines::LineEvent;
use crate::input_words::{four_words, read_bytes, read_next, split_once, three_words};
use osc_context::{Context, Features, Params, Piv};
use osc_endpoint::{ClientEvent, ServerEvent, Start};
use std::alloc::{AllocError, Global};

/// What a line asks of a server of a run: an event, or that another context takes the place of its own.
#[derive(Drop)]
pub(crate) enum ServedLine {
    Event(ServerEvent),
    Replace { context: Context, start: Start },
}

/// What a line asks of a client of a run: an event, or that another context takes the place of its own.
#[derive(Drop)]
pub(crate) enum AskedLine {
    Event(ClientEvent),
    Replace { context: Context, next: Piv },
}

/// What the contexts of a run have in common: the features that they take part in, and the cipher.
#[derive(Clone, Copy)]
pub(crate) struct Common {
    features: Features,
    tables: bool,
}

impl Common {
    /// Returns what a context has.
    pub(crate) fn of(context: &Context) -> Common
        ensures client { result.features ≡ (as_client context.now).features }
        ensures server { result.features ≡ (as_server context.now).features }
    {
        Common {
            features: context.features(),
            tables: !context.is_constant_time(),
        }
    }

    /// Returns the same context, but with these.
    pub(crate) fn give(self, context: Context) -> Context
        ensures client { as_client result ≡ record (as_client context) { features = self.features } }
        ensures server { as_server result ≡ record (as_server context) { features = self.features } }
    {
        let context = context.with_features(self.features);
        if self.tables {
            context.tables()
        } else {
            context
        }
    }
}

/// Six words.
type Six<'a> = (&'a [u8], &'a [u8], &'a [u8], &'a [u8], &'a [u8], &'a [u8]);

/// Splits the fields into six words, separated by one space. The last word is everything after the fifth space.
#[tactic(auto, unfolding(crate::specs::ReplaceReading::six_read))]
fn six_words(fields: &[u8]) -> Option<Six<'_>>
    ensures { option_map six_parts result ≡ six_read fields.now }
{
    let (first, second, third, rest) = four_words(fields)?;
    let (fourth, fifth, sixth) = three_words(rest)?;
    Some((first, second, third, fourth, fifth, sixth))
}

/// Splits the fields of a line that replaces.
#[tactic(auto, unfolding(crate::specs::ReplaceReading::replace_read))]
fn replace_words(line: &[u8]) -> Option<Six<'_>>
    ensures { option_map six_parts result ≡ replace_read line.now }
{
    let (verb, fields) = split_once(line, b' ')?;
    if verb != b"replace".as_slice() {
        return None;
    }
    six_words(fields)
}

/// What another context is derived from.
#[derive(Drop)]
struct Keying {
    secret: Vec<u8>,
    salt: Vec<u8>,
    sender: Vec<u8>,
    recipient: Vec<u8>,
    id_context: Option<Vec<u8>>,
}

/// Reads an ID Context in hex, or the word that says that there is none.
#[tactic(auto, unfolding(crate::specs::ReplaceReading::id_context_read))]
fn read_id_context(alloc: Global, word: &[u8]) -> Result<Option<Option<Vec<u8>>>, AllocError>
    ensures { IfOk result (λ read. option_map (λ some. option_map (λ bytes. bytes.items) some) read ≡ id_context_read word.now) }
{
    if word == b"none".as_slice() {
        return Ok(Some(None));
    }
    match read_bytes(alloc, word)? {
        Some(bytes) => Ok(Some(Some(bytes))),
        None => Ok(None),
    }
}

/// Reads what another context is derived from, in the first five of six words.
#[tactic(auto, unfolding(crate::specs::ReplaceReading::keying_read))]
fn read_keying(alloc: Global, words: Six<'_>) -> Result<Option<Keying>, AllocError>
    ensures { IfOk result (λ read. option_map keying_seen read ≡ keying_read (six_parts words.entry)) }
{
    let (secret, salt, sender, recipient, id_context, _begins) = words;
    let Some(secret) = read_bytes(alloc, secret)? else {
        return Ok(None);
    };
    let Some(salt) = read_bytes(alloc, salt)? else {
        return Ok(None);
    };
    let Some(sender) = read_bytes(alloc, sender)? else {
        return Ok(None);
    };
    let Some(recipient) = read_bytes(alloc, recipient)? else {
        return Ok(None);
    };
    let Some(id_context) = read_id_context(alloc, id_context)? else {
        return Ok(None);
    };
    Ok(Some(Keying {
        secret,
        salt,
        sender,
        recipient,
        id_context,
    }))
}

/// Returns the ID Context, if there is one.
fn shown(keying: &Keying) -> Option<&[u8]>
    ensures { option_copied result ≡ (keying_seen keying.now).id_context }
{
    match &keying.id_context {
        Some(bytes) => Some(bytes),
        None => None,
    }
}

/// Derives a context, if one can be derived.
fn derive(keying: &Keying) -> Option<Context>
    ensures { DerivesBy (keying_seen keying.now) result }
{
    let params = Params {
        secret: &keying.secret,
        salt: &keying.salt,
        id_context: shown(keying),
        sender: &keying.sender,
        recipient: &keying.recipient,
    };
    match Context::derive(params) {
        Ok(context) => Some(context),
        Err(_) => None,
    }
}

/// Derives the context that the first five of six words say, if they say one.
fn read_context(alloc: Global, words: Six<'_>) -> Result<Option<Context>, AllocError>
    ensures { IfOk result (λ read. ReadsContext (six_parts words.entry) read) }
{
    match read_keying(alloc, words)? {
        Some(keying) => Ok(derive(&keying)),
        None => Ok(None),
    }
}

/// Reads how a server's context begins: `fresh NEXT` or `restarted NEXT`.
#[tactic(auto, unfolding(crate::specs::ReplaceReading::start_read))]
fn read_start(words: &[u8]) -> Option<Start>
    ensures seen { option_map start_seen result ≡ start_read words.now }
    ensures said { IfSome result CanBeSaid }
{
    let (word, next) = split_once(words, b' ')?;
    let next = read_next(next)?;
    if word == b"fresh".as_slice() {
        Some(Start::Fresh(next))
    } else if word == b"restarted".as_slice() {
        Some(Start::Restarted(next))
    } else {
        None
    }
}

/// Reads a line that puts another context in the place of a server's: `replace SECRET SALT SENDER RECIPIENT ID-CONTEXT fresh|restarted NEXT`.
fn read_served(alloc: Global, line: &[u8]) -> Result<Option<ServedLine>, AllocError>
    ensures read { IfOk result (λ read. IfSome read (SpellsServedLine line.now)) }
    ensures refused { IfOk result (λ read. IfNone read (ReplacesNone server_by SaysStart line.now)) }
{
    let Some(words) = replace_words(line) else {
        return Ok(None);
    };
    let Some(start) = read_start(words.5) else {
        return Ok(None);
    };
    match read_context(alloc, words)? {
        Some(context) => Ok(Some(ServedLine::Replace { context, start })),
        None => Ok(None),
    }
}

/// Reads a line that puts another context in the place of a client's: `replace SECRET SALT SENDER RECIPIENT ID-CONTEXT NEXT`.
fn read_asked(alloc: Global, line: &[u8]) -> Result<Option<AskedLine>, AllocError>
    ensures read { IfOk result (λ read. IfSome read (SpellsAskedLine line.now)) }
    ensures refused { IfOk result (λ read. IfNone read (ReplacesNone client_by (SaysBelow (2 ^ 40)) line.now)) }
{
    let Some(words) = replace_words(line) else {
        return Ok(None);
    };
    let Some(next) = read_next(words.5) else {
        return Ok(None);
    };
    match read_context(alloc, words)? {
        Some(context) => Ok(Some(AskedLine::Replace { context, next })),
        None => Ok(None),
    }
}

impl LineEvent for ServedLine {
    ghost spells = { SpellsServedLine };

    ghost is_bad = { SpellsNone SpellsServing };

    fn from_line(alloc: Global, line: &[u8]) -> Result<Option<ServedLine>, AllocError> {
        if let Some(replaced) = read_served(alloc, line)? {
            return Ok(Some(replaced));
        }
        match ServerEvent::from_line(alloc, line)? {
            Some(event) => Ok(Some(ServedLine::Event(event))),
            None => Ok(None),
        }
    }
}

impl LineEvent for AskedLine {
    ghost spells = { SpellsAskedLine };

    ghost is_bad = { SpellsNone SpellsAsking };

    fn from_line(alloc: Global, line: &[u8]) -> Result<Option<AskedLine>, AllocError> {
        if let Some(replaced) = read_asked(alloc, line)? {
            return Ok(Some(replaced));
        }
        match ClientEvent::from_line(alloc, line)? {
            Some(event) => Ok(Some(AskedLine::Event(event))),
            None => Ok(None),
        }
    }
}
