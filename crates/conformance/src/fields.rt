//! The fields of a call.

use crate::bytes::bytes_of;
use osc_coap::{Message, parse};
use osc_context::{Context, Features, Kid, NO_FEATURES, Params, Piv};
use osc_window::WindowSize;
use std::alloc::Global;
use std::cell::Cell;

/// The longest buffer that a row can ask for.
const MOST_ROOM: u64 = 100_000;

/// A context that a line of the corpus names, and the fields that it is derived from.
#[derive(Clone, Copy)]
pub(crate) struct NamedContext<'t> {
    pub(crate) name: &'t str,
    pub(crate) fields: &'t str,
}

/// A field, and the bytes that it spells, if it spells bytes.
#[derive(Drop)]
struct Field<'t> {
    word: &'t str,
    bytes: Option<Vec<u8>>,
}

/// The fields of a call, counted from 0. If a field isn't there, or isn't what it is taken for, that is remembered: the call is then bad,
/// and its answer says nothing.
#[derive(Drop)]
pub(crate) struct Fields<'t> {
    pub(crate) alloc: Global,
    fields: Vec<Field<'t>>,
    is_bad: Cell<bool>,
}

impl<'t> Fields<'t> {
    /// Reads the fields, which are separated by one space.
    pub(crate) fn read(alloc: Global, text: &'t str) -> Fields<'t> {
        let mut fields = Vec::new(alloc);
        let mut is_bad = false;
        for word in text.split(' ') {
            let bytes = bytes_of(alloc, word);
            if fields.push(Field { word, bytes }).is_err() {
                is_bad = true;
            }
        }
        Fields {
            alloc,
            fields,
            is_bad: Cell::new(is_bad),
        }
    }

    pub(crate) fn is_bad(&self) -> bool {
        self.is_bad.get()
    }

    /// Marks the call as bad.
    pub(crate) fn refuse(&self) {
        self.is_bad.set(true);
    }

    /// Checks that there are `count` fields.
    pub(crate) fn count(&self, count: usize) {
        if self.fields.len() != count {
            self.refuse();
        }
    }

    pub(crate) fn len(&self) -> usize {
        self.fields.len()
    }

    pub(crate) fn word(&self, place: usize) -> &'t str {
        match self.fields.get(place) {
            Some(field) => field.word,
            None => {
                self.refuse();
                ""
            }
        }
    }

    pub(crate) fn bytes(&self, place: usize) -> &[u8] {
        match self.fields.get(place) {
            Some(
                Field {
                    bytes: Some(bytes),
                    ..
                },
            ) => bytes.as_slice(),
            _ => {
                self.refuse();
                &[]
            }
        }
    }

    /// Returns bytes that may be absent.
    pub(crate) fn part(&self, place: usize) -> Option<&[u8]> {
        if self.word(place) == "none" {
            None
        } else {
            Some(self.bytes(place))
        }
    }

    /// Returns bytes of a fixed length.
    pub(crate) fn array<const N: usize>(&self, place: usize) -> [u8; N] {
        let mut array = [0u8; N];
        let bytes = self.bytes(place);
        if bytes.len() == N {
            array.copy_from_slice(bytes);
        } else {
            self.refuse();
        }
        array
    }

    pub(crate) fn number(&self, place: usize) -> u64 {
        match self.word(place).parse::<u64>() {
            Ok(number) => number,
            Err(_) => {
                self.refuse();
                0
            }
        }
    }

    /// Returns a number of at most 16 bits.
    pub(crate) fn short(&self, place: usize) -> u16 {
        match u16::try_from(self.number(place)) {
            Ok(number) => number,
            Err(_) => {
                self.refuse();
                0
            }
        }
    }

    /// Returns a small number, such as an index.
    pub(crate) fn index(&self, place: usize) -> usize {
        self.short(place) as usize
    }

    /// Returns a Message ID of two bytes.
    pub(crate) fn message_id(&self, place: usize) -> u16 {
        u16::from_be_bytes(self.array::<2>(place))
    }

    /// Returns the size of a window: 1, 32, or else 64.
    pub(crate) fn window_size(&self, place: usize) -> WindowSize {
        match self.number(place) {
            1 => WindowSize::Place1,
            32 => WindowSize::Places32,
            _ => WindowSize::Places64,
        }
    }

    /// Returns a buffer of a length, filled with a byte.
    pub(crate) fn room(&self, place: usize, filled_with: u8) -> Vec<u8> {
        let len = self.number(place);
        match vec![in self.alloc; filled_with; len.min(MOST_ROOM) as usize] {
            Ok(room) if len <= MOST_ROOM => room,
            _ => {
                self.refuse();
                Vec::new(self.alloc)
            }
        }
    }

    /// Returns a copy of bytes, for a call that changes them.
    pub(crate) fn copy(&self, place: usize) -> Vec<u8> {
        match self.bytes(place).to_vec(self.alloc) {
            Ok(copy) => copy,
            Err(_) => {
                self.refuse();
                Vec::new(self.alloc)
            }
        }
    }

    /// Returns a Partial IV that may be absent.
    pub(crate) fn partial_iv(&self, place: usize) -> Option<Piv> {
        if self.word(place) == "none" {
            return None;
        }
        let piv = Piv::new(self.number(place));
        if piv.is_none() {
            self.refuse();
        }
        piv
    }

    /// Returns a Sender Sequence Number.
    pub(crate) fn sequence_number(&self, place: usize) -> Piv {
        match self.partial_iv(place) {
            Some(number) => number,
            None => {
                self.refuse();
                Piv::MAX
            }
        }
    }

    pub(crate) fn kid(&self, place: usize) -> Option<Kid> {
        let kid = Kid::new(self.bytes(place));
        if kid.is_none() {
            self.refuse();
        }
        kid
    }

    pub(crate) fn message(&self, place: usize) -> Option<Message<'_>> {
        match parse(self.bytes(place)) {
            Ok(message) => Some(message),
            Err(_) => {
                self.refuse();
                None
            }
        }
    }

    /// Returns what a context is derived from: secret, salt, ID Context, sender and recipient.
    pub(crate) fn params(&self) -> Params<'_> {
        self.count(5);
        self.params_at_front()
    }

    /// Returns what a context is derived from, by the first five fields.
    fn params_at_front(&self) -> Params<'_> {
        Params {
            secret: self.bytes(0),
            salt: self.bytes(1),
            id_context: self.part(2),
            sender: self.bytes(3),
            recipient: self.bytes(4),
        }
    }

    /// Returns the context of the first five fields, with the features that the sixth one names.
    fn derived(&self) -> Option<Context> {
        let features = self.features(5);
        let context = Context::derive(self.params_at_front()).ok()?;
        let context = context.with_features(features);
        if context.features() == features {
            Some(context)
        } else {
            None
        }
    }

    /// Returns the features that a last field names: `blocks`, `observe` or `blocks-observe`, or none without such a field.
    pub(crate) fn features(&self, place: usize) -> Features {
        let len = self.fields.len();
        if len == place {
            return NO_FEATURES;
        }
        if len <= place || len - place != 1 {
            self.refuse();
        }
        let (observe, blocks) = match self.word(place) {
            "blocks" => (false, true),
            "observe" => (true, false),
            "blocks-observe" => (true, true),
            _ => {
                self.refuse();
                (false, false)
            }
        };
        Features { observe, blocks }
    }

    /// Returns the context that the first field names.
    pub(crate) fn context(&self, contexts: &[NamedContext<'_>]) -> Option<Context> {
        let name = self.word(0);
        for named in contexts {
            if named.name == name {
                return Fields::read(self.alloc, named.fields).derived();
            }
        }
        None
    }
}
