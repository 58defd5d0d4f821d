//! What is read of an interchange.

ghost use Rattle.std.specs.Prelude.{◌≡◌, IfOk, []};
ghost use Rattle.std.specs.List.{list_any};
ghost use Rattle.std.specs.Str.{bytes_eq};
ghost use Rattle.crp_movins.specs.Loading.{reads};

use std::alloc::{AllocError, Global};
use std::marker::Model;

/// The reference of a message (UNH, element 1), in bytes. References are compared byte for byte.
#[derive(Drop)]
pub struct Reference {
    bytes: Vec<u8>,
}

impl Model for Reference {
    ghost use Rattle.std.specs.Prelude.{ℕ, List};

    ghost Value = { List ℕ };

    ghost view = { λ a. a.bytes.items };
}

impl Reference {
    /// The reference with these bytes.
    pub fn named(alloc: Global, bytes: &[u8]) -> Result<Reference, AllocError>
        ensures { IfOk result (λ reference. reference ≡ bytes.now) }
    {
        let bytes = Vec::from_slice(alloc, bytes)?;
        Ok(Reference { bytes })
    }

    /// Its bytes.
    pub fn bytes(&self) -> &[u8]
        ensures { result.now ≡ self.now }
    {
        &self.bytes
    }
}

/// The reference is one of these.
fn is_one_of(references: &[Reference], reference: &[u8]) -> bool
    ensures { result ≡ list_any (λ named. bytes_eq named reference.now) references.now }
{
    references.iter().any(|named| named.bytes() == reference)
}

/// What is read of an interchange: the orders under a handling code, of the messages with one of these references, or of all
/// messages where none is named.
#[derive(Drop)]
pub struct Loading {
    code: Vec<u8>,
    messages: Vec<Reference>,
}

impl Model for Loading {
    ghost use Rattle.std.specs.List.{list_any};
    ghost use Rattle.std.specs.Str.{bytes_eq};
    ghost use Rattle.crp_movins.specs.Loading.{Loading};

    ghost Value = { Loading };

    ghost view = { λ a. record { code = a.code.items; messages = a.messages.items } };
}

impl Loading {
    /// The orders under this handling code, of all messages.
    pub fn new(alloc: Global, code: &[u8]) -> Result<Loading, AllocError>
        ensures { IfOk result (λ loading. loading ≡ record { code = code.now; messages = [] }) }
    {
        let code = Vec::from_slice(alloc, code)?;
        Ok(Loading {
            code,
            messages: Vec::new(alloc),
        })
    }

    /// The same orders, of the messages with these references alone; of all messages where there is none. Takes no memory.
    pub fn of_messages(mut self, messages: Vec<Reference>) -> Loading
        ensures { result ≡ record self { messages = messages.items } }
    {
        self.messages = messages;
        self
    }

    /// The same once more.
    pub fn copy(&self, alloc: Global) -> Result<Loading, AllocError>
        ensures { IfOk result (λ loading. loading ≡ self.now) }
    {
        let code = Vec::from_slice(alloc, &self.code)?;
        let mut messages = Vec::new(alloc);
        for message in &self.messages {
            messages.push(Reference::named(alloc, message.bytes())?)?;
        }
        Ok(Loading { code, messages })
    }

    /// The handling code.
    pub fn code(&self) -> &[u8]
        ensures { result.now ≡ self.now.code }
    {
        &self.code
    }

    /// The references of the messages; none stands for all.
    pub fn messages(&self) -> &[Reference]
        ensures { result.now ≡ self.now.messages }
    {
        &self.messages
    }

    /// Messages with this reference are read.
    pub fn reads(&self, reference: &[u8]) -> bool
        ensures { result ≡ reads self.now.messages reference.now }
    {
        self.messages.is_empty() || is_one_of(&self.messages, reference)
    }
}
