//! One byte string.

ghost use Rattle.std.specs.Prelude.{◌≡◌, ◌↔◌, ◌+◌, ◌^◌, ◌<◌, ◌≤◌, [], ◌++◌, length, IsTrue, IsOk, IfOk, OnOk, OnErr};
ghost use Rattle.texts.specs.Writes.{written_at};

use std::alloc::{AllocError, Global};
use std::marker::Model;

/// A byte string: a key, a word of a request or a string value. Contracts see its bytes.
#[derive(Drop)]
pub struct Text {
    bytes: Vec<u8>,
}

impl Model for Text {
    ghost use Rattle.texts.specs.Texts.{Bytes};

    ghost Value = { Bytes };

    ghost view = { λ t. t.bytes.items };
}

impl Text {
    /// The empty string. It takes no memory.
    pub fn empty(alloc: Global) -> Self
        ensures { result ≡ [] }
    {
        Text {
            bytes: Vec::new(alloc),
        }
    }

    /// A copy of these bytes; `AllocError` where there is no memory for it.
    pub fn copy_of(alloc: Global, bytes: &[u8]) -> Result<Self, AllocError>
        ensures copied { IfOk result (λ t. t ≡ bytes.now) }
        ensures of_nothing { OnErr result (0 < length bytes.now) }
    {
        let mut copy = Vec::with_capacity(alloc, bytes.len())?;
        copy.extend_from_slice(bytes)?;
        Ok(Text { bytes: copy })
    }

    /// The bytes, to be read.
    pub fn as_slice(&self) -> &[u8]
        ensures { result.now ≡ self.now }
    {
        self.bytes.as_slice()
    }

    /// The number of bytes.
    pub fn len(&self) -> usize
        ensures { result ≡ length self.now }
    {
        self.bytes.len()
    }

    /// Whether there is no byte.
    pub fn is_empty(&self) -> bool
        ensures { IsTrue result ↔ (self.now ≡ []) }
    {
        self.bytes.is_empty()
    }

    /// Appends these bytes: in the room that the string has, or after one growth of it to at least double.
    ///
    /// `AllocError` where there is no memory for the longer string, which then stays as it was.
    pub fn append(&mut self, tail: &[u8]) -> Result<(), AllocError>
        ensures ok { OnOk result (self.new ≡ self.old ++ tail.now) }
        ensures err { OnErr result (self.new ≡ self.old) }
        ensures succeeds { tail.now ≡ [] → IsOk result }
    {
        self.bytes.extend_from_slice(tail)?;
        Ok(())
    }

    /// Writes these bytes over the string, from `offset` on. Memory is taken only where the string gets longer; what
    /// then lies between its old end and `offset` becomes zero bytes.
    ///
    /// `AllocError` where there is no memory for the longer string, which then stays as it was.
    pub fn write_at(&mut self, offset: usize, more: &[u8]) -> Result<(), AllocError>
        requires { offset + length more.now < 2 ^ 64 }
        ensures ok { OnOk result (self.new ≡ written_at self.old offset more.now) }
        ensures err { OnErr result (self.new ≡ self.old) }
        ensures succeeds { offset + length more.now ≤ length self.old → IsOk result }
    {
        let end = offset + more.len();
        let len = self.bytes.len();
        if end <= len {
            self.bytes[offset..end].copy_from_slice(more);
            return Ok(());
        }
        self.bytes.reserve(end - len)?;
        self.bytes.resize(offset, 0)?;
        self.bytes.extend_from_slice(more)?;
        Ok(())
    }

    /// Becomes these bytes. It takes memory only where they are more than the string has room for.
    ///
    /// `AllocError` where there is no memory for them; the string then stays as it was.
    pub fn set(&mut self, bytes: &[u8]) -> Result<(), AllocError>
        ensures ok { OnOk result (self.new ≡ bytes.now) }
        ensures err { OnErr result (self.new ≡ self.old) }
        ensures succeeds { length bytes.now ≤ length self.old → IsOk result }
    {
        self.bytes
            .reserve(bytes.len().saturating_sub(self.bytes.len()))?;
        self.bytes.clear();
        self.bytes.extend_from_slice(bytes)?;
        Ok(())
    }

    /// The bytes, given back with the memory that they lie in.
    pub fn into_vec(self) -> Vec<u8>
        ensures { result.items ≡ self }
    {
        let Text { bytes } = self;
        bytes
    }
}

impl From<Vec<u8>> for Text {
    ghost from_gives = { λ bytes t. t ≡ bytes.items };

    fn from(bytes: Vec<u8>) -> Text {
        Text { bytes }
    }
}
