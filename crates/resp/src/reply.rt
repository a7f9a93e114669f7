//! A reply, as RESP2 has them, and the text of an error.
//!
//! The bodies of commands make replies, and whoever serves a connection writes them with `write_reply`.

ghost use Rattle.std.specs.Prelude.{◌≡◌};
ghost use Rattle.resp.specs.Content.{content, out_of_memory};

use crate::bulk_texts::BulkTexts;

/// A reply. Contracts compare what replies say, their `content`, and not how they lie in memory.
#[derive(Drop)]
pub enum Reply {
    /// A simple string, as `+OK`. It holds neither CR nor LF.
    Simple(&'static str),

    /// An error, as `-ERR syntax error`.
    Error(ErrorText),

    /// An integer, as `:1`.
    Int(i64),

    /// A bulk string: any bytes.
    Bulk(Vec<u8>),

    /// The null bulk string, which says that there is no value.
    Null,

    /// An array of replies.
    Array(Vec<Reply>),

    /// An array of bulk strings and nulls, kept as their text.
    Bulks(BulkTexts),
}

/// What an error says, its prefix included. It takes no memory to make.
#[derive(Clone, Copy)]
pub enum ErrorText {
    /// This text. It holds neither CR nor LF.
    Fixed(&'static str),

    /// That the command of this name was called with a wrong number of words.
    Arity(&'static str),
}

impl Reply {
    /// The reply to a request for which there was no memory. It takes none itself.
    pub fn out_of_memory() -> Self
        ensures { content result ≡ out_of_memory }
    {
        Reply::Error(ErrorText::Fixed("ERR out of memory"))
    }
}
