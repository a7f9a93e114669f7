//! A reply beside its text, where that is long.
//!
//! A reply's text is needed by whoever keeps it after it was sent. A long one is given a block of its own before its
//! request counts as executed; whoever holds it later moves the block, and takes no memory for it.

ghost use Rattle.std.specs.Prelude.{◌≡◌, ◌<◌, ◌≤◌, [], IsTrue, IfOk, OnErr, length, vec_capacity};
ghost use Rattle.std.specs.Fmt.{signed_decimal};
ghost use Rattle.resp.specs.Content.{content};
ghost use Rattle.resp.specs.LongText.{IsLong, IsShort};
ghost use Rattle.resp.specs.Text.{reply_text};
ghost use Rattle.resp.specs.declared.answered.TheConstants.{LONG};

use crate::reply::{ErrorText, Reply};
use crate::size::text_size;
use crate::write::write_reply;
use std::alloc::{AllocError, Global};

/// The greatest length of a text that is given no block of its own.
pub const LONG: usize = 128;

/// The greatest length of a bulk string whose text is sure to have no more than `LONG` bytes.
pub const SHORT_BULK: usize = 100;

/// A reply, and its text where that has more than `LONG` bytes.
#[derive(Drop)]
pub struct Answered {
    /// The reply.
    pub reply: Reply,

    /// The reply's text, or nothing, which says that it isn't kept. No reply's text is empty.
    pub text: Vec<u8>,

    ghost is_kept: { 0 < length text.items → text.items ≡ reply_text reply },

    ghost is_short: { text.items ≡ [] → length (reply_text reply) ≤ LONG },
}

impl Answered {
    /// The reply alone, which is short by its kind; its text isn't kept. It takes no memory.
    pub fn alone(alloc: Global, reply: Reply) -> Self
        requires short { IsShort (content reply) }
        ensures same { result.reply ≡ reply }
        ensures alone { result.text.items ≡ [] }
    {
        has_short_text(&reply);
        Answered {
            reply,
            text: Vec::new(alloc),
        }
    }

    /// The reply, and its text in a block of just its size where that has more than `LONG` bytes.
    ///
    /// `AllocError` comes only of a text of more than `LONG` bytes, where there is no memory for the block; the reply is
    /// then gone.
    pub fn with_text(alloc: Global, reply: Reply) -> Result<Self, AllocError>
        ensures same { IfOk result (λ answered. answered.reply ≡ reply) }
        ensures long { OnErr result (IsLong (content reply)) }
    {
        if is_short(&reply) {
            return Ok(Answered::alone(alloc, reply));
        }
        let Some(size) = text_size(&reply) else {
            return Err(AllocError);
        };
        let block = text_block(alloc, size)?;
        Ok(Answered::in_block(reply, block))
    }

    /// The reply, and its text written into this block where that has more than `LONG` bytes: the block has room for
    /// it. No memory is taken.
    pub fn in_block(reply: Reply, block: Vec<u8>) -> Self
        requires empty { block.items ≡ [] }
        requires fits { LONG < length (reply_text reply) → length (reply_text reply) ≤ vec_capacity block }
        ensures same { result.reply ≡ reply }
    {
        let mut text = block;
        if text.capacity() > LONG {
            let Ok(()) = write_reply(&reply, &mut text) else {
                unreachable!();
            };
        }
        Answered { reply, text }
    }
}

/// An empty block with room for a text of this size, where that is above `LONG`; `AllocError` where there is no memory
/// for it. For a shorter one no memory is taken.
pub fn text_block(alloc: Global, size: usize) -> Result<Vec<u8>, AllocError>
    ensures empty { IfOk result (λ block. block.items ≡ []) }
    ensures room { IfOk result (λ block. LONG < size → size ≤ vec_capacity block) }
    ensures long { OnErr result (LONG < size) }
{
    if size > LONG {
        Vec::with_capacity(alloc, size)
    } else {
        Ok(Vec::new(alloc))
    }
}

/// That the text of a reply which is short by its kind has at most `LONG` bytes. An integer's has, since it has 64 bits. The
/// call does nothing.
#[tactic(auto, using(crate::proofs::Texts::text_of, crate::proofs::Contents::content_of))]
fn has_short_text(reply: &Reply)
    requires { IsShort (content reply.now) }
    ensures { length (reply_text reply.now) ≤ LONG }
{
    match reply {
        Reply::Int(number) => has_few_digits(*number),
        Reply::Simple(_line) => {}
        Reply::Error(_line) => {}
        Reply::Bulk(_bytes) => {}
        Reply::Null => {}
        Reply::Array(_replies) => {}
        Reply::Bulks(_texts) => {}
    }
}

/// That an integer is written in at most 20 characters.
fn has_few_digits(number: i64)
    ensures { length (signed_decimal number) ≤ 20 }
{}

/// Whether the reply is short by its kind. The line of an error for a wrong number of words is not looked at.
#[tactic(auto, using(crate::proofs::Contents::content_of))]
fn is_short(reply: &Reply) -> bool
    ensures { IsTrue result → IsShort (content reply.now) }
{
    match reply {
        Reply::Simple(line) => line.len() <= SHORT_BULK,
        Reply::Error(ErrorText::Fixed(line)) => line.len() <= SHORT_BULK,
        Reply::Bulk(bytes) => bytes.len() <= SHORT_BULK,
        Reply::Int(_) | Reply::Null => true,
        Reply::Error(ErrorText::Arity(_)) | Reply::Array(_) | Reply::Bulks(_) => false,
    }
}
