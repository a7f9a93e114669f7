//! The line of one key.

ghost use Rattle.std.specs.Prelude.{◌≡◌, ℕ, ◌++◌, ◌∷◌, List, OnOk, OnErr};
ghost use Rattle.dumps.specs.Dump.{word_of, words_of, texts_in, entry_line};

use std::alloc::{AllocError, Global};
use values::{Items, Value};

/// Appends the line of a key with its value, or a part of it where there is no memory for all.
pub(super) fn put_entry(
    alloc: Global,
    key: &[u8],
    value: &Value,
    out: &mut Vec<u8>,
) -> Result<(), AllocError>
    ensures ok { OnOk result (out.new.items ≡ out.old.items ++ entry_line (key.now, value.now)) }
    ensures err { OnErr result ((more : List ℕ) × (out.new.items ≡ out.old.items ++ more)) }
{
    out.extend_from_slice(b"key ")?;
    put_word(alloc, key, out)?;
    out.extend_from_slice(b" ")?;
    out.extend_from_slice(value.type_name().as_bytes())?;
    put_value(alloc, value, out)?;
    out.extend_from_slice(b"\n")
}

/// Appends the texts of a value, each behind a space.
fn put_value(alloc: Global, value: &Value, out: &mut Vec<u8>) -> Result<(), AllocError>
    ensures ok { OnOk result (out.new.items ≡ out.old.items ++ words_of (texts_in value.now)) }
    ensures err { OnErr result ((more : List ℕ) × (out.new.items ≡ out.old.items ++ more)) }
{
    match value {
        Value::Str(text) => put_text(alloc, text.as_slice(), out),
        Value::List(items) => put_texts(alloc, items.range(0, items.len()), out),
        Value::Hash(pairs) => put_texts(alloc, pairs.fields_and_values(), out),
        Value::Set(members) => put_texts(alloc, members.members(alloc), out),
    }
}

/// Appends the texts, each behind a space.
fn put_texts(alloc: Global, mut texts: Items<'_>, out: &mut Vec<u8>) -> Result<(), AllocError>
    ensures ok { OnOk result (out.new.items ≡ out.old.items ++ words_of texts.entry) }
    ensures err { OnErr result ((more : List ℕ) × (out.new.items ≡ out.old.items ++ more)) }
{
    while let Some(text) = texts.next() {
        put_text(alloc, text, out)?;
    }
    Ok(())
}

/// Appends a space and a text.
fn put_text(alloc: Global, text: &[u8], out: &mut Vec<u8>) -> Result<(), AllocError>
    ensures ok { OnOk result (out.new.items ≡ out.old.items ++ 32 ∷ word_of text.now) }
    ensures err { OnErr result ((more : List ℕ) × (out.new.items ≡ out.old.items ++ more)) }
{
    out.push(b' ')?;
    put_word(alloc, text, out)
}

/// Appends a text in hexadecimal, or a dash for the empty one.
fn put_word(alloc: Global, text: &[u8], out: &mut Vec<u8>) -> Result<(), AllocError>
    ensures ok { OnOk result (out.new.items ≡ out.old.items ++ word_of text.now) }
    ensures err { OnErr result ((more : List ℕ) × (out.new.items ≡ out.old.items ++ more)) }
{
    if text.is_empty() {
        return out.extend_from_slice(b"-");
    }
    out.extend_from_slice(hex::encode(alloc, text)?.as_bytes())
}
