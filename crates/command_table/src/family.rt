//! The families of commands, told apart by the first letters of the names.

ghost use Rattle.std.specs.Prelude.{◌≡◌};
ghost use Rattle.command_table.specs.CommandRow.{row_of};
ghost use Rattle.command_table.specs.Families.{family_by_letters, rows_of};
ghost use Rattle.command_table.specs.Reading.{rows};

use crate::words::has_letter;

/// A family of commands, as `Command` has a variant for each.
#[derive(Clone, Copy)]
pub(crate) enum Family {
    Local,
    Key,
    Str,
    List,
    Hash,
    Set,
}

/// The family whose rows alone may have this name.
pub(crate) fn family_of(name: &[u8]) -> Family
    ensures { row_of rows name.now ≡ row_of (rows_of result) name.now }
{
    family_by_letters(name)
}

/// The family by the first letters of the name, in which names of two families differ.
fn family_by_letters(name: &[u8]) -> Family
    ensures { result ≡ family_by_letters name.now }
{
    if has_letter(name, 0, b"gima") {
        Family::Str
    } else if has_letter(name, 0, b"s") {
        if has_letter(name, 1, b"et") {
            Family::Str
        } else {
            Family::Set
        }
    } else if has_letter(name, 0, b"h") {
        Family::Hash
    } else if has_letter(name, 0, b"l") {
        Family::List
    } else if has_letter(name, 0, b"p") {
        Family::Local
    } else if has_letter(name, 0, b"d") {
        if has_letter(name, 2, b"c") {
            Family::Str
        } else {
            Family::Key
        }
    } else if has_letter(name, 0, b"r") {
        if has_letter(name, 1, b"p") {
            Family::List
        } else {
            Family::Key
        }
    } else if has_letter(name, 0, b"e") {
        if has_letter(name, 1, b"c") {
            Family::Local
        } else {
            Family::Key
        }
    } else {
        Family::Key
    }
}
