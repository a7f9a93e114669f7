//! The names that a session answers itself.

ghost use Rattle.std.specs.Prelude.{◌≡◌, Some, None, if◌then◌else◌};
ghost use Rattle.command_table.specs.Words.{is_word};
ghost use Rattle.sessions.specs.Control.{control_name, control_of, is_control};

/// What a client says of its list.
#[derive(Clone, Copy)]
pub(crate) enum Control {
    /// Opens a list.
    Multi,

    /// Has the list run.
    Exec,

    /// Drops the list.
    Discard,
}

impl Control {
    /// Its name, in lower case.
    pub(crate) fn name(self) -> &'static str
        ensures { result.now ≡ control_name self }
    {
        match self {
            Control::Multi => "multi",
            Control::Exec => "exec",
            Control::Discard => "discard",
        }
    }

    /// Whether this word is its name, in any case.
    fn has_name(self, word: &[u8]) -> bool
        ensures { result ≡ is_word (control_name self) word.now }
    {
        word.eq_ignore_ascii_case(self.name().as_bytes())
    }
}

/// The one of this name, in any case. The length of the name is looked at first, which tells most other names.
#[inline]
pub(crate) fn control_of(name: &[u8]) -> Option<Control>
    ensures { result ≡ control_of name.now }
{
    match name.len() {
        4 => if_named(name, Control::Exec),
        5 => if_named(name, Control::Multi),
        7 => if_named(name, Control::Discard),
        _ => None,
    }
}

/// Whether the word is the name of one of the three, in any case.
pub fn is_control(name: &[u8]) -> bool
    ensures { result ≡ is_control name.now }
{
    control_of(name).is_some()
}

/// This one, where the word is its name.
fn if_named(word: &[u8], control: Control) -> Option<Control>
    ensures { result ≡ (if is_word (control_name control) word.now then Some control else None) }
{
    if control.has_name(word) {
        Some(control)
    } else {
        None
    }
}
