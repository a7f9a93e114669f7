//! The members of a list.

ghost use Rattle.std.specs.Prelude.{◌≡◌, ◌<◌, [], ◌∷◌, ◌++◌, length, Some, None, IfOk, OnOk, OnErr, MatchOption};
ghost use Rattle.command_table.specs.Keyed.{IsKeyed};
ghost use Rattle.sessions.specs.Member.{member_of, refusal_of, IsKeyedMember, AreKeyed};

use command_table::{Command, Refusal};
use std::alloc::{AllocError, Global};
use std::marker::Model;

/// Why a member is no command: a word behind its name is none that may stand there.
#[derive(Clone, Copy, Debug, Drop, PartialEq, Eq)]
pub enum Misread {
    /// A word is none of the command's options, or contradicts another one.
    Syntax,

    /// A word that should be an integer isn't one that fits 64 bits.
    NotInteger,
}

impl Misread {
    /// The refusal that the member answers when its turn comes.
    pub fn refusal(self) -> Refusal
        ensures { result ≡ refusal_of self }
    {
        match self {
            Misread::Syntax => Refusal::Syntax,
            Misread::NotInteger => Refusal::NotInteger,
        }
    }
}

/// A member of a list.
#[derive(Drop)]
pub enum Member {
    /// It runs this command.
    Runs(Command),

    /// It is answered by this error, and changes nothing.
    Refused(Misread),
}

/// What is read of a request as a member, or why it can't be one.
pub fn member_of(read: Result<Command, Refusal>) -> Result<Member, Refusal>
    requires keyed { IfOk read IsKeyed }
    ensures member { result ≡ member_of read }
    ensures keyed { IfOk result IsKeyedMember }
{
    match read {
        Ok(command) => Ok(Member::Runs(command)),
        Err(Refusal::Syntax) => Ok(Member::Refused(Misread::Syntax)),
        Err(Refusal::NotInteger) => Ok(Member::Refused(Misread::NotInteger)),
        Err(refusal) => Err(refusal),
    }
}

/// The members that a list has so far, in the order in which they came; at first there is none. Contracts see them. Each
/// command names a key, is for all keys or looks at none.
#[derive(Drop)]
pub struct Queue {
    members: Vec<Member>,
}

impl Model for Queue {
    ghost use Rattle.std.specs.Prelude.{List};
    ghost use Rattle.sessions.specs.declared.member.Member.{Member};
    ghost use Rattle.sessions.specs.Member.{AreKeyed};

    ghost Value = { List Member };

    ghost view = { λ q. q.members.items };

    ghost invariant = { λ q. AreKeyed q.members.items };
}

impl Queue {
    /// No members. It takes no memory.
    pub(crate) fn new(alloc: Global) -> Self
        ensures { result ≡ [] }
    {
        Queue {
            members: Vec::new(alloc),
        }
    }

    /// Adds a member; `AllocError` where there is no memory for it, and the others stay.
    pub(crate) fn push(&mut self, member: Member) -> Result<(), AllocError>
        requires keyed { IsKeyedMember member }
        ensures ok { OnOk result (self.new ≡ self.old ++ member ∷ []) }
        ensures err { OnErr result (self.new ≡ self.old) }
    {
        self.members.push(member)?;
        Ok(())
    }

    /// The members, of which there is one at least; `None` where there is none.
    pub(crate) fn into_members(self) -> Option<Members>
        ensures { MatchOption result (self ≡ []) (λ members. members ≡ self) }
    {
        Members::new(self.members)
    }

    /// The queue that these members were.
    pub(crate) fn of_members(members: Members) -> Self
        ensures { result ≡ members }
    {
        let members = members.members;
        Queue { members }
    }
}

/// The members of a batch, one at least, in the order in which they are run. Contracts see them. Each command names a
/// key, is for all keys or looks at none.
#[derive(Drop)]
pub struct Members {
    members: Vec<Member>,
}

impl Model for Members {
    ghost use Rattle.std.specs.Prelude.{List, length, ◌<◌};
    ghost use Rattle.sessions.specs.declared.member.Member.{Member};
    ghost use Rattle.sessions.specs.Member.{AreKeyed};

    ghost Value = { List Member };

    ghost view = { λ m. m.members.items };

    ghost invariant = { λ m. (0 < length m.members.items) × AreKeyed m.members.items };
}

impl Members {
    /// These members, one at least; `None` where there is none. It takes no memory.
    pub fn new(members: Vec<Member>) -> Option<Self>
        requires { AreKeyed members.items }
        ensures { MatchOption result (members.items ≡ []) (λ made. made ≡ members.items) }
    {
        if members.is_empty() {
            None
        } else {
            Some(Members { members })
        }
    }

    /// How many there are, one at least.
    #[allow(clippy::len_without_is_empty)]
    pub fn len(&self) -> usize
        ensures number { result ≡ length self.now }
        ensures some { 0 < result }
    {
        self.members.len()
    }

    /// The members, to be read one after another.
    pub fn as_slice(&self) -> &[Member]
        ensures members { result.now ≡ self.now }
        ensures keyed { AreKeyed self.now }
    {
        self.members.as_slice()
    }

    /// The members, given back with the memory that they lie in.
    pub fn into_vec(self) -> Vec<Member>
        ensures members { result.items ≡ self }
        ensures some { 0 < length result.items }
        ensures keyed { AreKeyed result.items }
    {
        self.members
    }
}
