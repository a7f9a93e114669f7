//! What a connection remembers between its requests.

ghost use Rattle.std.specs.Prelude.{◌≡◌, ◌<◌, ◌==◌, IsTrue, IfOk, OnErr, None};
ghost use Rattle.command_table.specs.Keyed.{IsKeyed};
ghost use Rattle.command_table.specs.declared.command.Command.{Command};
ghost use Rattle.command_table.specs.declared.refusal.Refusal.TheVariants.{Arity};
ghost use Rattle.command_table.specs.Reading.{reading};
ghost use Rattle.resp.specs.Content.{content};
ghost use Rattle.sessions.specs.Control.{control_name, control_in};
ghost use Rattle.sessions.specs.Replies.{refused};
ghost use Rattle.sessions.specs.Session.{asks, obey, spoilt, plain, take_up, answer_of, member_answer, Now, Go, Queues, IsKeyedAsk};
ghost use Rattle.sessions.specs.declared.batch.Batch.TheVariants.{Plain};
ghost use Rattle.sessions.specs.declared.control.Control.TheVariants.{Multi, Exec, Discard};
ghost use Rattle.sessions.specs.declared.session.Session.TheVariants.{Free, Listing};

use crate::batch::{Ask, Batch};
use crate::control::{Control, control_of};
use crate::member::{Member, Queue, member_of};
use crate::replies::{
    aborted_reply, discard_alone_reply, exec_alone_reply, nested_reply, no_replies_reply,
    queued_reply, refused_reply,
};
use command_cases::ok_reply;
use command_table::{Command, Refusal, read};
use resp::{ErrorText, Reply, Request};
use std::alloc::{AllocError, Global};

/// What a connection remembers between its requests: whether a list is open on it, and the members that the list has.
#[derive(Drop)]
pub enum Session {
    /// No list is open: a command is run when it comes.
    Free,

    /// A list is open, with these members.
    Listing(Queue),

    /// A list is open, and EXEC will be refused; its members were let go.
    Spoilt,
}

impl Session {
    /// The session of a connection that was just opened. It takes no memory.
    pub fn new() -> Self
        ensures { result ≡ Free }
    {
        Session::Free
    }

    /// Whether the request can be read and run with no look at the session, which stays as it is: no list is open and the
    /// request is none of the three.
    #[inline]
    pub fn is_plain(&self, request: &Request) -> bool
        ensures { IsTrue result → asks self.now request.now ≡ (self.now, plain (reading request.now)) }
    {
        matches!(self, Session::Free) && control_in(request).is_none()
    }

    /// What comes of a request: it is answered, or it is to be run.
    ///
    /// `AllocError` comes only of a request that is to be a member of an open list, where there is no memory for it;
    /// the session is then as it was.
    pub fn take(&mut self, alloc: Global, request: Request) -> Result<Ask, AllocError>
        ensures asks { IfOk result (λ ask. (self.new, answer_of ask) ≡ asks self.old request) }
        ensures keyed { IfOk result IsKeyedAsk }
        ensures err { OnErr result (self.new ≡ self.old) }
        ensures queues { OnErr result (Queues self.old request) }
    {
        match control_in(&request) {
            None => self.take_up(request),
            Some(control) => if request.len() == 1 {
                Ok(self.obey(alloc, control))
            } else {
                Ok(Ask::Now(self.spoil(control)))
            },
        }
    }

    /// Undoes the take of an EXEC that gave this batch: its list is open again. It takes no memory.
    pub fn back(&mut self, batch: Batch)
        requires free { self.old ≡ Free }
        requires exec { (command : Command) → batch ≡ Plain command → ⊥ }
        ensures { obey self.new Exec ≡ (self.old, Go batch) }
    {
        match batch {
            Batch::Exec(members) => *self = Session::Listing(Queue::of_members(members)),
            Batch::Plain(_) => unreachable!(),
        }
    }

    /// Does what one of the three says that has no word beside its name.
    fn obey(&mut self, alloc: Global, control: Control) -> Ask
        ensures obeyed { (self.new, answer_of result) ≡ obey self.old control }
        ensures keyed { IsKeyedAsk result }
    {
        match control {
            Control::Multi => Ask::Now(self.open(alloc)),
            Control::Exec => self.close(alloc),
            Control::Discard => Ask::Now(self.discard()),
        }
    }

    /// MULTI: a list is opened, unless one is open already.
    fn open(&mut self, alloc: Global) -> Reply
        ensures { (self.new, Now (content result)) ≡ obey self.old Multi }
    {
        match self {
            Session::Free => {
                *self = Session::Listing(Queue::new(alloc));
                ok_reply()
            }
            _ => nested_reply(),
        }
    }

    /// EXEC: the members of the list are to be run, where it has some and isn't spoilt. No list is open afterwards.
    fn close(&mut self, alloc: Global) -> Ask
        ensures closed { (self.new, answer_of result) ≡ obey self.old Exec }
        ensures keyed { IsKeyedAsk result }
    {
        match std::mem::replace(self, Session::Free) {
            Session::Free => Ask::Now(exec_alone_reply()),
            Session::Spoilt => Ask::Now(aborted_reply()),
            Session::Listing(queue) => match queue.into_members() {
                None => Ask::Now(no_replies_reply(alloc)),
                Some(members) => Ask::Go(Batch::Exec(members)),
            },
        }
    }

    /// DISCARD: the list is dropped.
    fn discard(&mut self) -> Reply
        ensures { (self.new, Now (content result)) ≡ obey self.old Discard }
    {
        match std::mem::replace(self, Session::Free) {
            Session::Free => discard_alone_reply(),
            _ => ok_reply(),
        }
    }

    /// One of the three with a word beside its name is refused, and an open list is spoilt.
    fn spoil(&mut self, control: Control) -> Reply
        ensures spoilt { self.new ≡ spoilt self.old }
        ensures reply { content result ≡ refused (Arity (control_name control)) }
    {
        if let Session::Listing(_) = self {
            *self = Session::Spoilt;
        }
        Reply::Error(ErrorText::Arity(control.name()))
    }

    /// A request of another name is run where no list is open, and else becomes a member; one that can't be a member is
    /// answered, and spoils the list.
    fn take_up(&mut self, request: Request) -> Result<Ask, AllocError>
        ensures asks { IfOk result (λ ask. (self.new, answer_of ask) ≡ take_up self.old (reading request)) }
        ensures keyed { IfOk result IsKeyedAsk }
        ensures err { OnErr result (self.new ≡ self.old) }
        ensures queues { OnErr result (control_in request ≡ None → Queues self.old request) }
    {
        let read = read(request);
        match std::mem::replace(self, Session::Spoilt) {
            Session::Free => {
                *self = Session::Free;
                Ok(plain(read))
            }
            Session::Spoilt => Ok(Ask::Now(member_reply(&member_of(read)))),
            Session::Listing(mut queue) => match member_of(read) {
                Ok(member) => {
                    let added = queue.push(member);
                    *self = Session::Listing(queue);
                    added?;
                    Ok(Ask::Now(queued_reply()))
                }
                Err(refusal) => Ok(Ask::Now(refused_reply(&refusal))),
            },
        }
    }
}

/// The one of the three that the request's first word names.
#[inline]
fn control_in(request: &Request) -> Option<Control>
    ensures { result ≡ control_in request.now }
{
    // `len` is called for its clause that there is a word.
    let _words = request.len();
    control_of(request.word(0))
}

/// What is answered to a request in an open list, by the member that it is.
fn member_reply(member: &Result<Member, Refusal>) -> Reply
    ensures { content result ≡ member_answer member.now }
{
    match member {
        Ok(_) => queued_reply(),
        Err(refusal) => refused_reply(refusal),
    }
}

/// What comes of a request outside a list: the command that was read is to be run.
fn plain(read: Result<Command, Refusal>) -> Ask
    requires { IfOk read IsKeyed }
    ensures answer { answer_of result ≡ plain read }
    ensures keyed { IsKeyedAsk result }
{
    match read {
        Ok(command) => Ask::Go(Batch::Plain(command)),
        Err(refusal) => Ask::Now(refused_reply(&refusal)),
    }
}
