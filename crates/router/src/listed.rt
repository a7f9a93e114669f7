//! A list of MULTI that is open on a connection.

ghost use Rattle.std.specs.Prelude.{◌≡◌, [], cond, true, None, IfOk, IsSome, OnOk, OnErr};
ghost use Rattle.placement.specs.Layout.{Layout};
ghost use Rattle.router.specs.Lists.{is_listing, is_open_list};
ghost use Rattle.router.specs.Submitting.{TellsOf};
ghost use Rattle.sessions.specs.Control.{control_in};
ghost use Rattle.sessions.specs.Session.{asks};
ghost use Rattle.sessions.specs.declared.session.Session.TheVariants.{Listing};

use super::asking::{answered, ask_exec};
use super::connection::Standing;
use groups::{Groups, RequestId};
use packing::PackedList;
use placement::Table;
use resp::Request;
use sessions::{Ask, Batch, Session, is_control};
use std::alloc::{AllocError, Global};
use std::marker::Model;

/// What a connection remembers whose list is open, and the words of the list's members, of which those of the EXEC will be
/// made: the members are what is read of them.
#[derive(Drop)]
pub(super) struct Listed {
    session: Session,
    words: PackedList,
}

impl Model for Listed {
    ghost use Rattle.std.specs.Coded.{codes};
    ghost use Rattle.std.specs.Prelude.{◌≡◌, Ok};
    ghost use Rattle.resp.specs.contracts.reply.Reply as reply;
    ghost use Rattle.router.specs.Lists.{ListView, listed_members};
    ghost use Rattle.worded.specs.Reading.{members_of};

    ghost Value = { ListView };

    ghost coded = { Prim.hlevel (codes, reply.the_row.coded) };

    ghost view = { λ l. record { session = l.session; words = l.words } };

    ghost invariant = { λ l. members_of l.words ≡ Ok (listed_members l.session) };
}

impl Listed {
    /// A list without members, as a session remembers it that has just opened one. It takes no memory.
    pub fn new(alloc: Global, session: Session) -> Self
        requires { session ≡ Listing [] }
        ensures { result ≡ record { session = Listing []; words = [] } }
    {
        Listed {
            session,
            words: PackedList::new(alloc),
        }
    }

    /// Whether the list is open, spoilt or not.
    pub fn is_open(&self) -> bool
        ensures { result ≡ is_open_list self.now.session }
    {
        !matches!(self.session, Session::Free)
    }

    /// Whether requests are added to the list.
    pub fn is_listing(&self) -> bool
        ensures { result ≡ is_listing self.now.session }
    {
        is_listing(&self.session)
    }

    /// What comes of a request: how its connection stands, and the groups that it addresses. The only error is want of memory,
    /// which changes nothing.
    pub fn ask(
        &mut self,
        alloc: Global,
        table: &Table,
        id: RequestId,
        words: Request,
    ) -> Result<(Standing, Groups), AllocError>
        requires { is_open_list self.old.session ≡ true }
        ensures session { OnOk result (self.new.session ≡ (asks self.old.session words).0) }
        ensures told { IfOk result (TellsOf table.now id (asks self.old.session words).1) }
        ensures unchanged { OnErr result (self.new ≡ self.old) }
    {
        // `len` is called for its clause that there is a word.
        let _words = words.len();
        if is_control(words.word(0)) {
            self.obey(alloc, table, id, words)
        } else {
            self.queue(alloc, id, words)
        }
    }

    /// A request of another name than the three becomes a member of the list, or is refused, which spoils the list.
    fn queue(
        &mut self,
        alloc: Global,
        id: RequestId,
        words: Request,
    ) -> Result<(Standing, Groups), AllocError>
        requires open { is_open_list self.old.session ≡ true }
        requires other { control_in words ≡ None }
        ensures session { OnOk result (self.new.session ≡ (asks self.old.session words).0) }
        ensures told { (table : Layout) → IfOk result (TellsOf table id (asks self.old.session words).1) }
        ensures unchanged { OnErr result (self.new ≡ self.old) }
    {
        let place = self.words.size();
        self.words.push(&words)?;
        match self.session.take(alloc, words) {
            Ok(Ask::Now(reply)) => {
                keep_words(alloc, &self.session, &mut self.words);
                Ok((answered(id, reply), Groups::empty()))
            }
            Ok(Ask::Go(_)) => unreachable!(),
            Err(_) => {
                self.words.take_back(place);
                Err(AllocError)
            }
        }
    }

    /// One of the three names: the list is run, dropped or spoilt, or stays.
    fn obey(
        &mut self,
        alloc: Global,
        table: &Table,
        id: RequestId,
        words: Request,
    ) -> Result<(Standing, Groups), AllocError>
        requires open { is_open_list self.old.session ≡ true }
        requires control { IsSome (control_in words) }
        ensures session { OnOk result (self.new.session ≡ (asks self.old.session words).0) }
        ensures told { IfOk result (TellsOf table.now id (asks self.old.session words).1) }
        ensures unchanged { OnErr result (self.new ≡ self.old) }
    {
        match self.session.take(alloc, words) {
            Ok(Ask::Now(reply)) => {
                keep_words(alloc, &self.session, &mut self.words);
                Ok((answered(id, reply), Groups::empty()))
            }
            Ok(Ask::Go(Batch::Exec(members))) => match ask_exec(
                alloc,
                table,
                id,
                members,
                &self.words,
            ) {
                Ok(told) => {
                    keep_words(alloc, &self.session, &mut self.words);
                    Ok(told)
                }
                Err(batch) => {
                    self.session.back(batch);
                    Err(AllocError)
                }
            },
            Ok(Ask::Go(Batch::Plain(_))) => unreachable!(),
            Err(_) => Err(AllocError),
        }
    }
}

/// Whether requests are added to a list.
fn is_listing(session: &Session) -> bool
    ensures { result ≡ is_listing session.now }
{
    matches!(session, Session::Listing(_))
}

/// Lets the words of a list go that has no members any more.
fn keep_words(alloc: Global, session: &Session, words: &mut PackedList)
    ensures { words.new ≡ cond (is_listing session.now) words.old [] }
{
    if !is_listing(session) {
        *words = PackedList::new(alloc);
    }
}
