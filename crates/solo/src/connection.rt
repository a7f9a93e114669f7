//! The store behind a connection: each request is read as a command and run.

ghost use Rattle.std.specs.Prelude.{◌≡◌};
ghost use Rattle.serving.specs.Serves.{Serves};
ghost use Rattle.solo.specs.Connection.{Asks, limits, ServesInTurn};

use crate::client::Client;
use crate::fault::ConnectionFault;
use crate::store::Solo;
use resp_decoder::Limits;
use serving::{ServeFault, Served, serve};
use sessions::Session;
use std::hash::BuildHasher;
use std::io::{Read, Write};

impl<S: BuildHasher> Solo<S> {
    /// Serves one connection on this store: reads requests, runs them one after another and writes their replies in
    /// that order. No list of MULTI is open at first, and one that is open at the end is dropped.
    ///
    /// How it ends and what is then read and written is as `serving::serve` says. `ServeFault::Door` comes only of a request
    /// that is to be the next member of an open list, where there is no memory for it; the list is dropped then too.
    pub fn serve<R: Read, W: Write>(
        &mut self,
        reader: &mut R,
        writer: &mut W,
    ) -> Result<Served, ServeFault<ConnectionFault>>
        ensures { ServesInTurn (R.remaining reader.old) (R.remaining reader.new)
            (W.contents writer.old) (W.contents writer.new) self.old self.new result }
    {
        let mut session = Session::new();
        let mut client = Client {
            solo: self,
            session: &mut session,
        };
        serve_client(&mut client, reader, writer)
    }
}

/// Serves a client's connection.
fn serve_client<S: BuildHasher, R: Read, W: Write>(
    client: &mut Client<'_, S>,
    reader: &mut R,
    writer: &mut W,
) -> Result<Served, ServeFault<ConnectionFault>>
    ensures same_reference { client.new.solo.ghost_name ≡ client.old.solo.ghost_name }
    ensures serves { Serves Asks limits (R.remaining reader.old) (R.remaining reader.new)
        (W.contents writer.old) (W.contents writer.new) (client.old.session.now, client.old.solo.now)
        (client.new.session.now, client.new.solo.now) result }
{
    serve(client.solo.alloc(), Limits::DEFAULT, reader, writer, client)
}
