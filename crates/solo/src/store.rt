//! The store: a map, and commands run on it in turn.

ghost use Rattle.std.specs.Prelude.{◌≡◌, ◌++◌, map, OnOk, OnErr, IfOk};
ghost use Rattle.std.specs.FinMap as finite;
ghost use Rattle.resp.specs.Content.{content};
ghost use Rattle.tasks.specs.Command.{effect_of, TakesMemory};
ghost use Rattle.command_cases.specs.Case.{Does};
ghost use Rattle.dumps.specs.Dump.{dump_text};
ghost use Rattle.serving.specs.Answers.{answer_of};
ghost use Rattle.solo.specs.Connection.{AsksPlain, AsksCommand};
ghost use Rattle.solo.specs.Solo.{solo_from, IsRunOrStarves, IsStepOrStarves, RunsBeginning};

use crate::fault::ConnectionFault;
use crate::reading_ahead::Sight;
use command_cases::Starved;
use command_table::{Command, read};
use dumps::Dump;
use hashed_texts::TextHasher;
use keyspace::Plain;
use resp::{Reply, Request};
use resp_decoder::Ahead;
use serving::DoorFault;
use sessions::Batch;
use std::alloc::{AllocError, Global};
use std::hash::BuildHasher;
use std::marker::Model;
use tasks::{execute, execute_batch};

/// Keys and values in one table, on which commands are run one after another. Contracts see the map.
#[derive(Drop)]
pub struct Solo<S: BuildHasher> {
    alloc: Global,
    keys: Plain<S>,
    sight: Sight,
}

impl<S: BuildHasher> Model for Solo<S> {
    ghost use Rattle.std.specs.Coded.{coded_list, coded_ℕ};
    ghost use Rattle.std.specs.FinMap.{code};
    ghost use Rattle.keyspace.specs.Map.{Map};
    ghost use Rattle.keyspace.specs.Plain.{map_of};
    ghost use Rattle.values.specs.contracts.Value as value;

    ghost Value = { Map };

    ghost coded = { code (coded_list coded_ℕ) value.the_row.coded };

    ghost view = { λ s. map_of s.keys.entries.entries };
}

impl<S: BuildHasher> Solo<S> {
    /// No keys. It takes no memory; keys are hashed by `hasher`, and the members and fields of their values with a fixed
    /// seed: a store on one map serves whoever starts it.
    pub fn new(alloc: Global, hasher: S) -> Self
        ensures { result ≡ finite.empty }
    {
        Solo {
            alloc,
            keys: Plain::new(alloc, hasher, TextHasher::Fixed),
            sight: Sight::new(),
        }
    }

    /// Runs the command and gives its reply, or `ERR out of memory` where it takes memory and there is none, which
    /// leaves every key as it was.
    pub fn run(&mut self, command: Command) -> Reply
        ensures { IsStepOrStarves command self.old (content result) self.new }
    {
        match self.try_run(command) {
            Ok(reply) => reply,
            Err(_) => Reply::out_of_memory(),
        }
    }

    /// Runs the commands one after another and gives their replies.
    ///
    /// With `AllocError` there was no memory for one of them that takes some, and those before it have been run; or
    /// there was none for the list of replies, and none of them has. A run of no commands is never refused.
    pub fn run_all(&mut self, commands: Vec<Command>) -> Result<Vec<Reply>, AllocError>
        ensures ok { IfOk result (λ replies. (self.new, map content replies.items) ≡ solo_from self.old commands.items) }
        ensures err { OnErr result (RunsBeginning commands.items self.old self.new) }
    {
        let mut replies = Vec::with_capacity(self.alloc, commands.len())?;
        for command in commands {
            let Ok(reply) = self.try_run(command) else {
                return Err(AllocError);
            };
            replies.push_reserved(reply);
        }
        Ok(replies)
    }

    /// Runs the command and gives its reply; `Starved`, and every key is as it was, where it takes memory and there is
    /// none.
    pub fn try_run(&mut self, command: Command) -> Result<Reply, Starved>
        ensures does { Does (effect_of command) self.old self.new result }
        ensures starves { OnErr result (TakesMemory command self.old) }
    {
        execute(self.alloc, &mut self.keys, command)
    }

    /// Runs the batch and gives its reply: that of a command outside a list, or an array of the replies of an EXEC's members.
    ///
    /// Of an EXEC the members of these numbers, which count from 1, are skipped. Each of them changes nothing and is
    /// answered `ERR out of memory`, and so is a member that takes memory where there is none; the others are run. The reply
    /// is `ERR out of memory`, and every key is as it was, where there is no memory for a command outside a list, which takes
    /// some, or for the array.
    pub fn run_batch(&mut self, batch: Batch, skip: &[usize]) -> Reply
        ensures { IsRunOrStarves skip.now batch self.old (content result) self.new }
    {
        match execute_batch(self.alloc, &mut self.keys, batch, skip) {
            Ok(reply) => reply,
            Err(_) => Reply::out_of_memory(),
        }
    }

    /// Answers a request outside a list: it is read as a command and run, or its words are refused.
    pub(crate) fn ask_plain(
        &mut self,
        request: Request,
    ) -> Result<Reply, DoorFault<ConnectionFault>>
        ensures { AsksPlain self.old request (answer_of result) self.new }
    {
        match read(request) {
            Ok(command) => self.ask_command(command),
            Err(refusal) => Ok(Reply::Error(refusal.text())),
        }
    }

    /// Answers a command outside a list.
    pub(crate) fn ask_command(
        &mut self,
        command: Command,
    ) -> Result<Reply, DoorFault<ConnectionFault>>
        ensures { AsksCommand self.old command (answer_of result) self.new }
    {
        match self.try_run(command) {
            Ok(reply) => Ok(reply),
            Err(_) => Err(DoorFault::Memory),
        }
    }

    /// Appends the dump of the map: a line for each key, ascending by bytes.
    ///
    /// With `AllocError`, where there is no memory for it, `out` is as it was.
    pub fn dump(&self, out: &mut Vec<u8>) -> Result<(), AllocError>
        ensures ok { OnOk result (out.new.items ≡ out.old.items ++ dump_text self.now) }
        ensures err { OnErr result (out.new.items ≡ out.old.items) }
    {
        let mut dump = Dump::new(self.alloc);
        dump.add_all(&self.keys)?;
        dump.write(out)
    }

    /// Reads what lies at the keys that come next, so that it is waited for once.
    pub(crate) fn read_ahead(&self, ahead: Ahead<'_>) {
        self.sight.read_ahead(&self.keys, ahead);
    }

    /// The allocator that the keys lie in.
    pub(crate) fn alloc(&self) -> Global {
        self.alloc
    }
}
