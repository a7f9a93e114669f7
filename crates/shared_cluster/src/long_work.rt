//! Work that takes long: others don't wait for it where they needn't.

ghost use Rattle.std.specs.Prelude.{◌≡◌, false};
ghost use Rattle.shared_cluster.specs.LongWork.{begins, combines_sets, has_sets, asks_for_sets};
ghost use Rattle.shared_cluster.specs.LongWork.{is_long_command, is_long_member, is_long_batch, takes_long};

use command_table::{Command, SetCommand};
use layer_planner::{Job, Layer};
use sessions::{Batch, Member};

/// What a connection has asked, as far as it tells which of its requests take long.
#[derive(Drop)]
pub(crate) struct Asked {
    // Since its last MULTI a request came that combines whole sets.
    has_sets: bool,
}

impl Asked {
    /// Nothing was asked yet.
    pub fn nothing() -> Self
        ensures { result.has_sets ≡ false }
    {
        Asked { has_sets: false }
    }

    /// Whether a request of this name, which is asked now, combines whole sets: it does so itself, or it is an EXEC and a
    /// request of its list does.
    pub fn combines_sets(&mut self, name: &[u8]) -> bool
        ensures told { result ≡ asks_for_sets self.old.has_sets name.now }
        ensures kept { self.new.has_sets ≡ has_sets self.old.has_sets name.now }
    {
        if combines_sets(name) {
            self.has_sets = true;
            return true;
        }
        if name.eq_ignore_ascii_case(b"multi") {
            self.has_sets = false;
        }
        self.has_sets && name.eq_ignore_ascii_case(b"exec")
    }
}

/// Whether a command of this name combines whole sets: these do much, and touch several shards, so that several of them come
/// to be ready at once.
fn combines_sets(name: &[u8]) -> bool
    ensures { result ≡ combines_sets name.now }
{
    begins(b"sinter", name) || begins(b"sunion", name) || begins(b"sdiff", name)
}

/// Whether the name begins so, in any case.
fn begins(beginning: &[u8], name: &[u8]) -> bool
    ensures { result ≡ begins beginning.now name.now }
{
    if name.len() < beginning.len() {
        return false;
    }
    let head = &name[..beginning.len()];
    head.eq_ignore_ascii_case(beginning)
}

/// Whether a request of the layer combines whole sets.
pub(crate) fn takes_long(layer: &Layer) -> bool
    ensures { result ≡ takes_long layer.now }
{
    layer.jobs().iter().any(is_long)
}

/// Whether the request combines whole sets, or a member of it does.
fn is_long(job: &Job) -> bool
    ensures { result ≡ is_long_batch job.now.asked.batch }
{
    is_long_batch(job.asked.batch())
}

fn is_long_batch(batch: &Batch) -> bool
    ensures { result ≡ is_long_batch batch.now }
{
    match batch {
        Batch::Plain(command) => is_long_command(command),
        Batch::Exec(members) => members.as_slice().iter().any(is_long_member),
    }
}

fn is_long_member(member: &Member) -> bool
    ensures { result ≡ is_long_member member.now }
{
    match member {
        Member::Runs(command) => is_long_command(command),
        Member::Refused(_) => false,
    }
}

fn is_long_command(command: &Command) -> bool
    ensures { result ≡ is_long_command command.now }
{
    let Command::Set(command) = command else {
        return false;
    };
    matches!(
        command,
        SetCommand::Sinter { .. }
            | SetCommand::Sunion { .. }
            | SetCommand::Sdiff { .. }
            | SetCommand::Sinterstore { .. }
            | SetCommand::Sunionstore { .. }
            | SetCommand::Sdiffstore { .. }
    )
}
