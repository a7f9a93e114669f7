//! That a front and a store can go to another thread, part by part: the functions do nothing, and their contracts say it.

ghost use denote.Param.Send.{IsSend, IsSync};
ghost use Rattle.router.specs.contracts.router.Router as router_type;
ghost use Rattle.layer_planner.specs.contracts.job.Job as job_type;
ghost use Rattle.layer_results.specs.contracts.done.DoneRow as row_type;
ghost use Rattle.shard_exec.specs.contracts.store.Store as store_type;
ghost use Rattle.multicast.specs.contracts.multicast.Multicast as multicast_type;
ghost use Rattle.front.specs.contracts.front.Front as front_type;
ghost use Rattle.router.specs.contracts.outcome.Outcome as outcome_type;
ghost use Rattle.sessions.specs.contracts.member.Member as member_type;
ghost use Rattle.worded.specs.contracts.worded.Worded as worded_type;

use command_table::Command;
use layer_planner::Job;
use layer_results::DoneRow;
use multicast::Multicast;
use resp::Reply;
use router::Outcome;
use sessions::{Batch, Member, Members};
use shard_exec::Store;
use worded::Worded;

fn sends<T: Send>()
    ensures { IsSend T.row }
{}

/// It does nothing: its contract says that a `&` to the type may go to another thread.
pub fn syncs<T: Sync>()
    ensures { IsSync T.row }
{}

fn member_sends()
    ensures { IsSend member_type.the_row }
{
    sends::<Command>();
    sends::<Member>();
}

fn worded_sends()
    ensures { IsSend worded_type.the_row }
{
    sends::<Command>();
    sends::<Member>();
    sends::<Members>();
    sends::<Batch>();
    sends::<Worded>();
}

fn job_sends()
    ensures { IsSend job_type.the_row }
{
    worded_sends();
    sends::<Job>();
}

fn row_sends()
    ensures { IsSend row_type.the_row }
{
    sends::<Reply>();
    sends::<DoneRow>();
}

fn router_sends()
    ensures { IsSend router_type.the_row }
{
    member_sends();
    worded_sends();
    outcome_sends();
}

fn store_sends()
    ensures { IsSend store_type.the_row }
{
    sends::<Store>();
}

fn multicast_sends()
    ensures { IsSend multicast_type.the_row }
{
    sends::<Multicast>();
}

fn outcome_sends()
    ensures { IsSend outcome_type.the_row }
{
    sends::<Reply>();
    sends::<Outcome>();
}

/// It does nothing: its contract says that a front and a store, the halves of a cluster, may go to another thread, and a row of what
/// comes of a layer.
pub fn halves_send()
    ensures front { IsSend front_type.the_row }
    ensures store { IsSend store_type.the_row }
    ensures row { IsSend row_type.the_row }
{
    worded_sends();
    job_sends();
    row_sends();
    router_sends();
    store_sends();
    multicast_sends();
}
