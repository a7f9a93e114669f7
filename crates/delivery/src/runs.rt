//! The runs in front of the queues: what a layer takes with each request that is ready.
ghost use Rattle.std.specs.Prelude.{◌≡◌, ◌++◌, length, min, OnOk};
ghost use Rattle.std.specs.List.Sorted.{IsPermutation, IsSortedByKey};
ghost use Rattle.skeen_core.specs.Pending.{stamp_cmp};
ghost use Rattle.skeen_core.specs.declared.packet.Delivered.{Delivered};
ghost use Rattle.delivery.specs.Queues.{queue_of, requests_of};
ghost use Rattle.delivery.specs.Runs.{run_of, runs_of};

use super::queue::Queue;
use skeen_core::Delivered;
use std::alloc::AllocError;

/// How many requests are taken with one that is ready.
fn run_len(queues: &[Queue], head: &Delivered) -> usize
    ensures { result ≡ length (run_of (queue_of (requests_of queues.now)) head.now) }
{
    let Some(group) = head.groups.alone() else {
        return 1;
    };
    match queues.get(usize::from(group.number())) {
        Some(queue) => queue.run_len(),
        None => 0,
    }
}

/// How many requests are taken with these, which are ready.
pub fn count_runs(queues: &[Queue], heads: &[Delivered]) -> usize
    ensures { result ≡ min (length (runs_of (queue_of (requests_of queues.now)) heads.now)) usize.MAX }
{
    let mut count: usize = 0;
    for head in heads {
        count = count.saturating_add(run_len(queues, head));
    }
    count
}

/// Puts what is taken with the request, which is ready, behind the layer. The only error is want of memory.
fn append_run(
    queues: &[Queue],
    head: &Delivered,
    layer: &mut Vec<Delivered>,
) -> Result<(), AllocError>
    ensures { OnOk result (layer.new.items ≡ layer.old.items ++ run_of (queue_of (requests_of queues.now)) head.now) }
{
    let Some(group) = head.groups.alone() else {
        layer.push(*head)?;
        return Ok(());
    };
    match queues.get(usize::from(group.number())) {
        Some(queue) => queue.append_run(layer),
        None => Ok(()),
    }
}

/// Puts what is taken with these, which are ready, behind the layer. The only error is want of memory.
pub fn append_runs(
    queues: &[Queue],
    heads: &[Delivered],
    layer: &mut Vec<Delivered>,
) -> Result<(), AllocError>
    ensures { OnOk result (layer.new.items ≡ layer.old.items ++ runs_of (queue_of (requests_of queues.now)) heads.now) }
{
    for head in heads {
        append_run(queues, head, layer)?;
    }
    Ok(())
}

/// Puts the requests in the order of their stamps. It takes no memory.
pub fn sort_by_stamp(requests: &mut Vec<Delivered>)
    ensures permutation { IsPermutation requests.old.items requests.new.items }
    ensures sorted { IsSortedByKey (λ (d : Delivered). d.stamp) stamp_cmp requests.new.items }
{
    requests.sort_unstable_by_key(|request| request.stamp);
}
