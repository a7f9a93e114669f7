//! A layer that was handed out is brought to a store.

ghost use Rattle.std.specs.Prelude.{◌≡◌, IfOk, IfErr};
ghost use Rattle.cluster.specs.Running.{RunsTaken, LacksMemory, IsRefusedForGood};
ghost use Rattle.cluster.specs.Sealed.{TakenView};
ghost use Rattle.std.specs.Prelude.{Option, Some, None, IfSome, IfNone};

use super::names::{RunsOf, Server};
use super::sealed::{Ran, Taken};
use groups::SkipId;
use serial_store::{SerialStore, Tabled, Unrun};
use shard_exec::ExecFault;
use shard_workers::{Gate, Workers};

/// Runs a layer that was handed out, where as many were run before it as its number says, and seals what came of it.
///
/// Where there is no memory for that the layer is given back, with nothing changed; `Err(None)` says that it was refused for good: its
/// turn was another, it is stale, or a worker could not be started, now or earlier.
pub fn run_taken<T: Tabled, L: Server, W: Workers>(
    store: &mut SerialStore<T, RunsOf<L>>,
    taken: Taken<T, L>,
    workers: &W,
    gate: &(dyn Gate + Sync),
) -> Result<Ran<T, L>, Option<Taken<T, L>>>
    ensures ran { IfOk result (λ ran. RunsTaken store.old taken ran store.new) }
    ensures given { IfErr result (λ back. IfSome back (λ given. given ≡ taken)) }
    ensures lacks { IfErr result (λ back. IfSome back (λ given. LacksMemory (W.may_refuse workers.now) store.old taken store.new)) }
    ensures refused { IfErr result (λ back. IfNone back (IsRefusedForGood (W.may_refuse workers.now) store.old taken store.new)) }
{
    let Taken {
        layer,
        number,
        told,
        mut rows,
    } = taken;
    let skip: [SkipId; 0] = [];
    match store.run(number, layer, &mut rows, &skip, workers, gate) {
        Ok(ran) => {
            ran.holds();
            Ok(Ran { told, ran })
        }
        Err(Unrun::Refused(ExecFault::Memory(layer))) => Err(Some(Taken {
            layer,
            number,
            told,
            rows,
        })),
        Err(_) => Err(None),
    }
}
