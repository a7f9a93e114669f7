//! That threads may share a cluster under its lock.

ghost use denote.Param.Send.{IsSync};
ghost use Rattle.shared_cluster.specs.contracts.shared.Shared as shared_type;

use cluster::Server;
use cluster_sending::halves_send;
use serial_store::Tabled;

/// What a user with threads of its own needs: a `&` to a shared cluster may go to another thread. It does nothing; its
/// contract says it.
pub fn shared_syncs<T: Tabled, L: Server>()
    ensures { IsSync (shared_type.the_row T.row L.row T.Tabled (record { steps = L.steps; runs = L.runs }) L.Ledger) }
{
    halves_send();
}
