//! An outcome that its connection collects at once.

ghost use Rattle.std.specs.Prelude.{◌≡◌, true, false};
ghost use Rattle.router.specs.Finishing.{Finishes};
ghost use Rattle.router.specs.declared.outcome.Outcome.{Outcome};

use super::connection::Standing;
use super::router::Router;
use groups::{RequestId, Stamp};
use std::mem;

impl Router {
    /// A request that was taken has its outcome, which its connection collects at once where it is open: then it is idle, and
    /// its floor is the clock of the request's stamp. Says whether it is so; else nothing changes. It takes no memory.
    // Inlined, since it is short.
    #[inline(always)]
    pub fn finish(&mut self, stamp: Stamp, id: RequestId) -> bool
        ensures finished { result ≡ true → (outcome : Outcome) → outcome.id ≡ id → Finishes self.old stamp.clock outcome self.new }
        ensures unchanged { result ≡ false → self.new ≡ self.old }
    {
        let Some(connection) = self.kept.get_mut(&id.conn.0) else {
            return false;
        };
        if !connection.is_open {
            return false;
        }
        let Standing::Taken = &connection.standing else {
            return false;
        };
        connection.floor = stamp.clock;
        let Standing::Taken = mem::replace(&mut connection.standing, Standing::Idle) else {
            unreachable!()
        };
        true
    }
}
