//! Connections: opening them, what they collect, and closing them.

ghost use Rattle.std.specs.Prelude.{◌≡◌, IfOk, IfErr, OnOk, OnErr, option_map};
ghost use Rattle.front.specs.Making.{Makes};
ghost use Rattle.front.specs.Refusing.{IsFault, MayStep};
ghost use Rattle.front.specs.declared.fault.FrontFault.{FrontFault};
ghost use Rattle.journal.specs.declared.step.Step.{Step};
ghost use Rattle.front.specs.Connections.{outcome_shown};
ghost use Rattle.world.specs.Steps.{Opened, Collected, Made};

use super::fault::FrontFault;
use super::front::Front;
use groups::ConnId;
use router::Outcome;

impl Front {
    /// Opens the next connection and gives its number. The only error is `Memory`, which changes nothing.
    // A call, so that `make` is small where it is inlined.
    #[inline(never)]
    pub fn open(&mut self) -> Result<ConnId, FrontFault>
        requires { MayStep self.old }
        ensures made { IfOk result (λ conn. Makes self.old Step.Open (Opened conn.0) self.new) }
        ensures refused { IfErr result (λ fault. (fault ≡ FrontFault.Memory) × IsFault self.old Step.Open fault) }
        ensures unchanged { OnErr result (self.new ≡ self.old) }
    {
        let conn = self.router.open()?;
        self.steps += 1;
        Ok(conn)
    }

    /// A connection takes the outcome of its request, if it is there. The only error is `NoConn`, which changes nothing. It takes
    /// no memory.
    // A call, so that `make` is small where it is inlined.
    #[inline(never)]
    pub fn collect(&mut self, conn: ConnId) -> Result<Option<Outcome>, FrontFault>
        requires { MayStep self.old }
        ensures made { IfOk result (λ given. Makes self.old (Step.Collect conn) (Collected (option_map outcome_shown given)) self.new) }
        ensures refused { IfErr result (λ fault. (fault ≡ FrontFault.NoConn) × IsFault self.old (Step.Collect conn) fault) }
        ensures unchanged { OnErr result (self.new ≡ self.old) }
    {
        let Ok(outcome) = self.router.collect(conn) else {
            return Err(FrontFault::NoConn);
        };
        self.steps += 1;
        Ok(outcome)
    }

    /// Closes a connection. What it waits for still runs, and its outcome is dropped. The only error is `NoConn`, which
    /// changes nothing. It takes no memory.
    // A call, so that `make` is small where it is inlined.
    #[inline(never)]
    pub fn close(&mut self, conn: ConnId) -> Result<(), FrontFault>
        requires { MayStep self.old }
        ensures made { OnOk result (Makes self.old (Step.Close conn) Made self.new) }
        ensures refused { IfErr result (λ fault. (fault ≡ FrontFault.NoConn) × IsFault self.old (Step.Close conn) fault) }
        ensures unchanged { OnErr result (self.new ≡ self.old) }
    {
        let Ok(()) = self.router.close(conn) else {
            return Err(FrontFault::NoConn);
        };
        self.steps += 1;
        Ok(())
    }
}
