//! What came of the layer that is out is told, and its outcomes go to their connections.

ghost use Rattle.std.specs.Prelude.{◌≡◌};
ghost use Rattle.front.specs.Settling.{IsTrueOf, Settles, MaySettle};

use super::front::Front;
use super::outcomes::hand_rows;
use layer_results::Done;

impl Front {
    /// Tells what came of the layer that is out, which has run: each of its requests gets its outcome, that of a closed
    /// connection dropped. In the history it is a Settle, behind the Run. It compares nothing, keeps nothing of it, and takes no
    /// memory.
    pub fn settle(&mut self, done: Done)
        requires few { MaySettle self.old }
        requires truth { IsTrueOf self.old done }
        ensures { Settles self.old done self.new }
    {
        hand_rows(&mut self.router, done.into_rows());
        self.out.clear();
        self.steps += 1;
        self.layers += 1;
    }
}
