//! What came of a layer of one request is told, and its connection collects it at once.

ghost use Rattle.std.specs.Prelude.{◌≡◌, true, false, [], ◌∷◌};
ghost use Rattle.front.specs.Finishing.{Finishes, MayFinish};
ghost use Rattle.front.specs.Settling.{IsTrueOf};

use super::front::Front;
use super::outcomes::stamp_of;
use layer_results::DoneRow;

impl Front {
    /// Tells what came of the layer that is out, which is of one request and has run, and the request's connection collects it. So it
    /// is where that is open and the request has a reply; says whether it is so, and else nothing changes. In the history these are a
    /// Settle, behind the Run, and a Collect. It takes no memory.
    // Inlined, since it is short.
    #[inline(always)]
    pub fn finish(&mut self, row: &DoneRow) -> bool
        requires few { MayFinish self.old }
        requires truth { IsTrueOf self.old (row.now ∷ []) }
        ensures finished { result ≡ true → Finishes self.old row.now self.new }
        ensures unchanged { result ≡ false → self.new ≡ self.old }
    {
        let Some(_) = &row.reply else {
            return false;
        };
        if !self.router.finish(stamp_of(row), row.id) {
            return false;
        }
        self.out.clear();
        self.steps += 2;
        self.layers += 1;
        true
    }
}
