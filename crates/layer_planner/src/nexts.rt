//! The units of a layer as chains of places.
ghost use Rattle.std.specs.Prelude.{◌≡◌, ℕ, ◌<◌, [], ◌∷◌, length, IfOk};
ghost use Rattle.layer_planner.specs.Nexts.{AreNexts, linked, heads_with};
ghost use Rattle.layer_planner.specs.Units.{groups_each};

use super::firsts::groups_at;
use super::job::Job;
use groups::Groups;
use std::alloc::{AllocError, Global};

/// For each place the next one of its unit, or the number of places where there is none.
pub fn next_places(alloc: Global, jobs: &[Job]) -> Result<Vec<usize>, AllocError>
    ensures { IfOk result (λ nexts. AreNexts (groups_each jobs.now) nexts.items) }
{
    let count = jobs.len();
    let mut nexts = vec![in alloc; count; count]?;
    let mut heads = [count; 64];
    let mut left = count;
    while left > 0 {
        left -= 1;
        link(&mut nexts, &mut heads, left, groups_at(jobs, left));
    }
    Ok(nexts)
}

/// Puts a place in front of the chain of its group, if it has one group alone.
fn link(nexts: &mut Vec<usize>, heads: &mut [usize; 64], place: usize, groups: Groups)
    requires { place < length nexts.old.items }
    ensures nexts { nexts.new.items ≡ linked groups place nexts.old.items heads.old }
    ensures heads { heads.new ≡ heads_with groups place heads.old }
    ensures small { (g : ℕ) → groups ≡ g ∷ [] → g < 64 }
{
    if let Some(group) = groups.alone() {
        let index = usize::from(group.number());
        nexts[place] = heads[index];
        heads[index] = place;
    }
}
