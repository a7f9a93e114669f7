//! Whether jobs may stand in one layer.
ghost use Rattle.std.specs.Prelude.{◌≡◌, ℕ, ◌||◌, true, List, [], ◌∷◌, IsTrue, ◌↔◌, MatchOption, Some, slice_set};
ghost use Rattle.groups.specs.GroupSet.{has};
ghost use Rattle.groups.specs.Stamp.{stamp_lt};
ghost use Rattle.groups.specs.declared.stamp.Stamp.{Stamp};
ghost use Rattle.layer_planner.specs.Layers.{StandTogether};
ghost use Rattle.layer_planner.specs.Seen.{MayJoin, HasJoined};

use super::job::Job;
use groups::{GroupId, Groups, Stamp};

/// What is seen of the jobs so far: the groups of those that have several, and the last stamp at each group that others
/// address alone.
#[derive(Drop)]
struct Seen {
    shared: Groups,
    lasts: [Option<Stamp>; 64],
}

/// Whether no group is in two units of these jobs, and the stamps of each unit rise.
pub fn stand_together(jobs: &[Job]) -> bool
    ensures { IsTrue result ↔ StandTogether jobs.now }
{
    if jobs.len() <= 1 {
        return true;
    }
    many_stand_together(jobs)
}

/// The same where there are several: a call, so that a job alone pays nothing for what is seen of many.
#[inline(never)]
fn many_stand_together(jobs: &[Job]) -> bool
    ensures { IsTrue result ↔ StandTogether jobs.now }
{
    let mut seen = Seen::nothing();
    for job in jobs {
        if !seen.join(job) {
            return false;
        }
    }
    true
}

impl Seen {
    /// No job is seen.
    fn nothing() -> Self
        ensures { (groups : List ℕ) (stamp : Stamp) → MayJoin result groups stamp }
    {
        Seen {
            shared: Groups::empty(),
            lasts: [None; 64],
        }
    }

    /// Whether the job may join those that were seen; if so, it does.
    fn join(&mut self, job: &Job) -> bool
        ensures may { IsTrue result ↔ MayJoin self.old job.now.groups job.now.stamp }
        ensures joined { result ≡ true → HasJoined self.old job.now.groups job.now.stamp self.new }
    {
        match job.groups.alone() {
            Some(group) => self.join_alone(group, &job.stamp),
            None => self.join_shared(job.groups),
        }
    }

    /// The same for a job that addresses this group alone.
    fn join_alone(&mut self, group: GroupId, stamp: &Stamp) -> bool
        ensures may { IsTrue result ↔ MayJoin self.old (group ∷ []) stamp.now }
        ensures shared { self.new.shared ≡ self.old.shared }
        ensures lasts { result ≡ true → self.new.lasts ≡ slice_set self.old.lasts group (Some stamp.now) }
    {
        let index = usize::from(group.number());
        if self.shared.contains(group) || !is_above(&self.lasts[index], stamp) {
            return false;
        }
        self.lasts[index] = Some(Stamp { ..*stamp });
        true
    }

    /// The same for a job that addresses several groups, or none.
    fn join_shared(&mut self, groups: Groups) -> bool
        requires { (g : ℕ) → groups ≡ g ∷ [] → ⊥ }
        ensures may { (stamp : Stamp) → IsTrue result ↔ MayJoin self.old groups stamp }
        ensures shared { result ≡ true → (g : ℕ) → has self.new.shared g ≡ (has self.old.shared g || has groups g) }
        ensures lasts { self.new.lasts ≡ self.old.lasts }
    {
        for group in groups.iter() {
            let index = usize::from(group.number());
            if self.shared.contains(group) || self.lasts[index].is_some() {
                return false;
            }
        }
        self.shared = with_others(self.shared, groups);
        true
    }
}

/// Whether the stamp is above the last one of a group, if there is one.
fn is_above(last: &Option<Stamp>, stamp: &Stamp) -> bool
    ensures { MatchOption last.now (result ≡ true) (λ last. result ≡ stamp_lt last stamp.now) }
{
    match last {
        Some(last) => last < stamp,
        None => true,
    }
}

/// The groups of both sets.
fn with_others(groups: Groups, others: Groups) -> Groups
    ensures { (g : ℕ) → has result g ≡ (has groups g || has others g) }
{
    let mut all = groups;
    for group in others.iter() {
        all = all.with(group);
    }
    all
}
