//! Requests of one to three of four groups, which the groups deliver and layers take by chance. The layer is held to a
//! search of plain lists.
ghost use Rattle.std.specs.Prelude.{◌≡◌, ◌<◌, IsTrue};
ghost use Rattle.layer_tests.specs.Seen.{GoesWith, GoesWithAll};

use delivery::Queues;
use groups::{ConnId, GroupId, Groups, RequestId, Stamp};
use skeen_core::Delivered;
use std::alloc::{AllocError, Global};
use std::marker::Model;
use std::test::Fail;
use test_support::{Dice, holds, same_count};

/// How many groups there are.
const GROUPS: u8 = 4;

// ---- the old search, over plain lists

/// The list begins with the request of that id.
fn begins_with(list: &[Delivered], id: RequestId) -> bool {
    match list.first() {
        Some(head) => head.id == id,
        None => false,
    }
}

/// Each of the request's lists begins with it.
fn heads_all(lists: &[Vec<Delivered>], request: &Delivered) -> bool {
    for group in request.groups.iter() {
        let Some(list) = lists.get(usize::from(group.number())) else {
            return false;
        };
        if !begins_with(list.as_slice(), request.id) {
            return false;
        }
    }
    true
}

/// Some request of that id is among these.
fn has_id(requests: &[Delivered], id: RequestId) -> bool {
    for request in requests {
        if request.id == id {
            return true;
        }
    }
    false
}

/// Puts those that are found in the list behind: its head, if that heads each of its lists, and the requests that are
/// lined up.
fn find_in(
    lists: &[Vec<Delivered>],
    list: &[Delivered],
    found: &mut Vec<Delivered>,
) -> Result<(), AllocError> {
    for request in list {
        if request.groups.len() == 1 {
            found.push(*request)?;
        } else {
            if heads_all(lists, request) && !has_id(found.as_slice(), request.id) {
                found.push(*request)?;
            }
            break;
        }
    }
    Ok(())
}

/// The requests that are ready or lined up, as the lists come.
fn layer_in(alloc: Global, lists: &[Vec<Delivered>]) -> Result<Vec<Delivered>, AllocError> {
    let mut found = Vec::new(alloc);
    for list in lists {
        find_in(lists, list.as_slice(), &mut found)?;
    }
    Ok(found)
}

/// Takes the request out of the lists that it heads.
fn take_out(lists: &mut [Vec<Delivered>], request: &Delivered) {
    for group in request.groups.iter() {
        if let Some(list) = lists.get_mut(usize::from(group.number())) {
            take_first(list);
        }
    }
}

/// Takes the first request out, if there is one.
fn take_first(list: &mut Vec<Delivered>) {
    if !list.is_empty() {
        let _ = list.remove(0);
    }
}

// ---- the queues, fed as they ask

/// The group may deliver the request behind what was delivered there.
fn goes_with(seen: &(GroupId, Delivered), group: GroupId, request: &Delivered) -> bool
    ensures { IsTrue result → GoesWith seen.now group request.now }
{
    let below = seen.1.stamp < request.stamp;
    let above = request.stamp < seen.1.stamp;
    if seen.0.number() == group.number() && !below {
        return false;
    }
    if seen.1.id == request.id {
        !below && !above && seen.1.groups == request.groups
    } else {
        below || above
    }
}

/// The group may deliver the request behind all that was delivered.
fn may_come(seen: &[(GroupId, Delivered)], group: GroupId, request: &Delivered) -> bool
    ensures { IsTrue result → GoesWithAll seen.now group request.now }
{
    for one in seen {
        if !goes_with(one, group, request) {
            return false;
        }
    }
    true
}

/// Queues, and all that was ever delivered there.
#[derive(Drop)]
pub struct Fed {
    queues: Queues,
    seen: Vec<(GroupId, Delivered)>,
}

impl Model for Fed {
    ghost use Rattle.std.specs.Prelude.{◌≡◌, length};
    ghost use Rattle.delivery.specs.Queues.{QueuesView};
    ghost use Rattle.layer_tests.specs.Seen.{AreSeen};

    ghost Value = { QueuesView };

    ghost view = { λ f. f.queues };

    ghost invariant = { λ f. (length f.queues.queues ≡ 4) × AreSeen f.seen.items f.queues.queues };
}

impl Fed {
    /// Four queues without requests.
    pub fn new(alloc: Global) -> Result<Fed, AllocError> {
        let queues = Queues::new(alloc, GROUPS)?;
        let seen = Vec::new(alloc);
        Ok(Fed { queues, seen })
    }

    /// The group delivers the request, if it may.
    pub fn deliver(&mut self, group: GroupId, request: &Delivered) -> Result<bool, AllocError>
        requires { group < 4 }
    {
        if !request.groups.contains(group) || !may_come(self.seen.as_slice(), group, request) {
            return Ok(false);
        }
        self.seen.push((group, *request))?;
        self.queues.append(group, *request)?;
        Ok(true)
    }

    /// Takes the layer out, or only the first `count` of it. What was taken.
    pub fn pop_some(&mut self, alloc: Global, count: usize) -> Result<Vec<Delivered>, AllocError> {
        let mut layer = self.queues.ready(alloc)?;
        layer.truncate(count);
        self.queues.pop_all(layer.as_slice());
        Ok(layer)
    }
}

// ---- a run

/// One of the groups.
fn any_group(dice: &mut Dice) -> GroupId
    ensures { result < 4 }
{
    GroupId::new((dice.below(4) & 3) as u8)
}

/// One to three of the groups.
fn some_groups(dice: &mut Dice) -> Groups {
    let mut groups = Groups::empty().with(any_group(dice));
    for _ in 0..dice.below(3) {
        groups = groups.with(any_group(dice));
    }
    groups
}

/// Requests of one to three groups, ascending by their stamps.
fn requests(alloc: Global, dice: &mut Dice, count: u64) -> Result<Vec<Delivered>, AllocError> {
    let mut requests = Vec::new(alloc);
    for number in 0..count {
        requests.push(Delivered {
            id: RequestId {
                conn: ConnId(number % 3),
                seq: number,
            },
            stamp: Stamp {
                clock: number / 2,
                group: GroupId::new((number % 2) as u8),
            },
            groups: some_groups(dice),
        })?;
    }
    Ok(requests)
}

/// A list for each group, without requests.
fn empty_lists(alloc: Global) -> Result<Vec<Vec<Delivered>>, AllocError> {
    let mut lists = Vec::new(alloc);
    for _ in 0..GROUPS {
        lists.push(Vec::new(alloc))?;
    }
    Ok(lists)
}

/// The group delivers the first of the requests that it may. Whether there was one.
fn deliver_next(
    fed: &mut Fed,
    lists: &mut [Vec<Delivered>],
    requests: &[Delivered],
    group: GroupId,
) -> Result<bool, AllocError>
    requires { group < 4 }
{
    for request in requests {
        if fed.deliver(group, request)? {
            if let Some(list) = lists.get_mut(usize::from(group.number())) {
                list.push(*request)?;
            }
            return Ok(true);
        }
    }
    Ok(false)
}

/// Takes the requests out of the lists that they head.
fn take_each(lists: &mut [Vec<Delivered>], requests: &[Delivered]) {
    for request in requests {
        take_out(lists, request);
    }
}

/// Takes the layer out, or only the first `count` of it.
fn take_some(
    alloc: Global,
    fed: &mut Fed,
    lists: &mut [Vec<Delivered>],
    count: usize,
) -> Result<(), AllocError> {
    let layer = fed.pop_some(alloc, count)?;
    take_each(lists, layer.as_slice());
    Ok(())
}

/// Takes the layer out by chance, or only the first two of it or fewer.
fn take_by_chance(
    alloc: Global,
    dice: &mut Dice,
    fed: &mut Fed,
    lists: &mut [Vec<Delivered>],
) -> Result<(), AllocError> {
    let count = dice.below(4) as usize;
    if count < 3 {
        take_some(alloc, fed, lists, count)
    } else {
        take_some(alloc, fed, lists, usize::MAX)
    }
}

/// The stamps of these rise.
fn ascends(requests: &[Delivered]) -> bool {
    let mut last: Option<Stamp> = None;
    for request in requests {
        if !is_below(last, request.stamp) {
            return false;
        }
        last = Some(request.stamp);
    }
    true
}

/// The last stamp, if there is one, is below this one.
fn is_below(last: Option<Stamp>, stamp: Stamp) -> bool {
    match last {
        Some(last) => last < stamp,
        None => true,
    }
}

/// The layer ascends, and has what the search finds and nothing else.
fn is_found(layer: &[Delivered], found: &[Delivered]) -> Result<(), Fail> {
    same_count("the layer", layer.len(), found.len())?;
    for request in found {
        holds("one that is found is in the layer", layer.contains(request))?;
    }
    holds("the layer ascends", ascends(layer))
}

/// The queues tell of the layer as the search does.
fn is_searched(alloc: Global, fed: &Fed, lists: &[Vec<Delivered>]) -> Result<(), Fail> {
    let found = layer_in(alloc, lists)?;
    tells_of(alloc, fed, found.as_slice())
}

/// The queues tell of a layer of these.
fn tells_of(alloc: Global, fed: &Fed, found: &[Delivered]) -> Result<(), Fail> {
    let layer = fed.queues.ready(alloc)?;
    is_found(layer.as_slice(), found)?;
    holds(
        "whether one is ready",
        fed.queues.has_ready() != found.is_empty(),
    )
}

/// A step by chance: mostly a group delivers, else the layer is taken, or some of it.
fn step(
    alloc: Global,
    dice: &mut Dice,
    fed: &mut Fed,
    lists: &mut [Vec<Delivered>],
    requests: &[Delivered],
) -> Result<(), AllocError> {
    if dice.below(4) == 0 {
        take_by_chance(alloc, dice, fed, lists)
    } else {
        deliver_next(fed, lists, requests, any_group(dice))?;
        Ok(())
    }
}

/// 100 steps by chance.
fn steps(
    alloc: Global,
    dice: &mut Dice,
    fed: &mut Fed,
    lists: &mut [Vec<Delivered>],
    requests: &[Delivered],
) -> Result<(), Fail> {
    for _ in 0..100 {
        step(alloc, dice, fed, lists, requests)?;
        is_searched(alloc, fed, lists)?;
    }
    Ok(())
}

/// The group delivers all the requests that it may.
fn deliver_rest(
    fed: &mut Fed,
    lists: &mut [Vec<Delivered>],
    requests: &[Delivered],
    group: GroupId,
) -> Result<(), AllocError>
    requires { group < 4 }
{
    for _ in 0..requests.len() {
        deliver_next(fed, lists, requests, group)?;
    }
    Ok(())
}

/// Takes layer after layer out, `most` at most.
fn take_rest(
    alloc: Global,
    fed: &mut Fed,
    lists: &mut [Vec<Delivered>],
    most: usize,
) -> Result<(), Fail> {
    for _ in 0..most {
        is_searched(alloc, fed, lists)?;
        take_some(alloc, fed, lists, usize::MAX)?;
    }
    Ok(())
}

/// Nothing is left, neither in the queues nor in the lists.
fn nothing_left(fed: &Fed, lists: &[Vec<Delivered>]) -> Result<(), Fail> {
    for list in lists {
        holds("a list is empty at the end", list.is_empty())?;
    }
    holds("none is ready at the end", !fed.queues.has_ready())
}

/// Each group delivers all the requests that it may.
fn deliver_all(
    fed: &mut Fed,
    lists: &mut [Vec<Delivered>],
    requests: &[Delivered],
) -> Result<(), AllocError> {
    for number in 0..GROUPS {
        deliver_rest(fed, lists, requests, GroupId::new(number))?;
    }
    Ok(())
}

/// Steps by chance; then each group delivers the rest, and all is taken.
fn run_on(
    alloc: Global,
    dice: &mut Dice,
    fed: &mut Fed,
    lists: &mut [Vec<Delivered>],
    requests: &[Delivered],
) -> Result<(), Fail> {
    steps(alloc, dice, fed, lists, requests)?;
    deliver_all(fed, lists, requests)?;
    take_rest(alloc, fed, lists, requests.len())?;
    nothing_left(fed, lists)
}

/// The same with new queues.
fn run(alloc: Global, dice: &mut Dice) -> Result<(), Fail> {
    let requests = requests(alloc, dice, 24)?;
    let mut lists = empty_lists(alloc)?;
    let mut fed = Fed::new(alloc)?;
    run_on(
        alloc,
        dice,
        &mut fed,
        lists.as_mut_slice(),
        requests.as_slice(),
    )
}

#[test]
fn the_layer_is_what_a_search_finds(rt: HostRuntime) -> Result<(), Fail> {
    let mut dice = Dice::new(88_172_645_463_325_252);
    for _ in 0..20 {
        run(rt.alloc(), &mut dice)?;
    }
    Ok(())
}
