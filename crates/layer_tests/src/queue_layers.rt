//! Layers of requests that address one group alone, beside those that address two.

use super::queue_runs::Fed;
use groups::{ConnId, GroupId, Groups, RequestId, Stamp};
use skeen_core::Delivered;
use std::alloc::Global;
use std::test::Fail;
use test_support::{holds, same_count};

/// The only request of a connection, delivered at the stamp (`conn`, 0).
fn request(conn: u64, groups: Groups) -> Delivered {
    Delivered {
        id: RequestId {
            conn: ConnId(conn),
            seq: 1,
        },
        stamp: Stamp {
            clock: conn,
            group: GroupId::new(0),
        },
        groups,
    }
}

/// The group delivers the request, as it may.
fn deliver(fed: &mut Fed, number: u8, request: &Delivered) -> Result<(), Fail> {
    let came = fed.deliver(GroupId::new(number & 3), request)?;
    holds("the group delivers it", came)
}

/// The layer has just these, in this order, and is taken.
fn takes(alloc: Global, fed: &mut Fed, want: &[Delivered]) -> Result<(), Fail> {
    let layer = fed.pop_some(alloc, usize::MAX)?;
    holds("the layer", layer.as_slice() == want)
}

/// The group 0 delivers the requests of 200 connections.
fn deliver_many(fed: &mut Fed, groups: Groups) -> Result<(), Fail> {
    for conn in 0..200 {
        deliver(fed, 0, &request(conn, groups))?;
    }
    Ok(())
}

/// They stand in the order of their stamps.
fn are_in_order(layer: &[Delivered]) -> Result<(), Fail> {
    for (place, request) in layer.iter().enumerate() {
        holds("in stamp order", request.stamp.clock == place as u64)?;
    }
    Ok(())
}

/// The layer has 200 requests, in the order of their stamps.
fn takes_many(alloc: Global, fed: &mut Fed) -> Result<(), Fail> {
    let layer = fed.pop_some(alloc, usize::MAX)?;
    same_count("the layer", layer.len(), 200)?;
    are_in_order(layer.as_slice())
}

/// 200 requests of one group are one layer.
fn are_one_layer(alloc: Global, fed: &mut Fed) -> Result<(), Fail> {
    deliver_many(fed, Groups::empty().with(GroupId::new(0)))?;
    takes_many(alloc, fed)?;
    takes(alloc, fed, &[])
}

#[test]
fn many_requests_of_one_group_are_one_layer(rt: HostRuntime) -> Result<(), Fail> {
    let mut fed = Fed::new(rt.alloc())?;
    are_one_layer(rt.alloc(), &mut fed)
}

/// A group, and the place of the request that it delivers.
type Delivery = (u8, usize);

/// Each delivers its request.
fn deliver_each(
    fed: &mut Fed,
    requests: &[Delivered],
    deliveries: &[Delivery],
) -> Result<(), Fail> {
    for (number, place) in deliveries {
        let request = requests.get(*place).ok_or("no such request")?;
        deliver(fed, *number, request)?;
    }
    Ok(())
}

/// The second and the fourth come to group 0, the first and the last to 1, and the third to 2 and 3.
const RUNS: [Delivery; 6] = [(0, 1), (0, 3), (1, 0), (1, 4), (2, 2), (3, 2)];

/// The runs of two groups and a request of two others are one layer.
fn takes_runs(alloc: Global, fed: &mut Fed, requests: &[Delivered]) -> Result<(), Fail> {
    deliver_each(fed, requests, &RUNS)?;
    takes(alloc, fed, requests)?;
    takes(alloc, fed, &[])
}

#[test]
fn runs_of_several_groups_are_one_ascending_layer(rt: HostRuntime) -> Result<(), Fail> {
    let zero = Groups::empty().with(GroupId::new(0));
    let one = Groups::empty().with(GroupId::new(1));
    let both = Groups::empty().with(GroupId::new(2)).with(GroupId::new(3));
    let requests = [
        request(1, one),
        request(2, zero),
        request(3, both),
        request(4, zero),
        request(5, one),
    ];
    let mut fed = Fed::new(rt.alloc())?;
    takes_runs(rt.alloc(), &mut fed, requests.as_slice())
}

/// The first and the third are of group 0 alone, and the second of 1 too, which delivers it later.
fn takes_one_by_one(alloc: Global, fed: &mut Fed, requests: &[Delivered; 3]) -> Result<(), Fail> {
    let [first, second, third] = requests;
    deliver_each(fed, requests.as_slice(), &[(0, 0), (0, 1), (0, 2)])?;
    takes(alloc, fed, &[*first])?;
    takes(alloc, fed, &[])?;
    deliver(fed, 1, second)?;
    takes(alloc, fed, &[*second])?;
    takes(alloc, fed, &[*third])
}

#[test]
fn none_is_lined_up_behind_or_past_one_of_two_groups(rt: HostRuntime) -> Result<(), Fail> {
    let alone = Groups::empty().with(GroupId::new(0));
    let requests = [
        request(1, alone),
        request(2, alone.with(GroupId::new(1))),
        request(3, alone),
    ];
    let mut fed = Fed::new(rt.alloc())?;
    takes_one_by_one(rt.alloc(), &mut fed, &requests)
}
