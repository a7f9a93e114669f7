//! Packets that come more than once, and which packets a group leaves out: those of a request that is past, which is one
//! that it has delivered, or an earlier one of its connection.

use crate::group::{A, ALONE, B, BOTH, C, ONE_GROUP, Set, Step, Told, packet_of, step_each};
use crate::watched::{Name, Watched};
use groups::GroupId;
use std::alloc::Global;
use std::test::Fail;
use test_support::{same_count, same_number};

/// A packet in words, and the packet.
type Late<'a> = (&'a str, Told);

/// The packet comes, of which the group sends and delivers nothing. Its clock and what it keeps are as they were, and it
/// looks at no request.
fn is_left_out(alloc: Global, group: &mut Watched, late: Late) -> Result<(), Fail> {
    let (name, told) = late;
    let (clock, kept) = (group.group.clock(), group.group.kept());
    let started = group.group.started();
    group.receive(name, alloc, packet_of(told))?;
    same_count(name, group.sent.len(), 0)?;
    same_count(name, group.delivered.len(), 0)?;
    group.shows(name, clock, kept)?;
    same_count(name, group.group.started(), started)?;
    same_number(name, group.group.looks(), 0)
}

/// These packets come, which are left out.
fn are_left_out(alloc: Global, group: &mut Watched, packets: &[Late]) -> Result<(), Fail> {
    for late in packets {
        is_left_out(alloc, group, *late)?;
    }
    Ok(())
}

/// The packets of the rows come, and then those that are left out. The group ends at this clock, and keeps so many requests.
fn follow(
    alloc: Global,
    group: &mut Watched,
    rows: &[Step],
    late: &[Late],
    end: (u64, usize),
) -> Result<(), Fail> {
    let (clock, kept) = end;
    step_each(alloc, group, rows)?;
    are_left_out(alloc, group, late)?;
    group.shows("the end", clock, kept)
}

/// All packets of `ONE_GROUP`.
const OF_ONE_GROUP: [Late; 5] = [
    ("Start b once more", Told::Start(0, B, 0, ALONE)),
    ("Start a once more", Told::Start(0, A, 0, BOTH)),
    ("a's proposal once more", Told::Proposal(0, A, 1, 5)),
    ("Start c once more", Told::Start(0, C, 7, ALONE)),
    ("a's proposal a third time", Told::Proposal(0, A, 1, 5)),
];

#[test]
fn packets_of_delivered_requests_are_left_out(rt: HostRuntime) -> Result<(), Fail> {
    let mut group = Watched::new(rt.alloc(), GroupId::new(0));
    follow(rt.alloc(), &mut group, &ONE_GROUP, &OF_ONE_GROUP, (8, 0))
}

const THREE: Set = (0, 3);

/// While the request isn't delivered, a packet of it that came already leads to nothing: one proposal counts once.
#[rattlefmt::skip]
const EACH_TWICE: [Step; 7] = [
    ("a's proposal", Told::Proposal(0, A, 1, 5), (&[], &[], 0, 1)),
    ("a's proposal again", Told::Proposal(0, A, 1, 5), (&[], &[], 0, 1)),
    ("Start a", Told::Start(0, A, 0, THREE), (&[Told::Proposal(1, A, 0, 1), Told::Proposal(2, A, 0, 1)], &[], 1, 1)),
    ("a's proposal a third time", Told::Proposal(0, A, 1, 5), (&[], &[], 1, 1)),
    ("Start a again", Told::Start(0, A, 0, THREE), (&[], &[], 1, 1)),
    ("a's other proposal", Told::Proposal(0, A, 2, 3), (&[], &[(A, 5, 1, THREE)], 5, 0)),
    ("Start b", Told::Start(0, B, 0, BOTH), (&[Told::Proposal(1, B, 0, 6)], &[], 6, 1)),
];

const OF_EACH_TWICE: [Late; 3] = [
    ("a's other proposal again", Told::Proposal(0, A, 2, 3)),
    ("a's proposal a fourth time", Told::Proposal(0, A, 1, 5)),
    ("Start a once more", Told::Start(0, A, 0, THREE)),
];

#[test]
fn packets_of_an_open_request_count_once(rt: HostRuntime) -> Result<(), Fail> {
    let mut group = Watched::new(rt.alloc(), GroupId::new(0));
    follow(rt.alloc(), &mut group, &EACH_TWICE, &OF_EACH_TWICE, (6, 1))
}

/// Requests of one connection, of these numbers.
const ZEROTH: Name = (4, 0);

const FIRST: Name = (4, 1);

const THIRD: Name = (4, 3);

const FOURTH: Name = (4, 4);

const FIFTH: Name = (4, 5);

const SIXTH: Name = (4, 6);

#[rattlefmt::skip]
const NUMBER_0: [Step; 1] = [("Start 0", Told::Start(0, ZEROTH, 0, ALONE), (&[], &[(ZEROTH, 1, 0, ALONE)], 1, 0))];

const OF_NUMBER_0: [Late; 1] = [("Start 0 again", Told::Start(0, ZEROTH, 0, ALONE))];

#[rattlefmt::skip]
const NUMBER_1: [Step; 1] = [("Start 1", Told::Start(0, FIRST, 0, ALONE), (&[], &[(FIRST, 2, 0, ALONE)], 2, 0))];

const OF_NUMBERS_0_AND_1: [Late; 3] = [
    ("Start 0 once more", Told::Start(0, ZEROTH, 0, ALONE)),
    ("Start 1 again", Told::Start(0, FIRST, 0, ALONE)),
    ("a proposal for 0", Told::Proposal(0, ZEROTH, 1, 3)),
];

/// A request has the number 0, and then the next one comes.
fn counts_from_0(alloc: Global, group: &mut Watched) -> Result<(), Fail> {
    follow(alloc, group, &NUMBER_0, &OF_NUMBER_0, (1, 0))?;
    follow(alloc, group, &NUMBER_1, &OF_NUMBERS_0_AND_1, (2, 0))
}

#[test]
fn the_request_of_number_0_is_delivered_once(rt: HostRuntime) -> Result<(), Fail> {
    let mut group = Watched::new(rt.alloc(), GroupId::new(0));
    counts_from_0(rt.alloc(), &mut group)
}

/// Request 5 is delivered at the stamp 1 of group 1, while 3 of the same connection waits at 2 of group 0.
#[rattlefmt::skip]
const FIFTH_BEFORE_THIRD: [Step; 3] = [
    ("Start 5", Told::Start(0, FIFTH, 0, BOTH), (&[Told::Proposal(1, FIFTH, 0, 1)], &[], 1, 1)),
    ("Start 3", Told::Start(0, THIRD, 0, BOTH), (&[Told::Proposal(1, THIRD, 0, 2)], &[], 2, 2)),
    ("5's proposal", Told::Proposal(0, FIFTH, 1, 1), (&[], &[(FIFTH, 1, 1, BOTH)], 2, 1)),
];

const UP_TO_FIFTH: [Late; 6] = [
    ("Start 3 again", Told::Start(0, THIRD, 0, BOTH)),
    ("3's proposal", Told::Proposal(0, THIRD, 1, 2)),
    ("Start 4", Told::Start(0, FOURTH, 0, BOTH)),
    ("4's proposal", Told::Proposal(0, FOURTH, 1, 3)),
    ("Start 5 again", Told::Start(0, FIFTH, 0, BOTH)),
    ("5's proposal again", Told::Proposal(0, FIFTH, 1, 1)),
];

/// Request 1 of another connection is heard, and 6 of this one.
#[rattlefmt::skip]
const HEARD: [Step; 2] = [
    ("Start a", Told::Start(0, A, 0, BOTH), (&[Told::Proposal(1, A, 0, 3)], &[], 3, 2)),
    ("Start 6", Told::Start(0, SIXTH, 0, BOTH), (&[Told::Proposal(1, SIXTH, 0, 4)], &[], 4, 3)),
];

/// A group alone may deliver a request before an earlier one of its connection, of which it hears no more then.
fn hears_no_more_of_earlier_ones(alloc: Global, group: &mut Watched) -> Result<(), Fail> {
    follow(alloc, group, &FIFTH_BEFORE_THIRD, &UP_TO_FIFTH, (2, 1))?;
    follow(alloc, group, &HEARD, &UP_TO_FIFTH, (4, 3))
}

#[test]
fn earlier_requests_of_a_connection_are_past(rt: HostRuntime) -> Result<(), Fail> {
    let mut group = Watched::new(rt.alloc(), GroupId::new(0));
    hears_no_more_of_earlier_ones(rt.alloc(), &mut group)
}
