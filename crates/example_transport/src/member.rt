//! A group that takes part: what it hears, what it says, and when it is done.

use crate::GROUPS;
use crate::link::Link;
use groups::{ConnId, GroupId, Groups, RequestId};
use skeen_core::{Body, Delivered, Group, Packet};
use std::alloc::{AllocError, Global};
use std::io::{self, ErrorKind};
use std::net::{SocketAddr, UdpSocket};
use std::sync::atomic::{AtomicU64, Ordering};

/// How many requests there are, each of a connection of its own.
const REQUESTS: u64 = 40;

/// How often at most a group says all that it has to say.
const ROUNDS: u32 = 1000;

/// How many packets it hears at most in between.
const MOST_HEARD: u32 = 256;

/// A group, all the packets that it has to send, and the requests that it has delivered, in order.
#[derive(Drop)]
struct Member {
    group: Group,
    says: Vec<Packet>,
    delivered: Vec<Delivered>,
}

impl Member {
    /// A request begins: a Start goes to each of its groups. It is its connection's first and only one, so it has the number 1,
    /// and its stamp stands above 0.
    fn begin(&mut self, conn: u64) -> Result<(), AllocError> {
        let groups = addressed_by(conn);
        for to in groups.iter() {
            let id = RequestId {
                conn: ConnId(conn),
                seq: 1,
            };
            let body = Body::Start { floor: 0, groups };
            self.says.push(Packet { to, id, body })?;
        }
        Ok(())
    }

    /// Sends all that it has to say, the last first: so nothing keeps its order.
    fn say(&self, alloc: Global, link: &mut Link<'_>) -> io::Result<()> {
        for packet in self.says.iter().rev() {
            link.send(alloc, packet)?;
        }
        Ok(())
    }

    /// Hears packets until none comes. One that may not come, as none of these groups sends it, is passed over.
    fn hear(&mut self, alloc: Global, link: &Link<'_>) -> io::Result<()> {
        for _ in 0..MOST_HEARD {
            let Some(packet) = link.receive()? else {
                break;
            };
            if self.group.may_come(&packet) {
                let (sent, delivered) = self.group.receive(alloc, packet)?;
                self.says.extend_from_slice(sent.as_slice())?;
                self.delivered.extend_from_slice(delivered.as_slice())?;
            }
        }
        Ok(())
    }
}

/// The groups that the request of this connection addresses: two of the three, or all.
fn addressed_by(conn: u64) -> Groups {
    let mut groups = Groups::empty();
    for group in Groups::all(GROUPS).iter() {
        if u64::from(group.number()) != conn % 4 {
            groups = groups.with(group);
        }
    }
    groups
}

/// A group with all that it has to say at first: it begins every third request.
fn beginning(alloc: Global, id: GroupId) -> Result<Member, AllocError> {
    let mut member = Member {
        group: Group::new(alloc, id),
        says: Vec::new(alloc),
        delivered: Vec::new(alloc),
    };
    for conn in 0..REQUESTS {
        if conn % u64::from(GROUPS) == u64::from(id.number()) {
            member.begin(conn)?;
        }
    }
    Ok(member)
}

/// A group takes part until all have delivered the requests that address them, which `done` counts. Gives what it has delivered, in
/// order.
///
/// What it has to say may be lost, so it says it again and again. A group that has all of its own requests goes on, since others may
/// still lack what it said.
pub(crate) fn take_part(
    alloc: Global,
    id: GroupId,
    socket: &UdpSocket,
    addresses: &[SocketAddr],
    done: &AtomicU64,
) -> io::Result<Vec<Delivered>> {
    let all = (0..REQUESTS)
        .filter(|conn| addressed_by(*conn).contains(id))
        .count();
    let mut link = Link::new(socket, addresses, u64::from(id.number()))?;
    let mut member = beginning(alloc, id)?;
    let mut has_all = false;
    for _ in 0..ROUNDS {
        member.say(alloc, &mut link)?;
        member.hear(alloc, &link)?;
        if !has_all && member.delivered.len() == all {
            has_all = true;
            done.fetch_add(1, Ordering::SeqCst);
        }
        if done.load(Ordering::SeqCst) == u64::from(GROUPS) {
            return Ok(member.delivered);
        }
    }
    Err(ErrorKind::TimedOut.into())
}
