//! Skeen's atomic multicast as a pure machine: what one group does with a packet, and the packets under way.
//!
//! The rule is Skeen's, as Guerraoui and Schiper tell it ("Genuine atomic multicast in asynchronous distributed
//! systems", Theoretical Computer Science 254, 2001), with one addition of this project's own: a request carries a
//! floor, above which each of its proposals stands. Packets come in and go out; threads, sockets and storage stand
//! outside. The system hands each packet to its group, and the queues take what a group delivers.
#![tactic(auto)]

mod agreement;
mod coming;
mod group;
mod heard;
mod laws;
mod links;
mod packet;
mod pending;
mod proposals;
mod reached;
mod tell;

pub use coming::GREATEST_CLOCK;
pub use group::Group;
pub use laws::laws_of_one_group;
pub use links::Links;
pub use packet::{Body, Delivered, Packet};
