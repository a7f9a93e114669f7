//! The names of connections and of their requests. Packets name a request by its id.

/// One connection, by the number that it was given.
#[derive(Clone, Copy, Debug, PartialEq, Eq, PartialOrd, Ord, Hash)]
pub struct ConnId(pub u64);

/// One request: the connection that submitted it, and which of that connection's requests it is.
#[derive(Clone, Copy, Debug, PartialEq, Eq, PartialOrd, Ord, Hash)]
pub struct RequestId {
    pub conn: ConnId,
    pub seq: u64,
}
