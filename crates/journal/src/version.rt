//! The versions of a trace's text. The first line says which one it is of, and so what its other lines may be and what they
//! say: one of version 1 has no `repeat`; in those before version 3 a `run` names no members of requests, and MULTI, EXEC
//! and DISCARD are names that no command has.

/// All versions from 1 to this one are read.
pub const GREATEST_VERSION: u64 = 3;

/// The version that is written.
pub const WRITTEN_VERSION: u64 = 3;
