//! A table of shards, and the texts of traces of runs on it.

/// The text of a trace: in braces lines as they stand, and between them the places from which packets are delivered, one
/// after the other.
#[macro_export]
macro_rules! trace {
    ($({$($line:literal)+} $(deliver $($place:literal)+)?)+) => {
        concat!($($($line, "\n",)+ $($("deliver ", $place, "\n",)+)?)+)
    };
}

/// The slots 0 to 511 on shard 0, and the rest on shard 1: `a` (61), `b` and `y` lie on shard 0, and `c` (63), `d`, `x` and `z`
/// on shard 1.
pub const TWO_SHARDS: &str =
    "shards = 2\n[[range]]\nfrom = 0\nto = 511\nshard = 0\n[[range]]\nfrom = 512\nto = 1023\nshard = 1\n";

/// MSET a 1 c 2 and MSET a 3 c 4 cross: each comes to another group first.
pub const CROSSING: &str = trace!(
    {"shardkv-trace 1" "max 1000" "open" "open" "submit 1 4d534554 61 31 63 32"
     "submit 2 4d534554 61 33 63 34"}
    deliver 0 2 1 0 0 0 0 0
    {"take" "run" "settle" "take" "run" "settle" "collect 1" "collect 2" "end 20"}
);

/// MSET a 1 c 2 starves, and GET a finds nothing.
pub const STARVED: &str = trace!(
    {"shardkv-trace 1" "max 50" "open" "submit 1 4d534554 61 31 63 32"}
    deliver 0 0 0 0
    {"take" "run 1.1" "settle" "collect 1" "submit 1 474554 61"}
    deliver 0
    {"take" "run" "settle" "collect 1" "end 16"}
);
