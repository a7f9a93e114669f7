//! The rows of the table, and the macros that expand them in the functions of a family.
//!
//! A row stands once, here. A name is compared with those of its family in their order, so rows that are asked for most
//! stand first. `command_rows!` hands the rows of a family to a macro of the caller's, which writes an arm for each: the
//! crate of a family's bodies dispatches by them too.

/// Hands the rows of a family, `local`, `keys`, `strings`, `lists`, `hashes` or `sets`, to the macro named after it,
/// with the words after that in brackets.
///
/// A row has the command's name in lower case; how many words it takes, its name included; its key span, which is the
/// first key, the last one and the step between them by word, the name being word 0 and -1 the last word, or `none`, or
/// `whole` where it is for all keys there are; its variant with its fields, the keys first; the name of the function
/// that reads its words; and the name of its body.
#[macro_export]
macro_rules! command_rows {
    (local, $emit:ident, $($argument:tt)*) => {
        $emit! { [$($argument)*]
            ("ping", AtLeast(1), none, Ping { word }, read_ping, ping),
            ("echo", Exactly(2), none, Echo { word }, read_echo, echo),
        }
    };
    (keys, $emit:ident, $($argument:tt)*) => {
        $emit! { [$($argument)*]
            ("del", AtLeast(2), (1, -1, 1), Del { keys }, read_del, del),
            ("unlink", AtLeast(2), (1, -1, 1), Unlink { keys }, read_unlink, del),
            ("exists", AtLeast(2), (1, -1, 1), Exists { keys }, read_exists, exists),
            ("type", Exactly(2), (1, 1, 1), TypeOf { key }, read_type, type_of),
            ("rename", Exactly(3), (1, 2, 1), Rename { from, to }, read_rename, rename),
            ("renamenx", Exactly(3), (1, 2, 1), Renamenx { from, to }, read_renamenx, renamenx),
            ("dbsize", Exactly(1), whole, Dbsize {}, read_dbsize, dbsize),
            ("flushall", AtLeast(1), whole, Flushall {}, read_flushall, flushall),
        }
    };
    (strings, $emit:ident, $($argument:tt)*) => {
        $emit! { [$($argument)*]
            ("get", Exactly(2), (1, 1, 1), Get { key }, read_get, get),
            ("set", AtLeast(3), (1, 1, 1), Set { key, value, condition }, read_set, set),
            ("incr", Exactly(2), (1, 1, 1), Incr { key }, read_incr, incr),
            ("mget", AtLeast(2), (1, -1, 1), Mget { keys }, read_mget, mget),
            ("mset", AtLeast(3), (1, -1, 2), Mset { pairs }, read_mset, mset),
            ("setnx", Exactly(3), (1, 1, 1), Setnx { key, value }, read_setnx, setnx),
            ("getset", Exactly(3), (1, 1, 1), Getset { key, value }, read_getset, getset),
            ("getdel", Exactly(2), (1, 1, 1), Getdel { key }, read_getdel, getdel),
            ("strlen", Exactly(2), (1, 1, 1), Strlen { key }, read_strlen, strlen),
            ("getrange", Exactly(4), (1, 1, 1), Getrange { key, start, end }, read_getrange, getrange),
            ("decr", Exactly(2), (1, 1, 1), Decr { key }, read_decr, decr),
            ("incrby", Exactly(3), (1, 1, 1), Incrby { key, by }, read_incrby, incrby),
            ("decrby", Exactly(3), (1, 1, 1), Decrby { key, by }, read_decrby, decrby),
            ("append", Exactly(3), (1, 1, 1), Append { key, tail }, read_append, append),
            ("setrange", Exactly(4), (1, 1, 1), Setrange { key, offset, value }, read_setrange, setrange),
            ("msetnx", AtLeast(3), (1, -1, 2), Msetnx { pairs }, read_msetnx, msetnx),
        }
    };
    (lists, $emit:ident, $($argument:tt)*) => {
        $emit! { [$($argument)*]
            ("lpush", AtLeast(3), (1, 1, 1), Lpush { key, items }, read_lpush, lpush),
            ("rpush", AtLeast(3), (1, 1, 1), Rpush { key, items }, read_rpush, rpush),
            ("lpop", Exactly(2), (1, 1, 1), Lpop { key }, read_lpop, lpop),
            ("rpop", Exactly(2), (1, 1, 1), Rpop { key }, read_rpop, rpop),
            ("lrange", Exactly(4), (1, 1, 1), Lrange { key, start, end }, read_lrange, lrange),
            ("llen", Exactly(2), (1, 1, 1), Llen { key }, read_llen, llen),
            ("lpushx", AtLeast(3), (1, 1, 1), Lpushx { key, items }, read_lpushx, lpushx),
            ("rpushx", AtLeast(3), (1, 1, 1), Rpushx { key, items }, read_rpushx, rpushx),
            ("lindex", Exactly(3), (1, 1, 1), Lindex { key, place }, read_lindex, lindex),
            ("lset", Exactly(4), (1, 1, 1), Lset { key, place, item }, read_lset, lset),
            ("ltrim", Exactly(4), (1, 1, 1), Ltrim { key, start, end }, read_ltrim, ltrim),
            ("lrem", Exactly(4), (1, 1, 1), Lrem { key, count, item }, read_lrem, lrem),
            ("linsert", Exactly(5), (1, 1, 1), Linsert { key, side, pivot, item }, read_linsert, linsert),
            ("lmove", Exactly(5), (1, 2, 1), Lmove { from, to, taken, put }, read_lmove, lmove),
            ("rpoplpush", Exactly(3), (1, 2, 1), Rpoplpush { from, to }, read_rpoplpush, rpoplpush),
        }
    };
    (hashes, $emit:ident, $($argument:tt)*) => {
        $emit! { [$($argument)*]
            ("hset", AtLeast(4), (1, 1, 1), Hset { key, pairs }, read_hset, hset),
            ("hget", Exactly(3), (1, 1, 1), Hget { key, field }, read_hget, hget),
            ("hmget", AtLeast(3), (1, 1, 1), Hmget { key, fields }, read_hmget, hmget),
            ("hgetall", Exactly(2), (1, 1, 1), Hgetall { key }, read_hgetall, hgetall),
            ("hdel", AtLeast(3), (1, 1, 1), Hdel { key, fields }, read_hdel, hdel),
            ("hincrby", Exactly(4), (1, 1, 1), Hincrby { key, field, by }, read_hincrby, hincrby),
            ("hlen", Exactly(2), (1, 1, 1), Hlen { key }, read_hlen, hlen),
            ("hexists", Exactly(3), (1, 1, 1), Hexists { key, field }, read_hexists, hexists),
            ("hstrlen", Exactly(3), (1, 1, 1), Hstrlen { key, field }, read_hstrlen, hstrlen),
            ("hkeys", Exactly(2), (1, 1, 1), Hkeys { key }, read_hkeys, hkeys),
            ("hvals", Exactly(2), (1, 1, 1), Hvals { key }, read_hvals, hvals),
            ("hsetnx", Exactly(4), (1, 1, 1), Hsetnx { key, field, value }, read_hsetnx, hsetnx),
            ("hmset", AtLeast(4), (1, 1, 1), Hmset { key, pairs }, read_hmset, hmset),
        }
    };
    (sets, $emit:ident, $($argument:tt)*) => {
        $emit! { [$($argument)*]
            ("sadd", AtLeast(3), (1, 1, 1), Sadd { key, members }, read_sadd, sadd),
            ("srem", AtLeast(3), (1, 1, 1), Srem { key, members }, read_srem, srem),
            ("sismember", Exactly(3), (1, 1, 1), Sismember { key, member }, read_sismember, sismember),
            ("smismember", AtLeast(3), (1, 1, 1), Smismember { key, members }, read_smismember, smismember),
            ("scard", Exactly(2), (1, 1, 1), Scard { key }, read_scard, scard),
            ("smembers", Exactly(2), (1, 1, 1), Smembers { key }, read_smembers, smembers),
            ("smove", Exactly(4), (1, 2, 1), Smove { from, to, member }, read_smove, smove),
            ("sinter", AtLeast(2), (1, -1, 1), Sinter { keys }, read_sinter, sinter),
            ("sunion", AtLeast(2), (1, -1, 1), Sunion { keys }, read_sunion, sunion),
            ("sdiff", AtLeast(2), (1, -1, 1), Sdiff { keys }, read_sdiff, sdiff),
            ("sinterstore", AtLeast(3), (1, -1, 1), Sinterstore { target, sources }, read_sinterstore, sinterstore),
            ("sunionstore", AtLeast(3), (1, -1, 1), Sunionstore { target, sources }, read_sunionstore, sunionstore),
            ("sdiffstore", AtLeast(3), (1, -1, 1), Sdiffstore { target, sources }, read_sdiffstore, sdiffstore),
        }
    };
}

/// The heads of these rows, in their order.
macro_rules! head_rows {
    ([] $((
        $text:literal, $arity:ident($number:literal), $span:tt, $variant:ident { $($field:ident),* }, $read:ident, $body:ident
    ),)*) => {
        &[$(RowHead { name: $text, arity: Arity::$arity($number) }),*]
    };
}

/// Reads these words by the row at this place among these rows, 20 at most.
macro_rules! read_rows {
    ([$place:expr, $words:expr] $($rows:tt)*) => {
        read_rows!(@ [$place, $words] [0 1 2 3 4 5 6 7 8 9 10 11 12 13 14 15 16 17 18 19] [] $($rows)*)
    };
    (@ [$place:expr, $words:expr] [$next:literal $($later:literal)*] [$($arm:tt)*] (
        $text:literal, $arity:ident($number:literal), $span:tt, $variant:ident { $($field:ident),* }, $read:ident, $body:ident
    ), $($rows:tt)*) => {
        read_rows!(@ [$place, $words] [$($later)*] [$($arm)* ($next, $read)] $($rows)*)
    };
    (@ [$place:expr, $words:expr] [$($later:literal)*] [$(($number:literal, $read:ident))*]) => {
        match $place {
            $($number => $read($words),)*
            _ => unreachable!(),
        }
    };
}

/// What the row of this command tells of it.
macro_rules! told_rows {
    ([$family:ident, $command:expr] $((
        $text:literal, $arity:ident($number:literal), $span:tt, $variant:ident { $($field:ident),* }, $read:ident, $body:ident
    ),)*) => {
        match $command {
            $($family::$variant { $($field),* } => Told { name: $text, keys: keys_of_span!($span $(, $field)*) },)*
        }
    };
}

/// The keys that this key span takes of a command's fields, the keys first.
macro_rules! keys_of_span {
    (none $(, $field:ident)*) => { Keys::None };
    (whole $(, $field:ident)*) => { Keys::All };
    ((1, 1, 1), $key:ident $(, $field:ident)*) => { Keys::One($key) };
    ((1, 2, 1), $first:ident, $second:ident $(, $field:ident)*) => { Keys::Two($first, $second) };
    ((1, -1, 1), $keys:ident) => { Keys::Each($keys) };
    ((1, -1, 1), $first:ident, $rest:ident) => { Keys::OneAnd($first, $rest) };
    ((1, -1, 2), $pairs:ident) => { Keys::Firsts($pairs) };
}

pub(crate) use head_rows;
pub(crate) use keys_of_span;
pub(crate) use read_rows;
pub(crate) use told_rows;
