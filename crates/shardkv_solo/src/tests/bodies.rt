//! That each command answers where there is memory for it, request after request on one store.
//!
//! A line is a request and, behind ` = `, its reply, both as in the rows of `test_support`.

use crate::tests::store::{Store, answers_row, empty_store};
use std::alloc::Global;
use std::test::Fail;

/// Has the store answer this line.
fn answers_line(alloc: Global, store: &mut Store, line: &str) -> Result<(), Fail> {
    let (request, reply) = line.split_once(" = ").ok_or("a line has no reply")?;
    answers_row(store, alloc, request, reply)
}

/// Has the store answer these lines in turn.
fn answers_lines(alloc: Global, store: &mut Store, lines: &str) -> Result<(), Fail> {
    for line in lines.split('\n') {
        answers_line(alloc, store, line)?;
    }
    Ok(())
}

/// Has an empty store answer these lines in turn.
fn answer_in_turn(alloc: Global, lines: &str) -> Result<(), Fail> {
    answers_lines(alloc, &mut empty_store(alloc), lines)
}

/// The commands that came first.
const FIRST: &str = "SET a 1 = +OK|
GET a = $1|1|
SET a 2 NX = $-1|
SETNX a 3 = :0|
SETNX b 3 = :1|
RENAME a b = +OK|
RENAME a b = -ERR no such key|
RENAME b b = +OK|
GET b = $1|1|
RENAME b a = +OK|
GET b = $-1|
DEL a b a = :1|
GET a = $-1|
PING = +PONG|
ECHO hi = $2|hi|";

#[test]
fn commands_answer_in_turn(rt: HostRuntime) -> Result<(), Fail> {
    answer_in_turn(rt.alloc(), FIRST)
}

/// Lists.
const LISTS: &str = "RPUSH a 1 2 1 3 1 = :5|
LREM a -2 1 = :2|
LMOVE a a LEFT RIGHT = $1|1|
LINSERT a AFTER 3 x = :4|
LRANGE a 0 -1 = *4|$1|2|$1|3|$1|x|$1|1|
LINSERT a BEFORE 9 y = :-1|
LTRIM a 5 9 = +OK|
LLEN a = :0|
RENAME a z = -ERR no such key|
LINSERT a BEFORE 9 y = :0|
SET b v = +OK|
LMOVE a b LEFT LEFT = $-1|
LPUSH c 1 = :1|
LMOVE c b LEFT LEFT = -WRONGTYPE Operation against a key holding the wrong kind of value|
LPOP b = -WRONGTYPE Operation against a key holding the wrong kind of value|
RPUSHX b 1 = -WRONGTYPE Operation against a key holding the wrong kind of value|
LPUSHX a 1 = :0|
LPUSHX c 2 3 = :3|
GET c = -WRONGTYPE Operation against a key holding the wrong kind of value|
LINDEX c 0 = $1|3|
LINDEX c -1 = $1|1|
LINDEX c -3 = $1|3|
LINDEX c -4 = $-1|
LINDEX c 3 = $-1|
LINDEX c -9223372036854775808 = $-1|
LINDEX c 9223372036854775808 = -ERR value is not an integer or out of range|
LSET c -2 x = +OK|
LSET c 3 x = -ERR index out of range|
LSET a 0 x = -ERR no such key|
LRANGE c -2 9 = *2|$1|x|$1|1|
LRANGE c 2 1 = *0|
RPOPLPUSH c d = $1|1|
RPOPLPUSH c d = $1|x|
LRANGE d 0 -1 = *2|$1|x|$1|1|
RPOP c = $1|3|
RPOP c = $-1|
RPUSHX c 1 = :0|
LMOVE d d UP RIGHT = -ERR syntax error|
LINSERT d behind x y = -ERR syntax error|
LINSERT d before 1 1 = :3|
LREM d 1 1 = :1|
LREM d -9223372036854775808 1 = :1|
LREM d 0 x = :1|
LPOP d = $-1|
SETNX d 1 = :1|
GET d = $1|1|";

#[test]
fn commands_on_lists_answer_in_turn(rt: HostRuntime) -> Result<(), Fail> {
    answer_in_turn(rt.alloc(), LISTS)
}

/// Keys and strings.
const STRINGS: &str = "DBSIZE = :0|
SET a 10 = +OK|
SET text hello = +OK|
STRLEN text = :5|
STRLEN none = :0|
GETRANGE text 1 -2 = $3|ell|
GETRANGE text -100 100 = $5|hello|
GETRANGE text 3 1 = $0||
GETRANGE none 0 -1 = $0||
GETSET text world = $5|hello|
GETSET other x = $-1|
GETDEL other = $1|x|
GETDEL other = $-1|
MGET text none text = *3|$5|world|$-1|$5|world|
EXISTS a none a = :2|
TYPE a = +string|
TYPE none = +none|
RENAMENX a text = :0|
RENAMENX a a = :0|
RENAMENX a b = :1|
UNLINK b a b = :1|
DBSIZE = :1|
FLUSHALL async = +OK|
DBSIZE = :0|";

#[test]
fn keys_and_strings_answer_in_turn(rt: HostRuntime) -> Result<(), Fail> {
    answer_in_turn(rt.alloc(), STRINGS)
}

/// Strings that are numbers.
const NUMBERS: &str = "SET a 9223372036854775807 = +OK|
INCR a = -ERR increment or decrement would overflow|
GET a = $19|9223372036854775807|
DECRBY a -9223372036854775808 = -ERR increment or decrement would overflow|
INCR b = :1|
INCRBY b +1 = -ERR value is not an integer or out of range|
INCRBY b 41 = :42|
DECRBY b 50 = :-8|
DECR b = :-9|
DECR b = :-10|
GET b = $3|-10|
DECR c = :-1|
SET d 01 = +OK|
INCR d = -ERR value is not an integer or out of range|
GET d = $2|01|
RPUSH e 1 = :1|
INCR e = -WRONGTYPE Operation against a key holding the wrong kind of value|
DECRBY e -9223372036854775808 = -ERR increment or decrement would overflow|";

#[test]
fn numbers_in_strings_answer_in_turn(rt: HostRuntime) -> Result<(), Fail> {
    answer_in_turn(rt.alloc(), NUMBERS)
}

/// Sets, one at a time.
const SETS: &str = "SADD a m b m = :2|
SADD a b x = :1|
SADD a x = :0|
SMEMBERS a = *3|$1|b|$1|m|$1|x|
SMEMBERS none = *0|
SCARD a = :3|
SCARD none = :0|
SISMEMBER a m = :1|
SISMEMBER a q = :0|
SISMEMBER none m = :0|
SMISMEMBER a m q m = *3|:1|:0|:1|
SMISMEMBER none m = *1|:0|
TYPE a = +set|
GET a = -WRONGTYPE Operation against a key holding the wrong kind of value|
LPUSH a m = -WRONGTYPE Operation against a key holding the wrong kind of value|
HGET a m = -WRONGTYPE Operation against a key holding the wrong kind of value|
SREM a m q m = :1|
SREM a b x = :2|
SREM a b = :0|
EXISTS a = :0|
SET a v = +OK|
SADD a m = -WRONGTYPE Operation against a key holding the wrong kind of value|
SREM a m = -WRONGTYPE Operation against a key holding the wrong kind of value|
SISMEMBER a m = -WRONGTYPE Operation against a key holding the wrong kind of value|
SMISMEMBER a m = -WRONGTYPE Operation against a key holding the wrong kind of value|
SCARD a = -WRONGTYPE Operation against a key holding the wrong kind of value|
SMEMBERS a = -WRONGTYPE Operation against a key holding the wrong kind of value|
SADD c m = :1|
RENAME a c = +OK|
TYPE c = +string|";

#[test]
fn commands_on_sets_answer_in_turn(rt: HostRuntime) -> Result<(), Fail> {
    answer_in_turn(rt.alloc(), SETS)
}

/// Strings that are written into.
const WRITES: &str = "SETRANGE b 3 x = :4|
GET b = $4|\0\0\0x|
SETRANGE b -1 x = -ERR offset is out of range|
SETRANGE b 1 yz = :4|
GET b = $4|\0yzx|
SETRANGE b 3 12 = :5|
SETRANGE b 9 '' = :5|
SETRANGE b 536870912 x = -ERR string exceeds maximum allowed size|
GET b = $5|\0yz12|
SETRANGE c 9 '' = :0|
SETRANGE c 536870912 x = -ERR string exceeds maximum allowed size|
EXISTS c = :0|
APPEND c ab = :2|
APPEND c '' = :2|
APPEND c cd = :4|
GET c = $4|abcd|
RPUSH e 1 = :1|
APPEND e 1 = -WRONGTYPE Operation against a key holding the wrong kind of value|
SETRANGE e 0 '' = -WRONGTYPE Operation against a key holding the wrong kind of value|
SETRANGE e -1 '' = -ERR offset is out of range|";

#[test]
fn writes_into_strings_answer_in_turn(rt: HostRuntime) -> Result<(), Fail> {
    answer_in_turn(rt.alloc(), WRITES)
}

/// Members that move from set to set.
const MOVES: &str = "SADD a m = :1|
SMOVE a a m = :1|
SMOVE a a n = :0|
SMOVE y a m = :0|
SMEMBERS a = *1|$1|m|
SMOVE a b n = :0|
EXISTS b = :0|
SMOVE a b m = :1|
EXISTS a = :0|
SMEMBERS b = *1|$1|m|
SADD c m x = :2|
SMOVE c b x = :1|
SMOVE c b m = :1|
SMEMBERS b = *2|$1|m|$1|x|
SET s v = +OK|
SMOVE y s m = :0|
SMOVE s b m = -WRONGTYPE Operation against a key holding the wrong kind of value|
SMOVE b s q = -WRONGTYPE Operation against a key holding the wrong kind of value|
SMOVE b s m = -WRONGTYPE Operation against a key holding the wrong kind of value|
SCARD b = :2|";

#[test]
fn members_move_between_sets(rt: HostRuntime) -> Result<(), Fail> {
    answer_in_turn(rt.alloc(), MOVES)
}

/// Several keys or fields at once.
const SEVERAL: &str = "MSET a 1 c 2 a 3 = +OK|
GET a = $1|3|
GET c = $1|2|
MSET a 1 c = -ERR wrong number of arguments for 'mset' command|
MSETNX d 1 c 4 = :0|
EXISTS d = :0|
MSETNX d 1 e 4 = :1|
RPUSH f 1 = :1|
MSET f 2 d 5 = +OK|
MGET f d = *2|$1|2|$1|5|
HINCRBY h n 5 = :5|
HINCRBY h n -7 = :-2|
HINCRBY h m 9223372036854775807 = :9223372036854775807|
HINCRBY h m 1 = -ERR increment or decrement would overflow|
HSET h t x = :1|
HINCRBY h t 1 = -ERR hash value is not an integer|
HVALS h = *3|$2|-2|$19|9223372036854775807|$1|x|";

#[test]
fn several_keys_and_fields_answer_in_turn(rt: HostRuntime) -> Result<(), Fail> {
    answer_in_turn(rt.alloc(), SEVERAL)
}

/// Sets that are combined.
const COMBINED: &str = "SADD a m n = :2|
SADD b n o = :2|
SINTER a b = *1|$1|n|
SINTER a = *2|$1|m|$1|n|
SINTER a none = *0|
SINTER none a = *0|
SUNION b none a = *3|$1|m|$1|n|$1|o|
SUNION none = *0|
SDIFF a b = *1|$1|m|
SDIFF b a = *1|$1|o|
SDIFF a none = *2|$1|m|$1|n|
SDIFF none a = *0|
SDIFF a a = *0|
SET s v = +OK|
SINTER none s = -WRONGTYPE Operation against a key holding the wrong kind of value|
SUNION s a = -WRONGTYPE Operation against a key holding the wrong kind of value|
SDIFF a s = -WRONGTYPE Operation against a key holding the wrong kind of value|
SDIFFSTORE s a s = -WRONGTYPE Operation against a key holding the wrong kind of value|
GET s = $1|v|
SUNIONSTORE s a b = :3|
SMEMBERS s = *3|$1|m|$1|n|$1|o|
SDIFFSTORE s s a = :1|
SMEMBERS s = *1|$1|o|
SINTERSTORE new a b = :1|
SMEMBERS new = *1|$1|n|
SREM a n = :1|
SET z old = +OK|
SINTERSTORE z a b = :0|
EXISTS z = :0|
SUNIONSTORE a none = :0|
EXISTS a = :0|";

#[test]
fn sets_are_combined(rt: HostRuntime) -> Result<(), Fail> {
    answer_in_turn(rt.alloc(), COMBINED)
}
