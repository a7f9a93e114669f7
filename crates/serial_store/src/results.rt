//! What is handed on of a layer.

ghost use Rattle.std.specs.Prelude.{◌≡◌, ◌+◌, ◌≤◌, ◌<◌, ◌++◌, ◌∷◌, [], length, vec_capacity};
ghost use Rattle.back.specs.Rows.{done_of, results_of};

use layer_results::{Done, DoneRow};
use resp::{Answered, Reply};
use shard_exec::Ended;

/// What came of a layer, in its order. There is room for it.
pub fn results(room: Vec<DoneRow>, ended: Vec<Ended>) -> Done
    requires empty { room.items ≡ [] }
    requires room { length ended.items ≤ vec_capacity room }
    ensures { result ≡ results_of ended.items }
{
    let mut rows = room;
    for request in ended {
        push_result(&mut rows, request);
    }
    Done::new(rows)
}

/// What came of a layer of one request. There is room for it.
pub fn result(room: Vec<DoneRow>, ended: Ended) -> Done
    requires empty { room.items ≡ [] }
    requires room { 1 ≤ vec_capacity room }
    ensures { result ≡ results_of (ended ∷ []) }
{
    let mut rows = room;
    push_result(&mut rows, ended);
    Done::new(rows)
}

/// Moves what came of a request behind the others. There is room for it.
fn push_result(rows: &mut Vec<DoneRow>, request: Ended)
    requires { length rows.old.items < vec_capacity rows.old }
    ensures row { rows.new.items ≡ rows.old.items ++ done_of request ∷ [] }
    ensures room { vec_capacity rows.old ≤ vec_capacity rows.new }
{
    let Ended {
        id,
        stamp,
        words,
        reply,
    } = request;
    let reply = match reply {
        Some(answered) => Some(reply_of(answered)),
        None => None,
    };
    rows.push_reserved(DoneRow {
        id,
        stamp,
        words,
        reply,
    });
}

/// The reply, without its text.
fn reply_of(answered: Answered) -> Reply
    ensures { result ≡ answered.reply }
{
    let Answered { reply, text: _text } = answered;
    reply
}
