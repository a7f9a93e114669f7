//! What starved of a request.

ghost use Rattle.std.specs.Prelude.{◌≡◌, ◌+◌, ◌≤◌, ◌++◌, length, map, vec_len, vec_capacity};
ghost use Rattle.tasks.specs.Starved.{wants_in};
ghost use Rattle.groups.specs.declared.skip_id.SkipId.TheVariants.{Part};
ghost use Rattle.layer_results.specs.Results.{member_count, row_names};
ghost use Rattle.layer_results.specs.Wants.{wants_among};
ghost use Rattle.resp.specs.Content.{content};

use super::done::DoneRow;
use super::members::member_count;
use groups::{RequestId, SkipId};
use packing::PackedRequest;
use resp::Reply;
use tasks::is_want_reply;

/// How many names a row tells.
// Inlined, as `push_row_names` and `places`: most replies are no arrays.
#[inline(always)]
pub(super) fn row_count(row: &DoneRow) -> usize
    ensures { result ≡ length (row_names row.now) }
{
    match &row.reply {
        None => 1,
        Some(reply) => want_count(places(&row.words, reply)),
    }
}

/// Appends the names that a row tells, for which there is room.
#[inline(always)]
pub(super) fn push_row_names(row: &DoneRow, names: &mut Vec<SkipId>)
    requires { vec_len names.old + length (row_names row.now) ≤ vec_capacity names.old }
    ensures items { names.new.items ≡ names.old.items ++ row_names row.now }
    ensures len { vec_len names.new ≡ vec_len names.old + length (row_names row.now) }
    ensures capacity { vec_capacity names.old ≤ vec_capacity names.new }
{
    match &row.reply {
        None => names.push_reserved(SkipId::Whole(row.id)),
        Some(reply) => push_wants(row.id, places(&row.words, reply), names),
    }
}

/// The places of the members of a request of these words, where it was answered by an array; another reply has none, and
/// of bulk strings and nulls alone none says that there was no memory.
#[inline(always)]
#[tactic(auto, using(resp::proofs::Contents::content_of))]
fn places<'a>(words: &PackedRequest, reply: &'a Reply) -> &'a [Reply]
    ensures { wants_in (member_count words.now) (content reply.now) ≡ wants_among 1 (map content result.now) }
{
    match reply {
        Reply::Array(replies) => &replies[..member_count(words).min(replies.len())],
        Reply::Bulks(_texts) => &[],
        Reply::Simple(_) | Reply::Error(_) | Reply::Int(_) | Reply::Bulk(_) | Reply::Null => &[],
    }
}

/// How many of the replies say that there was no memory.
fn want_count(replies: &[Reply]) -> usize
    ensures { result ≡ length (wants_among 1 (map content replies.now)) }
{
    let mut count = 0;
    for reply in replies {
        if is_want_reply(reply) {
            count += 1;
        }
    }
    count
}

/// Appends a name for each of the replies that says so: that of the request's member of this place, counted from 1.
fn push_wants(id: RequestId, replies: &[Reply], names: &mut Vec<SkipId>)
    requires { vec_len names.old + length (wants_among 1 (map content replies.now)) ≤ vec_capacity names.old }
    ensures items { names.new.items ≡ names.old.items ++ map (Part id) (wants_among 1 (map content replies.now)) }
    ensures len { vec_len names.new ≡ vec_len names.old + length (wants_among 1 (map content replies.now)) }
    ensures capacity { vec_capacity names.old ≤ vec_capacity names.new }
{
    for (place, reply) in replies.iter().enumerate() {
        if is_want_reply(reply) {
            names.push_reserved(SkipId::Part(id, place as u64 + 1));
        }
    }
}
