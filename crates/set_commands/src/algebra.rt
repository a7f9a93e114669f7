//! SINTER, SUNION and SDIFF, and the commands that store what these answer.
//!
//! All sets are read before anything changes, and the result is a list of members that the sets lend. Each is copied
//! once: to the reply, or to a set, which is moved to the target.

ghost use Rattle.std.specs.Prelude.{◌≡◌, All, IsTrue, IfOk, MatchResult, length};
ghost use Rattle.std.specs.Option.{option_map};
ghost use Rattle.command_cases.specs.Case.{Does};
ghost use Rattle.command_cases.specs.Replies.{count};
ghost use Rattle.command_cases.specs.Shapes.{at_each, at_target};
ghost use Rattle.keyspace.specs.Map.{set};
ghost use Rattle.resp.specs.Content.{content};
ghost use Rattle.set_commands.specs.Combination.{found_members};
ghost use Rattle.set_commands.specs.Lent.{lent_texts};
ghost use Rattle.set_commands.specs.SetCommand.{bulk_texts, combined_answer, stored_step};
ghost use Rattle.set_commands.specs.declared.combine.Combination.TheVariants.{Intersection, Union, Difference};
ghost use Rattle.values.specs.declared.Value.TheVariants as kind;

use crate::combine::{Combination, combine, combine_as_set};
use crate::sets::{find_sets, order_walked};
use command_cases::{Starved, count_reply, wrong_type_reply};
use keyspace::Keyspace;
use resp::{BulkTexts, Reply, bulk_size};
use std::alloc::{AllocError, Global};
use texts::{Text, Texts};
use values::{SetValue, Value};

/// `SINTER key [key ..]`: the members that are in each of the sets, ascending; an error where a key holds a value of
/// another type. <https://redis.io/docs/latest/commands/sinter/>
pub(crate) fn sinter<K: Keyspace>(
    alloc: Global,
    keyspace: &mut K,
    keys: Texts,
) -> Result<Reply, Starved>
    requires { All (λ key. IsTrue (K.covered key)) keys }
    ensures done { Does (at_each keys (combined_answer Intersection))
        (K.contents keyspace.old) (K.contents keyspace.new) result }
{
    answer(alloc, keyspace, Combination::Intersection, &keys)
}

/// `SUNION key [key ..]`: the members of all sets, ascending; an error where a key holds a value of another type.
/// <https://redis.io/docs/latest/commands/sunion/>
pub(crate) fn sunion<K: Keyspace>(
    alloc: Global,
    keyspace: &mut K,
    keys: Texts,
) -> Result<Reply, Starved>
    requires { All (λ key. IsTrue (K.covered key)) keys }
    ensures done { Does (at_each keys (combined_answer Union))
        (K.contents keyspace.old) (K.contents keyspace.new) result }
{
    answer(alloc, keyspace, Combination::Union, &keys)
}

/// `SDIFF key [key ..]`: the members of the first set that are in none of the others, ascending; an error where a key
/// holds a value of another type. <https://redis.io/docs/latest/commands/sdiff/>
pub(crate) fn sdiff<K: Keyspace>(
    alloc: Global,
    keyspace: &mut K,
    keys: Texts,
) -> Result<Reply, Starved>
    requires { All (λ key. IsTrue (K.covered key)) keys }
    ensures done { Does (at_each keys (combined_answer Difference))
        (K.contents keyspace.old) (K.contents keyspace.new) result }
{
    answer(alloc, keyspace, Combination::Difference, &keys)
}

/// `SINTERSTORE target key [key ..]`: the set that SINTER answers of the keys is put at the target, in place of a value
/// of any type; the number of its members. An empty one removes the target; an error, and no change, where a key after
/// the target holds a value of another type. <https://redis.io/docs/latest/commands/sinterstore/>
pub(crate) fn sinterstore<K: Keyspace>(
    alloc: Global,
    keyspace: &mut K,
    target: Text,
    sources: Texts,
) -> Result<Reply, Starved>
    requires target { IsTrue (K.covered target) }
    requires sources { All (λ key. IsTrue (K.covered key)) sources }
    ensures done { Does (at_target target sources (stored_step Intersection))
        (K.contents keyspace.old) (K.contents keyspace.new) result }
{
    store(alloc, keyspace, Combination::Intersection, target, &sources)
}

/// `SUNIONSTORE target key [key ..]`: the set that SUNION answers of the keys is put at the target, in place of a value
/// of any type; the number of its members. An empty one removes the target; an error, and no change, where a key after
/// the target holds a value of another type. <https://redis.io/docs/latest/commands/sunionstore/>
pub(crate) fn sunionstore<K: Keyspace>(
    alloc: Global,
    keyspace: &mut K,
    target: Text,
    sources: Texts,
) -> Result<Reply, Starved>
    requires target { IsTrue (K.covered target) }
    requires sources { All (λ key. IsTrue (K.covered key)) sources }
    ensures done { Does (at_target target sources (stored_step Union))
        (K.contents keyspace.old) (K.contents keyspace.new) result }
{
    store(alloc, keyspace, Combination::Union, target, &sources)
}

/// `SDIFFSTORE target key [key ..]`: the set that SDIFF answers of the keys is put at the target, in place of a value
/// of any type; the number of its members. An empty one removes the target; an error, and no change, where a key after
/// the target holds a value of another type. <https://redis.io/docs/latest/commands/sdiffstore/>
pub(crate) fn sdiffstore<K: Keyspace>(
    alloc: Global,
    keyspace: &mut K,
    target: Text,
    sources: Texts,
) -> Result<Reply, Starved>
    requires target { IsTrue (K.covered target) }
    requires sources { All (λ key. IsTrue (K.covered key)) sources }
    ensures done { Does (at_target target sources (stored_step Difference))
        (K.contents keyspace.old) (K.contents keyspace.new) result }
{
    store(alloc, keyspace, Combination::Difference, target, &sources)
}

/// Answers a combination of the sets at these keys.
#[tactic(auto, using(crate::proofs::Found::found))]
fn answer<K: Keyspace>(
    alloc: Global,
    keyspace: &mut K,
    how: Combination,
    keys: &Texts,
) -> Result<Reply, Starved>
    requires { All (λ key. IsTrue (K.covered key)) keys.now }
    ensures done { Does (at_each keys.now (combined_answer how))
        (K.contents keyspace.old) (K.contents keyspace.new) result }
{
    order_walked(alloc, keyspace, how, keys);
    let Some(sets) = find_sets(alloc, keyspace, keys)? else {
        return Ok(wrong_type_reply());
    };
    let combined = combine(alloc, how, sets.as_slice())?;
    Ok(members_reply(alloc, combined.as_slice())?)
}

/// The members of a combination, copied to the reply.
#[tactic(auto, using(resp::proofs::Contents::content_of))]
fn members_reply(alloc: Global, combined: &[&[u8]]) -> Result<Reply, AllocError>
    ensures { IfOk result (λ reply. content reply ≡ bulk_texts (lent_texts combined.now)) }
{
    let mut texts = BulkTexts::with_room(alloc, texts_size(combined))?;
    for member in combined {
        texts.push(*member)?;
    }
    Ok(Reply::Bulks(texts))
}

/// The number of bytes of the members' texts, or the greatest number.
fn texts_size(members: &[&[u8]]) -> usize {
    let mut size: usize = 0;
    for member in members {
        size = size.saturating_add(bulk_size(*member));
    }
    size
}

/// Puts a combination of the sets at the sources at the target.
#[tactic(auto, using(keyspace::proofs::Changes::changes, crate::proofs::Found::found))]
fn store<K: Keyspace>(
    alloc: Global,
    keyspace: &mut K,
    how: Combination,
    target: Text,
    sources: &Texts,
) -> Result<Reply, Starved>
    requires target { IsTrue (K.covered target) }
    requires sources { All (λ key. IsTrue (K.covered key)) sources.now }
    ensures done { Does (at_target target sources.now (stored_step how))
        (K.contents keyspace.old) (K.contents keyspace.new) result }
{
    let combined = {
        let Some(sets) = find_sets(alloc, keyspace, sources)? else {
            return Ok(wrong_type_reply());
        };
        combine_as_set(alloc, keyspace.hasher(), how, sets.as_slice())?
    };
    put_set(keyspace, target, combined)
}

/// Puts a set at the target, in place of what is there, and says how many members it has; none removes the target.
#[tactic(auto, using(keyspace::proofs::Changes::changes))]
fn put_set<K: Keyspace>(
    keyspace: &mut K,
    target: Text,
    members: Option<SetValue>,
) -> Result<Reply, Starved>
    requires { IsTrue (K.covered target) }
    ensures done { MatchResult result
        (λ reply. (K.contents keyspace.new ≡ set (K.contents keyspace.old) target (option_map kind.Set members))
        × (content reply ≡ count (length (found_members members))))
        (λ _. K.contents keyspace.new ≡ K.contents keyspace.old) }
{
    let Some(members) = members else {
        keyspace.take(target.as_slice());
        return Ok(count_reply(0));
    };
    let count = members.len();
    let Ok(_) = keyspace.put(target.into_vec(), Value::Set(members)) else {
        return Err(Starved);
    };
    Ok(count_reply(count))
}
