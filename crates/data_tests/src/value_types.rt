//! That each call that may find no memory succeeds where there is some, on rows whose results are Redis'.

use hashed_texts::TextHasher;
use std::alloc::Global;
use std::test::Fail;
use test_support::{holds, same_bytes, same_count, same_text};
use texts::{End, Pairs, Text, Texts};
use values::{HashValue, Items, ListValue, SetValue, Value};

fn words(alloc: Global, text: &str) -> Result<Vec<Vec<u8>>, Fail> {
    let mut words = Vec::new(alloc);
    for word in text.split(' ') {
        words.push(word.as_bytes().to_vec(alloc)?)?;
    }
    Ok(words)
}

fn texts(alloc: Global, text: &str) -> Result<Texts, Fail> {
    Ok(Texts::from(words(alloc, text)?))
}

fn text(alloc: Global, text: &str) -> Result<Text, Fail> {
    Ok(Text::copy_of(alloc, text.as_bytes())?)
}

/// These pairs, each field before its value.
fn pairs(alloc: Global, text: &str) -> Result<Pairs, Fail> {
    let turns = words(alloc, text)?;
    same_count("what is left over", turns.len() % 2, 0)?;
    Ok(Pairs::from_turns(turns))
}

/// Adds the items, with a space between each two.
fn push_items(shown: &mut Vec<u8>, items: Items<'_>) -> Result<(), Fail> {
    for item in items {
        if !shown.is_empty() {
            shown.push(b' ')?;
        }
        shown.extend_from_slice(item)?;
    }
    Ok(())
}

/// The items, with a space between each two, are these.
fn are(alloc: Global, items: Items<'_>, want: &str) -> Result<(), Fail> {
    let mut shown = Vec::new(alloc);
    push_items(&mut shown, items)?;
    same_bytes("items", &shown, want.as_bytes())
}

fn list_is(alloc: Global, list: &ListValue, want: &str) -> Result<(), Fail> {
    are(alloc, list.range(0, list.len()), want)
}

/// What is left of a list whose item at this end is this one.
fn without_end(list: ListValue, end: End, want: &str) -> Result<ListValue, Fail> {
    let (item, left) = list.pop(end);
    same_bytes("item", item.as_slice(), want.as_bytes())?;
    Ok(left.ok_or("nothing left")?)
}

/// Pushes items at this end.
fn pushes(alloc: Global, list: &mut ListValue, end: End, items: &str) -> Result<(), Fail> {
    list.push_all(end, texts(alloc, items)?)?;
    Ok(())
}

/// Puts an item between others.
fn puts_at(alloc: Global, list: &mut ListValue, place: usize, item: &str) -> Result<(), Fail> {
    let item = text(alloc, item)?;
    if list.len() < place {
        return Err(Fail::from("too few items"));
    }
    list.insert(place, item)?;
    Ok(())
}

/// A list of eight items, of which one was put between others.
fn pushed(alloc: Global) -> Result<ListValue, Fail> {
    let first = texts(alloc, "a b c")?;
    let mut list = ListValue::from_pushes(End::Head, first).ok_or("no list")?;
    pushes(alloc, &mut list, End::Tail, "d e")?;
    pushes(alloc, &mut list, End::Head, "x y")?;
    puts_at(alloc, &mut list, 2, "p")?;
    Ok(list)
}

#[test]
fn lists_are_pushed_and_popped(rt: HostRuntime) -> Result<(), Fail> {
    let alloc = rt.alloc();
    let list = pushed(alloc)?;
    list_is(alloc, &list, "y x p c b a d e")?;
    let left = without_end(list, End::Tail, "e")?;
    let left = without_end(left, End::Head, "y")?;
    list_is(alloc, &left, "x p c b a d")
}

fn hash_of(alloc: Global, text: &str) -> Result<HashValue, Fail> {
    let made = HashValue::from_pairs(alloc, TextHasher::Fixed, pairs(alloc, text)?)?;
    Ok(made.ok_or("no hash")?)
}

/// What is left of a hash that loses so many fields.
fn without(
    alloc: Global,
    hash: HashValue,
    fields: &str,
    count: usize,
) -> Result<Option<HashValue>, Fail> {
    let (removed, left) = hash.remove_all(texts(alloc, fields)?);
    same_count(fields, removed, count)?;
    Ok(left)
}

/// A hash with this field was given this value; it had one, or none.
fn inserts(
    alloc: Global,
    hash: &mut HashValue,
    (field, value): (&str, &str),
    had_one: bool,
) -> Result<(), Fail> {
    let before = hash.insert(text(alloc, field)?, text(alloc, value)?)?;
    holds(field, before.is_some() == had_one)
}

/// What is left of a hash that loses so many fields, and not all of them.
fn left_of(alloc: Global, hash: HashValue, fields: &str, count: usize) -> Result<HashValue, Fail> {
    let left = without(alloc, hash, fields, count)?;
    Ok(left.ok_or("no hash")?)
}

/// Gives a hash these pairs, of which so many fields are new.
fn adds(alloc: Global, hash: &mut HashValue, row: &str, new: usize) -> Result<(), Fail> {
    let added = hash.insert_all(pairs(alloc, row)?)?;
    same_count(row, added, new)
}

/// A hash whose fields were given one after another, some again.
fn filled(alloc: Global) -> Result<HashValue, Fail> {
    let mut hash = hash_of(alloc, "a 1 b 2 a 3")?;
    adds(alloc, &mut hash, "b 4 c 5 d 6 c 7", 2)?;
    inserts(alloc, &mut hash, ("e", "8"), false)?;
    inserts(alloc, &mut hash, ("a", "9"), true)?;
    Ok(hash)
}

#[test]
fn hashes_keep_the_order_of_their_fields(rt: HostRuntime) -> Result<(), Fail> {
    let alloc = rt.alloc();
    let hash = filled(alloc)?;
    are(alloc, hash.fields_and_values(), "a 9 b 4 c 7 d 6 e 8")?;
    let left = left_of(alloc, hash, "b x e b", 2)?;
    are(alloc, left.fields(), "a c d")?;
    are(alloc, left.values(), "9 7 6")
}

/// What is left of twelve fields.
fn four_left(alloc: Global) -> Result<HashValue, Fail> {
    let twelve = "a 1 b 2 c 3 d 4 e 5 f 6 g 7 h 8 i 9 j 10 k 11 l 12";
    let hash = hash_of(alloc, twelve)?;
    left_of(alloc, hash, "l b x b d f h j k c y", 8)
}

#[test]
fn hashes_lose_many_fields_at_once(rt: HostRuntime) -> Result<(), Fail> {
    let left = four_left(rt.alloc())?;
    are(rt.alloc(), left.fields_and_values(), "a 1 e 5 g 7 i 9")?;
    same_bytes("i", left.get(b"i").unwrap_or(b""), b"9")?;
    let none = without(rt.alloc(), left, "i g e a i g e a q", 4)?;
    holds("nothing is left", none.is_none())
}

fn set_of(alloc: Global, members: &str) -> Result<SetValue, Fail> {
    let made = SetValue::from_members(alloc, TextHasher::Fixed, texts(alloc, members)?)?;
    Ok(made.ok_or("no set")?)
}

/// Gives a set these members, of which so many are new.
fn joins(alloc: Global, set: &mut SetValue, members: &str, new: usize) -> Result<(), Fail> {
    let added = set.insert_all(texts(alloc, members)?)?;
    same_count(members, added, new)
}

/// Gives a set this member, which is new, or is not.
fn joins_one(alloc: Global, set: &mut SetValue, member: &str, is_new: bool) -> Result<(), Fail> {
    let added = set.insert(text(alloc, member)?)?;
    holds(member, added == is_new)
}

/// A set with more members, some of them twice.
fn joined(alloc: Global) -> Result<SetValue, Fail> {
    let mut set = set_of(alloc, "m c m a")?;
    joins(alloc, &mut set, "z a b b m ab", 3)?;
    joins_one(alloc, &mut set, "B", true)?;
    joins_one(alloc, &mut set, "a", false)?;
    Ok(set)
}

/// A set without these members, of which it had so many.
fn parted(alloc: Global, set: SetValue, members: &str, count: usize) -> Result<SetValue, Fail> {
    let (removed, left) = set.remove_all(&texts(alloc, members)?);
    same_count(members, removed, count)?;
    Ok(left.ok_or("no set")?)
}

#[test]
fn sets_ascend(rt: HostRuntime) -> Result<(), Fail> {
    let mut set = joined(rt.alloc())?;
    are(rt.alloc(), set.members(rt.alloc()), "B a ab b c m z")?;
    set.order()?;
    are(rt.alloc(), set.members(rt.alloc()), "B a ab b c m z")?;
    are(rt.alloc(), set.in_any_order(), "B a ab b c m z")
}

#[test]
fn sets_lose_members(rt: HostRuntime) -> Result<(), Fail> {
    let left = parted(rt.alloc(), joined(rt.alloc())?, "z q a", 2)?;
    are(rt.alloc(), left.members(rt.alloc()), "B ab b c m")?;
    same_text("its type", Value::Set(left).type_name(), "set")
}
