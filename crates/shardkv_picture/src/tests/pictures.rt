//! Parts of pictures, in the window that shows them.

use picture::{ShowFault, told};
use replay::Unwatched;
use std::alloc::Global;
use std::test::Fail;
use test_support::{CROSSING, Sink, TWO_SHARDS, holds, same_count, trace};

/// Nothing happens.
const EMPTY: &str = "shardkv-trace 1\nmax 1\nend 0\n";

/// PING and an unknown command of bytes that mean something to XML, or are no text, or are many.
const WORDS: &str = trace!(
    {"shardkv-trace 1" "max 9" "open"
     "submit 1 3c26223e 00ff7f5c 2061 - 303132333435363738394142434445" "collect 1"
     "submit 1 50494e47" "close 1" "end 5"}
);

/// A request of one group starves, and another is under way at the end.
const STARVED: &str = trace!(
    {"shardkv-trace 1" "max 50" "open" "submit 1 474554 61"}
    deliver 0
    {"take" "run 1.1" "settle" "collect 1" "submit 1 474554 63" "end 8"}
);

/// A list of SET a 1, LPUSH a x and INCR c is run, whose third member starves; another one isn't taken.
const LISTS: &str = trace!(
    {"shardkv-trace 3" "max 50" "open" "submit 1 4d554c5449" "collect 1" "submit 1 534554 61 31"
     "collect 1" "submit 1 4c50555348 61 78" "collect 1" "submit 1 494e4352 63" "collect 1"
     "submit 1 45584543"}
    deliver 0 0 0 0
    {"take" "run 1.5.3" "settle" "collect 1" "submit 1 4d554c5449" "collect 1"
     "submit 1 474554 61" "collect 1" "submit 1 45584543" "end 23"}
);

/// A trace, the first step that is drawn and the first that isn't, and a text that stands in the picture so many times.
type Part = (&'static str, usize, usize, &'static str, usize);

const ALL: usize = usize::MAX;

#[rattlefmt::skip]
const PARTS: [Part; 41] = [
    (EMPTY, 0, ALL, ">A run of 0 steps<", 1),
    (EMPTY, 0, ALL, " width=\"880\" height=\"504\" viewBox=\"0 0 880 504\"", 1),
    (EMPTY, 0, ALL, ": groups 2, connections 0, requests 0, executed 0, starved 0, packets 0, under way 0, layers 0. ", 1),
    (EMPTY, 0, ALL, ". Executed in this order: none.<", 1),
    (CROSSING, 0, ALL, ". Executed in this order: 2.1 (2,0), 1.1 (2,1).<", 1),
    // Each packet once, from its sending to its receipt.
    (CROSSING, 0, ALL, "<polyline class=\"packet ", 10),
    (CROSSING, 0, ALL, "\"172,158 252,218 252,236\"><title>Start of 1.1, floor 0, to group 0, sent at step 2, received at step 4<", 1),
    (CROSSING, 0, ALL, "92,354 292,336 452,254 452,236\"><title>proposal (1,1) for 2.1 to group 0, sent at step 5, received at step 9<", 1),
    // Deliveries with their final stamps, in the order of these.
    (CROSSING, 0, ALL, "<title>step 10: group 1 delivers 2.1 (2,0)</title>", 1),
    (CROSSING, 0, ALL, "\"532,269 538,275 532,281 526,275\"><title>step 11: group 0 delivers 1.1 (2,1)<", 1),
    (CROSSING, 0, ALL, "<polygon class=\"done ", 5),
    (CROSSING, 0, ALL, "<polyline class=\"back ", 3),
    (CROSSING, 0, ALL, "; reply OK<", 2),
    // Layers with their requests.
    (CROSSING, 0, ALL, "<title>layer 2, taken at step 15, requests: 1<", 3),
    (CROSSING, 0, ALL, "<title>request 1.1 at (2,1) <", 2),
    // A window: a packet that was under way before it comes from its left edge, and one that is under way behind it goes
    // to its right edge.
    (CROSSING, 4, 8, ">Steps 4 to 7 of 20<", 1),
    (CROSSING, 4, 8, " points=\"72,158 92,218 92,236\"", 1),
    (CROSSING, 4, 8, " points=\"92,236 92,254 256,354\"", 1),
    (CROSSING, 4, 8, "<polyline class=\"edge ", 5),
    (CROSSING, 4, 8, "<polygon class=\"done ", 1),
    (CROSSING, 4, 8, "<text class=\"mute\" x=\"12\" y=\"251\">clock 0</text>", 1),
    (CROSSING, 9, 12, "<text class=\"mute\" x=\"12\" y=\"251\">clock 2</text>", 1),
    (CROSSING, 12, 30, ">Steps 12 to 19 of 20<", 1),
    (CROSSING, 8, 8, ">No step of 20<", 1),
    (CROSSING, 30, 40, ">No step of 20<", 1),
    (CROSSING, 9, 2, ">No step of 20<", 1),
    // Words of any bytes.
    (WORDS, 0, ALL, ">request 1.1: &lt;&amp;&quot;&gt; \\x00\\xFF\\x7F\\x5C &quot; a&quot; &quot;&quot; 0123456789ABCDE; reply ", 1),
    (WORDS, 0, ALL, " 0123456789ABCDE; reply -ERR unknown command<", 1),
    (WORDS, 0, ALL, ">1.1 &lt;&amp;&quot;&gt; &#8230;</text>", 1),
    (WORDS, 0, ALL, ">1.2</text>", 1),
    (WORDS, 0, ALL, "<polyline class=\"tick\" ", 6),
    // What starved is told in another look.
    (STARVED, 0, ALL, "<rect class=\"job c0 bad\" ", 2),
    (STARVED, 0, ALL, "; reply -ERR out of memory<", 1),
    (STARVED, 0, ALL, ", sent at step 7, under way<", 2),
    // A list that was taken is told with the number of its members; a member that starves doesn't mark it.
    (LISTS, 0, ALL, ">request 1.5: exec, members: 3<", 1),
    (LISTS, 0, ALL, ">request 1.5: exec, members: 3; reply [OK -WRONGTYPE", 1),
    (LISTS, 0, ALL, "class=\"job c4 bad\"", 0),
    (LISTS, 0, ALL, "class=\"answer c4 bad\"", 0),
    (LISTS, 0, ALL, ": groups 2, connections 1, requests 8, executed 1, starved 0, packets 5, under way 1, layers 1. ", 1),
    (LISTS, 0, ALL, "; reply QUEUED<", 4),
    (LISTS, 0, ALL, ">request 1.8: EXEC<", 1),
];

/// The picture of a window of a trace.
fn drawn(alloc: Global, trace: &str, window: (usize, usize)) -> Result<Vec<u8>, ShowFault> {
    let mut sink = Sink::new(alloc, 4096);
    told(
        alloc,
        TWO_SHARDS.as_bytes(),
        trace.as_bytes(),
        window,
        &mut Unwatched,
        &mut sink,
    )?;
    Ok(sink.taken)
}

/// How many times a part stands in a text.
fn times(text: &[u8], part: &[u8]) -> usize {
    let mut count: usize = 0;
    for place in 0..text.len() {
        if text[place..].starts_with(part) {
            count = count.saturating_add(1);
        }
    }
    count
}

#[test]
fn each_part_stands_there(rt: HostRuntime) -> Result<(), Fail> {
    for (trace, from, to, part, count) in &PARTS {
        let picture = drawn(rt.alloc(), trace, (*from, *to))?;
        same_count(part, times(picture.as_slice(), part.as_bytes()), *count)?;
        holds("the end", picture.ends_with(b"</svg>\n"))?;
    }
    Ok(())
}
