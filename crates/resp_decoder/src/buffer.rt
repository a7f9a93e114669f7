//! Giving up the bytes of a buffer that are done with. The decoder does so before it takes a piece; the rule is its
//! own.

ghost use Rattle.std.specs.Prelude.{◌≡◌, ◌≤◌, ◌*◌, ◌-◌, length, drop, vec_capacity};

/// The room that a buffer keeps for the next piece; more is given back where a quarter of it would do.
pub const KEPT_ROOM: usize = 1 << 20;

/// Gives up the bytes before `start` where they are at least as many as the others, so that each byte is moved for one
/// that goes.
pub fn give_up_front(buffer: &mut Vec<u8>, start: &mut usize)
    requires { start.old ≤ length buffer.old.items }
    ensures fits { start.new ≤ length buffer.new.items }
    ensures kept { drop start.new buffer.new.items ≡ drop start.old buffer.old.items }
    // The buffer is at most twice what it holds, and an empty one has little room.
    ensures bounded { length buffer.new.items ≤ 2 * (length buffer.old.items - start.old) }
    ensures shorter { length buffer.new.items ≤ length buffer.old.items }
    ensures room { vec_capacity buffer.old ≤ KEPT_ROOM → vec_capacity buffer.new ≡ vec_capacity buffer.old }
    ensures frees { start.old ≡ length buffer.old.items → vec_capacity buffer.new ≤ KEPT_ROOM }
{
    let len = buffer.len();
    let rest = len - *start;
    if rest <= *start {
        buffer.copy_within(*start..len, 0);
        buffer.truncate(rest);
        *start = 0;
        if buffer.capacity() > KEPT_ROOM && buffer.capacity() / 4 >= rest {
            buffer.shrink_to_fit();
        }
    }
}
