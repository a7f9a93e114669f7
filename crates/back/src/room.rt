//! The memory that the rows of a layer need, taken before the layer is run.

ghost use Rattle.std.specs.Prelude.{◌≡◌, ◌≤◌, [], length, IsOk, OnOk};
ghost use Rattle.back.specs.Rooms.{words_of, HasRoomFor};

use journal::Rows;
use layer_planner::Job;
use layer_results::DoneRow;
use packing::PackedRequest;
use std::alloc::{AllocError, Global};
use std::collections::VecDeque;

/// A second copy of the words of each request of a layer, since both its row and what is handed over have them; and room for
/// what is handed over.
///
/// It is used again for the next layer, but for what is handed over. So in most layers only the list of the rows takes memory.
#[derive(Drop)]
pub struct ResultsRoom {
    pub words: VecDeque<PackedRequest>,
    pub rows: Vec<DoneRow>,
}

impl ResultsRoom {
    /// Room for nothing. It takes no memory.
    pub fn new(alloc: Global) -> Self
        ensures { HasRoomFor [] result }
    {
        ResultsRoom {
            words: VecDeque::new(alloc),
            rows: Vec::new(alloc),
        }
    }

    /// Lets the copies of words go that weren't used, as of a layer that isn't run.
    pub fn clear(&mut self)
        ensures { HasRoomFor [] self.new }
    {
        self.words.clear();
        self.rows.clear();
    }

    /// Makes it the room for what comes of these requests, and takes room for their rows among the others. A layer without requests
    /// takes no memory. The only error is want of memory, which leaves the rows as they were.
    // Inlined, since each layer calls it once.
    #[inline(always)]
    pub fn reserve(&mut self, jobs: &[Job], rows: &mut Rows) -> Result<(), AllocError>
        ensures fits { OnOk result (HasRoomFor jobs.now self.new) }
        ensures room { OnOk result (length jobs.now ≤ rows.new.room) }
        ensures rows { rows.new.rows ≡ rows.old.rows }
        ensures none { jobs.now ≡ [] → IsOk result }
    {
        self.clear();
        if jobs.is_empty() {
            return Ok(());
        }
        rows.reserve(jobs.len())?;
        self.rows.reserve(jobs.len())?;
        copy_words(&mut self.words, jobs)
    }
}

/// Puts copies of the words of these requests, in their order, behind the others.
fn copy_words(words: &mut VecDeque<PackedRequest>, jobs: &[Job]) -> Result<(), AllocError>
    requires { words.old.items ≡ [] }
    ensures { OnOk result (words.new.items ≡ words_of jobs.now) }
{
    words.reserve(jobs.len())?;
    for job in jobs {
        words.push_back(job.asked.words().try_clone()?)?;
    }
    Ok(())
}
