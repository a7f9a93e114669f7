//! The end of standard input, by which a server can be ended.

use server::Course;
use std::io::{self, ErrorKind, Read};
use std::sync::{Arc, Wait};
use std::thread::{self, Threads};

/// How much is read at once.
const DROPPED: usize = 4096;

/// Has a thread read this input and drop what comes, and once it ends ask the course to end. The thread isn't joined: where the
/// server ends before, it still waits for input, and ends with the program.
pub(crate) fn end_with_input<R, I>(rt: R, mut input: I, course: &Arc<Course>) -> io::Result<()>
where
    R: Threads + Wait + Copy + Send + 'static,
    I: Read + Send + Drop + 'static,
{
    let course = Arc::try_clone(course)?;
    let reading = thread::spawn(&rt, move || {
        drop_all(&mut input);
        course.ask_end(&rt);
    });
    match reading {
        Ok(_) => Ok(()),
        Err(_) => Err(io::Error::from(ErrorKind::OutOfMemory)),
    }
}

/// Reads and drops what comes, until it ends or can't be read.
fn drop_all<I: Read>(input: &mut I) {
    let mut dropped = [0; DROPPED];
    for _ in 0..u64::MAX {
        match input.read(&mut dropped) {
            Ok(0) => return,
            Ok(_) => {}
            Err(fault) => {
                if fault.kind() != ErrorKind::Interrupted {
                    return;
                }
            }
        }
    }
}
