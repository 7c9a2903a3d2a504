//! What is printed of an answer, and where requests for memory are counted.
use std::alloc::{AllocError, Global};
use std::fmt::{Debug, Display};

/// A request of so many bytes opens or closes the section in which requests are counted.
/// `tests/lib/refuse.c` knows it.
const MARK: usize = 7_777_777;

/// Opens or closes the section in which a request may be refused.
pub fn mark(alloc: Global) -> Option<()> {
    let marked = Vec::<u8>::with_capacity(alloc, MARK).ok()?;
    if marked.capacity() < MARK {
        return None;
    }
    Some(())
}

/// Prints what a call answered, or why it refused.
pub fn print_answer<T: Debug, E: Display>(
    rt: &impl Print,
    call: &str,
    when: &str,
    answer: &Result<T, E>,
) -> Option<()> {
    match answer {
        Ok(value) => println!(rt; "{call} {when}: {value:?}").ok(),
        Err(fault) => println!(rt; "{call} {when}: {fault}").ok(),
    }
}

/// The answer of a call that is refused for want of memory alone.
pub fn or_refused<T>(answer: Result<T, AllocError>) -> Result<T, &'static str> {
    match answer {
        Ok(value) => Ok(value),
        Err(AllocError) => Err("out of memory"),
    }
}
