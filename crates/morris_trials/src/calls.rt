//! The commands that run on the thread of the caller, from one input to one output, on 3-3 of the
//! board `grid`.
ghost use Rattle.std.specs.Prelude.{◌≡◌, IfSome};

use crate::tables::file_of_three;
use morris_board::streams::{FromRead, IntoWrite};
use morris_commands::probe::probe_in;
use morris_commands::stats::stats;
use morris_commands::verify_in::verify_in;
use morris_engine_tests::printing::{mark, print_answer};
use morris_jobs::fault::Fault;
use std::alloc::Global;

/// What a command answers, and what it prints.
type Printed = (Result<(), Fault>, Vec<u8>);

/// Prints what a command answered, which has printed this itself. A command that is refused memory
/// has printed nothing.
fn tell_printed(rt: &impl Print, call: &str, when: &str, (answer, printed): Printed) -> Option<()> {
    if answer.is_err() && !printed.is_empty() {
        return None;
    }
    let text = String::from_utf8(printed).ok()?;
    print_answer(rt, call, when, &answer.map(|_| text))
}

/// A sink that asks for no memory: it has room for all that a command prints.
fn room(alloc: Global) -> Option<IntoWrite<Vec<u8>>>
    ensures { IfSome result (λ sink. sink.failures ≡ 0) }
{
    Some(IntoWrite::new(Vec::with_capacity(alloc, 4_096).ok()?))
}

/// The counts of the values of 3-3.
fn counted(alloc: Global, mut sink: IntoWrite<Vec<u8>>) -> Printed
    requires { sink.failures ≡ 0 }
{
    let answer = stats(alloc, "grid", "3-3", &mut sink);
    (answer, sink.into_inner())
}

pub(crate) fn counts_values(rt: &impl Print, alloc: Global) -> Option<()> {
    let sink = room(alloc)?;
    mark(alloc)?;
    let first = counted(alloc, sink);
    mark(alloc)?;
    tell_printed(rt, "stats", "first", first)?;
    let again = counted(alloc, room(alloc)?);
    tell_printed(rt, "stats", "again", again)
}

/// A verification of a file.
fn verified(alloc: Global, file: &[u8], mut sink: IntoWrite<Vec<u8>>) -> Printed
    requires { sink.failures ≡ 0 }
{
    let answer = verify_in(alloc, "grid", &mut FromRead::new(file), &mut sink);
    (answer, sink.into_inner())
}

pub(crate) fn verifies(rt: &impl Print, alloc: Global) -> Option<()> {
    let file = file_of_three(alloc)?;
    let sink = room(alloc)?;
    mark(alloc)?;
    let first = verified(alloc, file.as_slice(), sink);
    mark(alloc)?;
    tell_printed(rt, "verify_in", "first", first)?;
    let again = verified(alloc, file.as_slice(), room(alloc)?);
    tell_printed(rt, "verify_in", "again", again)
}

/// What is said of a position over a file.
fn probed(alloc: Global, file: &[u8], mut sink: IntoWrite<Vec<u8>>) -> Printed
    requires { sink.failures ≡ 0 }
{
    let input = &mut FromRead::new(file);
    let answer = probe_in(alloc, "grid", "XXX.OO.O.", input, &mut sink);
    (answer, sink.into_inner())
}

pub(crate) fn probes_a_bundle(rt: &impl Print, alloc: Global) -> Option<()> {
    let file = file_of_three(alloc)?;
    let sink = room(alloc)?;
    mark(alloc)?;
    let first = probed(alloc, file.as_slice(), sink);
    mark(alloc)?;
    tell_printed(rt, "probe_in", "first", first)?;
    let again = probed(alloc, file.as_slice(), room(alloc)?);
    tell_printed(rt, "probe_in", "again", again)
}
