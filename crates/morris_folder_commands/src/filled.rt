//! How far a folder is filled.
ghost use Rattle.std.specs.Prelude.{◌≡◌, ◌+◌, ◌*◌, ◌-◌, ◌^◌, ◌<◌, ◌≤◌, [], None, false, length, vec_len, vec_capacity, IfErr, IfOk, OnOk};
ghost use Rattle.morris_jobs.specs.Faults.{CountsWrites, is_write};
ghost use Rattle.morris_folder_commands.specs.Into.{filed_text};

use crate::print_filed::Filed;
use morris_board::board::Geometry;
use morris_board::streams::Sink;
use morris_files::table_file::Written;
use morris_index::below::PAIR_COUNT;
use morris_index::pair::Pair;
use morris_jobs::fault::Fault;
use morris_jobs::print::print_after;
use std::alloc::{AllocError, Global};

/// How far a folder is filled: the files that were written, and the one that waits.
#[derive(Drop)]
pub(crate) struct Filled<B: Geometry> {
    // What is printed of each file that was written, in order.
    pub(crate) written: Vec<Written<B>>,
    // How many bytes that was.
    pub(crate) sent: u64,
    // The pair whose table is there and whose file isn't written.
    pub(crate) waiting: Option<Pair<B>>,
    ghost room: { vec_capacity written ≡ 28 },
    ghost few: { sent ≤ 2 ^ 10 * vec_len written },
}

impl<B: Geometry> Filled<B> {
    ghost use Rattle.morris_folder_commands.specs.Filling.{PrintsFile};

    /// No file is written, and none waits.
    pub(crate) fn new(alloc: Global) -> Result<Filled<B>, AllocError>
        ensures none { IfOk result (λ filled. filled.written.items ≡ []) }
        ensures sent { IfOk result (λ filled. filled.sent ≡ 0) }
        ensures waiting { IfOk result (λ filled. filled.waiting ≡ None) }
    {
        let written = Vec::with_capacity(alloc, PAIR_COUNT)?;
        Ok(Filled {
            written,
            sent: 0,
            waiting: None,
        })
    }

    /// Prints the line of a file that was written.
    pub(crate) fn print_line<O: Sink>(
        &mut self,
        file: Result<Written<B>, Fault>,
        output: &mut O,
    ) -> Result<(), Fault>
        requires room { vec_len self.old.written < 28 }
        requires output { O.failures output.old < 2 ^ 64 - 1 }
        requires short { IfOk file (λ w. length (filed_text w.pair w.entries w.bytes w.digest) ≤ 2 ^ 10) }
        requires unwritten { IfErr file (λ refused. is_write refused ≡ false) }
        ensures reported { PrintsFile file self.old.written.items self.new.written.items self.old.sent self.new.sent (O.contents output.old) (O.contents output.new) result }
        ensures counted { CountsWrites (O.failures output.old) (O.failures output.new) result }
        ensures waiting { self.new.waiting ≡ self.old.waiting }
        ensures count { OnOk result (vec_len self.new.written ≡ vec_len self.old.written + 1) }
    {
        let file = file?;
        self.sent = print_after(&Filed { file: &file }, self.sent, output)?;
        self.written.push_reserved(file);
        Ok(())
    }
}
