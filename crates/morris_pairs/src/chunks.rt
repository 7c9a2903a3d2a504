//! Entries of a table, dealt out to workers in chunks to find out up to which all are as they
//! should be.
ghost use Rattle.std.specs.Prelude.{◌≡◌, ◌⊎◌, ℕ, ◌+◌, ◌*◌, ◌%◌, ◌<◌, ◌≤◌, false, true, length, slice_index_or, vec_len, IfOk, OnOk};
ghost use Rattle.std.specs.List.{All, Contains};
ghost use Rattle.std.specs.Option.{option_copied};
ghost use Rattle.morris_pairs.specs.Entries.{entry_count};
ghost use Rattle.morris_pairs.specs.Chunks.{AreGroupedIn, IsAsAsked, ChunkIsAsAsked};

use crate::agreeing::first_in;
use crate::by_result::Lists;
use crate::graph::PairGraph;
use crate::raw::Raw;
use morris_board::board::{Board, Geometry};
use morris_index::class_pair::ClassPair;
use std::alloc::{AllocError, Global};
use std::sync::atomic::{AtomicU64, Ordering};
use std::thread;
use std::thread::Threads;

/// How many entries a chunk has. The workers take the chunks one after the other, since an entry of
/// one half of a pair may take several times as long as one of the other.
pub(crate) const CHUNK_ENTRIES: u64 = 4096;

/// A table that is verified, and who verifies it.
pub(crate) struct Claim<'a, B: Geometry, R> {
    /// What starts the threads.
    pub(crate) rt: &'a R,
    /// From where memory is taken.
    pub(crate) alloc: Global,
    /// How many workers there are.
    pub(crate) workers: usize,
    /// The graph of the table's pair.
    pub(crate) graph: &'a PairGraph<'a, B>,
    /// The table.
    pub(crate) raw: &'a Raw<B>,
    ghost pair: { graph.now ≡ raw.now.pair },
    ghost range: { (1 ≤ workers) × (workers ≤ 64) },
}

impl<B: Geometry, R> Drop for Claim<'_, B, R> {
    fn drop(self) {
        let Claim {
            rt: _,
            alloc: _,
            workers: _,
            graph: _,
            raw: _,
        } = self;
    }
}

impl<'a, B: Geometry, R> Claim<'a, B, R> {
    /// Whether the entries from `first` up to, not including, `end` are known to be as asked. With
    /// `by_opponent`, the classes of the entries, it is asked whether the entries of all members
    /// that they give to their groups agree, and without it whether they agree themselves.
    ///
    /// # Errors
    /// [`AllocError`] where memory is refused.
    fn are_as_asked(
        &self,
        grouping: Option<&'a ClassPair<B>>,
        lists: &mut Lists<'a, B>,
        first: u64,
        end: u64,
    ) -> Result<bool, AllocError>
        requires grouping { AreGroupedIn self.now.raw.now (option_copied grouping) }
        requires inside { end ≤ entry_count B.shape B.POINTS self.now.raw.now.layout self.now.raw.now.pair }
        ensures { IfOk result (λ yes. yes ≡ true → (k : ℕ) → first ≤ k → k < end → IsAsAsked B.shape self.now.raw.now grouping.entry k) }
    {
        match grouping {
            Some(classes) => lists.group_agrees(classes, self.graph, self.raw, first, end),
            None => Ok(first_in(self.graph, self.raw, first, end).is_none()),
        }
    }

    /// Takes chunks below `end`, each the next one that no worker has taken, and adds those to
    /// `known` whose entries are as asked. It ends at the first chunk of which that isn't known.
    ///
    /// # Errors
    /// [`AllocError`] where memory is refused.
    fn add_known(
        &self,
        grouping: Option<&'a ClassPair<B>>,
        next: &AtomicU64,
        end: u64,
        lists: &mut Lists<'a, B>,
        known: &mut Vec<u64>,
    ) -> Result<(), AllocError>
        requires grouping { AreGroupedIn self.now.raw.now (option_copied grouping) }
        requires inside { end * 4096 < entry_count B.shape B.POINTS self.now.raw.now.layout self.now.raw.now.pair + 4096 }
        requires known { All (ChunkIsAsAsked B.shape B.POINTS self.now.raw.now grouping) known.old.items }
        ensures { OnOk result (All (ChunkIsAsAsked B.shape B.POINTS self.now.raw.now grouping.entry) known.new.items) }
    {
        let count = self.raw.len();
        for _ in 0..end {
            let chunk = next.fetch_add(1, Ordering::Relaxed);
            if chunk >= end {
                return Ok(());
            }
            let start = chunk * CHUNK_ENTRIES;
            let stop = start + CHUNK_ENTRIES.min(count - start);
            if !self.are_as_asked(grouping, lists, start, stop)? {
                return Ok(());
            }
            known.push(chunk)?;
        }
        Ok(())
    }

    /// The chunks that a worker takes whose entries are as asked (see [`Claim::add_known`]).
    ///
    /// # Errors
    /// [`AllocError`] where memory is refused.
    fn list_known(
        &self,
        grouping: Option<&'a ClassPair<B>>,
        next: &AtomicU64,
        end: u64,
    ) -> Result<Vec<u64>, AllocError>
        requires grouping { AreGroupedIn self.now.raw.now (option_copied grouping) }
        requires inside { end * 4096 < entry_count B.shape B.POINTS self.now.raw.now.layout self.now.raw.now.pair + 4096 }
        ensures { IfOk result (λ known. All (ChunkIsAsAsked B.shape B.POINTS self.now.raw.now grouping.entry) known.items) }
    {
        let mut lists = Lists::new(self.alloc);
        let mut known = Vec::new(self.alloc);
        self.add_known(grouping, next, end, &mut lists, &mut known)?;
        Ok(known)
    }
}

/// Sets the marks of these chunks; the first mark is that of the chunk `first`.
fn mark(known: &[u64], first: u64, marks: &mut [bool])
    ensures known { (i : ℕ) → slice_index_or marks.new i false ≡ true → (slice_index_or marks.old i false ≡ true) ⊎ Contains known.now (first + i) }
    ensures len { length marks.new ≡ length marks.old }
{
    for chunk in known {
        if *chunk >= first && *chunk - first < marks.len() as u64 {
            marks[(*chunk - first) as usize] = true;
        }
    }
}

/// The place of the first of these marks that isn't set, or how many there are.
fn first_unset(marks: &[bool]) -> usize
    ensures inside { result ≤ length marks.now }
    ensures before { (i : ℕ) → i < result → slice_index_or marks.now i false ≡ true }
    ensures unset { slice_index_or marks.now result false ≡ false }
{
    for place in 0..marks.len() {
        if !marks[place] {
            return place;
        }
    }
    marks.len()
}

impl<'a, B: Board, R: Threads + Sync> Claim<'a, B, R> {
    /// What each worker knows of the chunks from `first` up to, not including, `end`.
    ///
    /// # Errors
    /// [`AllocError`] where memory is refused. Where a thread is refused, the caller's own does its
    /// work.
    fn known_by_all(
        &self,
        grouping: Option<&'a ClassPair<B>>,
        first: u64,
        end: u64,
    ) -> Result<Vec<Result<Vec<u64>, AllocError>>, AllocError>
        requires grouping { AreGroupedIn self.now.raw.now (option_copied grouping) }
        requires inside { end * 4096 < entry_count B.shape B.POINTS self.now.raw.now.layout self.now.raw.now.pair + 4096 }
        ensures len { IfOk result (λ found. vec_len found ≡ self.now.workers) }
        ensures each { IfOk result (λ found. (w : ℕ) (d : _) → w < self.now.workers
            → IfOk (slice_index_or found.items w d) (λ known. All (ChunkIsAsAsked B.shape B.POINTS self.now.raw.now grouping.entry) known.items)) }
    {
        let next = AtomicU64::new(first);
        thread::map_indices(
            self.rt,
            self.alloc,
            self.workers,
            &|_worker| -> Result<Vec<u64>, AllocError>
                requires { AreGroupedIn self.now.raw.now (option_copied grouping)
                    × (end * 4096 < entry_count B.shape B.POINTS self.now.raw.now.layout self.now.raw.now.pair + 4096) }
                ensures { IfOk result (λ known. All (ChunkIsAsAsked B.shape B.POINTS self.entry.now.raw.now grouping.entry) known.items) }
            { self.list_known(grouping, &next, end) },
        )
    }

    /// The first chunk of those from `first` up to, not including, `end` whose entries aren't known
    /// to be as asked, or `end`.
    ///
    /// # Errors
    /// [`AllocError`] where memory is refused.
    fn first_unknown(
        &self,
        grouping: Option<&'a ClassPair<B>>,
        first: u64,
        end: u64,
    ) -> Result<u64, AllocError>
        requires grouping { AreGroupedIn self.now.raw.now (option_copied grouping) }
        requires order { first ≤ end }
        requires inside { end * 4096 < entry_count B.shape B.POINTS self.now.raw.now.layout self.now.raw.now.pair + 4096 }
        ensures from { IfOk result (λ chunk. first ≤ chunk) }
        ensures known { IfOk result (λ chunk. (k : ℕ) → first * 4096 ≤ k → k < chunk * 4096
            → k < entry_count B.shape B.POINTS self.now.raw.now.layout self.now.raw.now.pair → IsAsAsked B.shape self.now.raw.now grouping.entry k) }
    {
        let found = self.known_by_all(grouping, first, end)?;
        let mut marks = vec![in self.alloc; false; (end - first) as usize]?;
        for worker in 0..found.len() {
            if let Ok(known) = &found[worker] {
                mark(known, first, &mut marks);
            }
        }
        Ok(first + first_unset(&marks) as u64)
    }

    /// Up to which of the entries from `first`, a multiple of [`CHUNK_ENTRIES`], up to, not
    /// including, `end` all are known to be as asked: `end` where all are. Where memory is refused,
    /// nothing is known.
    pub(crate) fn known_until(
        &self,
        grouping: Option<&'a ClassPair<B>>,
        first: u64,
        end: u64,
    ) -> u64
        requires grouping { AreGroupedIn self.now.raw.now (option_copied grouping) }
        requires whole { first % 4096 ≡ 0 }
        requires order { first ≤ end }
        requires inside { end ≤ entry_count B.shape B.POINTS self.now.raw.now.layout self.now.raw.now.pair }
        ensures from { first ≤ result }
        ensures inside { result ≤ end }
        ensures known { (k : ℕ) → first ≤ k → k < result → IsAsAsked B.shape self.now.raw.now grouping.entry k }
    {
        let last = end.div_ceil(CHUNK_ENTRIES);
        match self.first_unknown(grouping, first / CHUNK_ENTRIES, last) {
            Ok(chunk) if chunk < last => chunk * CHUNK_ENTRIES,
            Ok(_) => end,
            Err(_) => first,
        }
    }
}
