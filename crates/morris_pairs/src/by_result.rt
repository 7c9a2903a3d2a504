//! Verifies entries by classes in the order in which their results stand in the table.
//!
//! A quiet move leads to a position in which the player to move has what was the opponent's set,
//! and entries with the same own set stand together. So positions in which the opponent has one set
//! are verified together, as a group: each entry whose own set it is gives the members that are
//! images of its position with the other player to move. What is read of the table for the members'
//! results is then near what was read last, and what their captures lead to is cached. Their own
//! entries lie far apart: they are read in a pass of their own, in which none has to wait for
//! another.
ghost use Rattle.std.specs.Prelude.{◌≡◌, ℕ, ◌<◌, ◌≤◌, true, IfOk, OnOk};
ghost use Rattle.std.specs.List.{All};
ghost use Rattle.morris_index.specs.Moves.{InPair};
ghost use Rattle.morris_pairs.specs.Entries.{entry_count};
ghost use Rattle.morris_pairs.specs.OpponentGroups.{code_stated, codes_stated, EntryAgrees, GroupAgrees};
ghost use Rattle.morris_pairs.specs.CaptureCaches.{IsCaptureCache, codes_by_opponent};

use crate::agreeing::is_code_after;
use crate::capture_cache::CaptureCache;
use crate::graph::PairGraph;
use crate::layout::Layout;
use crate::numbering::Successors;
use crate::raw::Raw;
use crate::rows::closing_at;
use morris_board::board::Geometry;
use morris_index::by_opponent::{GroupMember, list_by_opponent};
use morris_index::class_pair::ClassPair;
use std::alloc::{AllocError, Global};
use std::marker::Model;

/// Whether the entry of a position, for which the table states `code`, is known to agree.
fn agree<B: Geometry>(
    graph: &PairGraph<B>,
    raw: &Raw<B>,
    member: &GroupMember<'_, B>,
    code: u16,
    cache: &mut CaptureCache,
) -> bool
    requires pair { graph.now ≡ raw.now.pair }
    requires layout { raw.now.layout ≡ Layout.Classes }
    requires of { member.now.pair ≡ raw.now.pair }
    requires code { code ≡ code_stated B.shape raw.now member.now }
    requires cache { IsCaptureCache (codes_by_opponent B.shape) cache.old }
    ensures agrees { result ≡ true → EntryAgrees B.shape raw.now member.now }
    ensures cache { IsCaptureCache (codes_by_opponent B.shape) cache.new }
{
    // The proof learns here that the numbers of stones are those of a pair.
    let _ = raw.pair();
    let after = member.from();
    let position = after.position();
    let closing = closing_at(&position);
    let captures = graph.exits_by_opponent(&position, closing, cache);
    is_code_after(
        raw,
        code,
        &Successors::Classes(after),
        &position,
        closing,
        captures,
    )
}

/// Whether the entries of all of some positions, for which the table states `codes`, are known to
/// agree.
fn all_agree<B: Geometry>(
    graph: &PairGraph<B>,
    raw: &Raw<B>,
    group: &[GroupMember<'_, B>],
    codes: &[u16],
    cache: &mut CaptureCache,
) -> bool
    requires pair { graph.now ≡ raw.now.pair }
    requires layout { raw.now.layout ≡ Layout.Classes }
    requires of { All (λ (q : InPair). q.pair ≡ raw.now.pair) group.now }
    requires codes { codes.now ≡ codes_stated B.shape raw.now group.now }
    requires cache { IsCaptureCache (codes_by_opponent B.shape) cache.old }
    ensures agree { result ≡ true → All (EntryAgrees B.shape raw.now) group.now }
    ensures cache { IsCaptureCache (codes_by_opponent B.shape) cache.new }
{
    for place in 0..group.len() {
        if !agree(graph, raw, &group[place], codes[place], cache) {
            return false;
        }
    }
    true
}

/// Lists the codes that the table states for some positions.
///
/// # Errors
/// [`AllocError`] where memory is refused.
fn list_codes<B: Geometry>(
    raw: &Raw<B>,
    group: &[GroupMember<'_, B>],
    out: &mut Vec<u16>,
) -> Result<(), AllocError>
    requires layout { raw.now.layout ≡ Layout.Classes }
    requires of { All (λ (q : InPair). q.pair ≡ raw.now.pair) group.now }
    ensures { OnOk result (out.new.items ≡ codes_stated B.shape raw.now group.now) }
{
    out.clear();
    for member in group {
        out.push(raw.code(member.entry()))?;
    }
    Ok(())
}

/// What a worker goes through the entries with.
#[derive(Drop)]
pub(crate) struct Lists<'a, B: Geometry> {
    /// The members that some entries give to their groups.
    group: Vec<GroupMember<'a, B>>,
    /// The codes that the table states for them.
    codes: Vec<u16>,
    /// The captures of the members.
    cache: CaptureCache,
}

impl<'a, B: Geometry> Model for Lists<'a, B> {
    ghost use Rattle.std.specs.Prelude.{List};
    ghost use Rattle.morris_index.specs.Moves.{InPair};
    ghost use Rattle.morris_pairs.specs.CaptureCaches.{IsCaptureCache, codes_by_opponent};

    ghost Value = { List InPair };

    ghost view = { λ lists. lists.group.items };

    ghost invariant = { λ lists. IsCaptureCache (codes_by_opponent B.shape) lists.cache };
}

impl<'a, B: Geometry> Lists<'a, B> {
    /// Empty lists and an empty cache.
    pub(crate) fn new(alloc: Global) -> Lists<'a, B> {
        Lists {
            group: Vec::new(alloc),
            codes: Vec::new(alloc),
            cache: CaptureCache::new(alloc),
        }
    }

    /// Whether the entries of all members that the entries from `first` up to, not including, `end`
    /// give to their groups are known to agree.
    ///
    /// # Errors
    /// [`AllocError`] where memory is refused.
    pub(crate) fn group_agrees(
        &mut self,
        classes: &'a ClassPair<B>,
        graph: &PairGraph<B>,
        raw: &Raw<B>,
        first: u64,
        end: u64,
    ) -> Result<bool, AllocError>
        requires pair { graph.now ≡ raw.now.pair }
        requires classes { classes.now ≡ raw.now.pair }
        requires layout { raw.now.layout ≡ Layout.Classes }
        requires inside { end ≤ entry_count B.shape B.POINTS raw.now.layout raw.now.pair }
        ensures { IfOk result (λ yes. yes ≡ true → (k : ℕ) → first ≤ k → k < end → GroupAgrees B.shape raw.now k) }
    {
        list_by_opponent(classes, first, end, &mut self.group)?;
        list_codes(raw, &self.group, &mut self.codes)?;
        Ok(all_agree(graph, raw, &self.group, &self.codes, &mut self.cache))
    }
}
