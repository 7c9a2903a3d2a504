//! The nodes that come due by their exits, in one list for each wave.
ghost use Rattle.std.specs.Prelude.{◌≡◌, ℕ, ◌+◌, ◌++◌, ◌∷◌, ◌<◌, ◌≤◌, ◌^◌, [], IfOk, OnOk, length, slice_index, slice_set, vec_len};
ghost use Rattle.std.specs.List.{All};
ghost use Rattle.morris_wave.specs.GapLists.{nodes_of};
ghost use Rattle.morris_wave.specs.Lists.{contents, list_at};
ghost use Rattle.morris_wave.specs.NodeRanges.{ListsDue};

use crate::gaps::{FAR, Gaps};
use std::alloc::{AllocError, Global};
use std::marker::Model;
use std::mem;

// The nodes that come due at wave 0, 1, .. up to the last such wave, in a list for each. A list is
// taken out as its wave begins.
#[derive(Drop)]
pub(crate) struct Due {
    alloc: Global,
    waves: Vec<Gaps>,
}

impl Model for Due {
    ghost use Rattle.std.specs.Prelude.{ℕ, List};
    ghost use Rattle.morris_wave.specs.GapLists.{nodes_of};
    ghost use Rattle.morris_wave.specs.Lists.{contents};

    ghost Value = { List (List ℕ) };

    ghost view = { λ d. contents nodes_of d.waves.items };
}

impl Due {
    // The nodes from `first` on by their waves; a node of wave 0 never comes due.
    pub(crate) fn of(alloc: Global, first: u64, waves: &[u16]) -> Result<Due, AllocError>
        requires { first + length waves.now ≤ 2 ^ 40 }
        ensures { IfOk result (λ d. ListsDue (λ k. slice_index waves.now k) 0 first (length waves.now) d) }
    {
        let counts = count_due(alloc, waves)?;
        let mut lists = empty_lists(alloc, first, &counts)?;
        for (place, wave) in waves.iter().enumerate() {
            if *wave > 0 {
                put_due(&mut lists, usize::from(*wave), first + place as u64)?;
            }
        }
        Ok(Due {
            alloc,
            waves: lists,
        })
    }

    // Takes out the nodes that come due at a wave. It takes no memory.
    pub(crate) fn take(&mut self, wave: u16) -> Gaps
        ensures nodes { nodes_of result ≡ list_at self.old wave }
        ensures gone { self.new ≡ slice_set self.old wave [] }
    {
        let place = usize::from(wave);
        let none = Gaps::none(self.alloc);
        if place < self.waves.len() {
            mem::replace(&mut self.waves[place], none)
        } else {
            none
        }
    }
}

// The last wave, 0 if there is none.
fn last_wave(waves: &[u16]) -> u16
    ensures { All (λ wave. wave ≤ result) waves.now }
{
    let mut last = 0;
    for wave in waves {
        last = last.max(*wave);
    }
    last
}

// How many gaps there are at most for the nodes of each wave, so that no list grows: one for each
// node, and one for as many nodes as a gap leaves out.
fn count_due(alloc: Global, waves: &[u16]) -> Result<Vec<usize>, AllocError>
    ensures { IfOk result (λ v. All (λ wave. wave < vec_len v) waves.now) }
{
    let far = waves.len() / FAR as usize;
    let mut counts = vec![in alloc; far; usize::from(last_wave(waves)) + 1]?;
    for wave in waves {
        if *wave > 0 {
            let count = &mut counts[usize::from(*wave)];
            *count = count.saturating_add(1);
        }
    }
    Ok(counts)
}

// Lists of no nodes, with room for so many gaps each.
fn empty_lists(alloc: Global, first: u64, counts: &[usize]) -> Result<Vec<Gaps>, AllocError>
    requires { first ≤ 2 ^ 40 }
    ensures len { IfOk result (λ v. vec_len v ≡ length counts.now) }
    ensures empty { IfOk result (λ v. (n : ℕ) → list_at (contents nodes_of v.items) n ≡ []) }
    ensures next { IfOk result (λ v. All (λ list. list.next ≤ first) v.items) }
{
    let mut lists = Vec::with_capacity(alloc, counts.len())?;
    for count in counts {
        lists.push(Gaps::with_room(alloc, first, *count)?)?;
    }
    Ok(lists)
}

// Puts a node, which comes after all that are there, into the list of its wave.
fn put_due(lists: &mut Vec<Gaps>, wave: usize, node: u64) -> Result<(), AllocError>
    requires wave { wave < vec_len lists.old }
    requires next { All (λ list. list.next ≤ node) lists.old.items }
    requires small { node < 2 ^ 40 }
    ensures len { vec_len lists.new ≡ vec_len lists.old }
    ensures next { OnOk result (All (λ list. list.next ≤ node + 1) lists.new.items) }
    ensures put { OnOk result (contents nodes_of lists.new.items
        ≡ slice_set (contents nodes_of lists.old.items) wave (list_at (contents nodes_of lists.old.items) wave ++ node ∷ [])) }
{
    let list = &mut lists[wave];
    list.put(node)?;
    Ok(())
}
