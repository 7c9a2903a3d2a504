//! What a graph with exits is, and what a search has to know of its exits.
ghost use Rattle.std.specs.Prelude.{◌≡◌, ℕ, ◌+◌, ◌<◌, ◌≤◌, ◌^◌, ◌==◌, ◌++◌, ◌∷◌, List, [], Option, length, slice_index, OnOk, OnErr, vec_len};
ghost use Rattle.std.specs.List.{All, sum_by};
ghost use Rattle.morris_wave.specs.Nets.{Net, IsNet, times};
ghost use Rattle.morris_wave.specs.Exits.{due_of};
ghost use Rattle.morris_wave.specs.Summaries.{least_with, greatest_with, least_of, greatest_of, add_code};

use std::alloc::{AllocError, Global};

/// What a search has to know of the exits of a node, which are its results outside of the graph.
#[derive(Clone, Copy, Debug, PartialEq, Eq)]
pub struct Exits {
    /// The least depth of a lost exit, in plies.
    pub least_lost: Option<u16>,
    /// The greatest depth of a won exit, in plies.
    pub greatest_won: Option<u16>,
    /// Whether some exit is a draw.
    pub drawn: bool,
}

impl Exits {
    ghost use Rattle.morris_wave.specs.Exits.{exits_of, exits_won, last_due_of};
    ghost use Rattle.morris_wave.specs.NodeRanges.{due_wave};
    ghost use Rattle.morris_wave.specs.Summaries.{add_code};

    /// The exits of a node without any.
    pub const NONE: Exits = Exits {
        least_lost: None,
        greatest_won: None,
        drawn: false,
    };

    /// The same with one more exit, of this code.
    ///
    /// A code is 0 for a draw, and otherwise one more than the depth in plies: an odd code is a
    /// loss, an even one above 0 a win.
    pub fn with(self, code: u16) -> Exits
        ensures value { result ≡ add_code self code }
        // What is known of a list of exits becomes what is known of the list with this one at its
        // end.
        ensures more { (codes : List ℕ) → self ≡ exits_of codes → result ≡ exits_of (codes ++ code ∷ []) }
    {
        one_more(self, code)
    }

    /// What is known of two lists of exits together.
    pub fn merge(self, other: Exits) -> Exits
        ensures { (before after : List ℕ) → self ≡ exits_of before → other ≡ exits_of after → result ≡ exits_of (before ++ after) }
    {
        Exits {
            least_lost: least_of_both(self.least_lost, other.least_lost),
            greatest_won: greatest_of_both(self.greatest_won, other.greatest_won),
            drawn: self.drawn || other.drawn,
        }
    }

    // Whether there is none, so that every exit is won before the first wave.
    pub(crate) fn is_none(self) -> bool
        ensures { result ≡ exits_won 0 self }
    {
        self.least_lost.is_none() && self.greatest_won.is_none() && !self.drawn
    }

    // The last wave at which an exit comes due, 0 if none does.
    pub(crate) fn last_due(self) -> u32
        ensures { result ≡ last_due_of self }
    {
        due(self.least_lost).max(due(self.greatest_won))
    }

    // The wave at which the exits come due: where one is lost the first such, otherwise the last
    // one that is won, or never beside a draw.
    pub(crate) fn due_wave(self) -> u32
        ensures { result ≡ due_wave self }
    {
        if self.least_lost.is_some() {
            due(self.least_lost)
        } else if self.drawn {
            0
        } else {
            due(self.greatest_won)
        }
    }
}

// The lesser of a depth and one that is known already, if there is one.
fn least_with(known: Option<u16>, depth: u16) -> u16
    ensures { result ≡ least_with known depth }
{
    match known {
        None => depth,
        Some(known) => known.min(depth),
    }
}

// The same of two of which each may be known.
fn least_of_both(known: Option<u16>, other: Option<u16>) -> Option<u16>
    ensures { result ≡ least_of known other }
{
    match other {
        None => known,
        Some(depth) => Some(least_with(known, depth)),
    }
}

// The greater of a depth and one that is known already, if there is one.
fn greatest_with(known: Option<u16>, depth: u16) -> u16
    ensures { result ≡ greatest_with known depth }
{
    match known {
        None => depth,
        Some(known) => known.max(depth),
    }
}

// The same of two of which each may be known.
fn greatest_of_both(known: Option<u16>, other: Option<u16>) -> Option<u16>
    ensures { result ≡ greatest_of known other }
{
    match other {
        None => known,
        Some(depth) => Some(greatest_with(known, depth)),
    }
}

// The exits with one more, of this code.
#[tactic(auto, unfolding(crate::specs::Summaries::add_code))]
fn one_more(exits: Exits, code: u16) -> Exits
    ensures { result ≡ add_code exits code }
{
    if code % 2 == 1 {
        Exits {
            least_lost: Some(least_with(exits.least_lost, code - 1)),
            ..exits
        }
    } else if code > 0 {
        Exits {
            greatest_won: Some(greatest_with(exits.greatest_won, code - 1)),
            ..exits
        }
    } else {
        Exits {
            drawn: true,
            ..exits
        }
    }
}

// An exit of this depth comes due a wave later.
fn due(depth: Option<u16>) -> u32
    ensures { result ≡ due_of depth }
{
    match depth {
        Some(depth) => u32::from(depth) + 1,
        None => 0,
    }
}

/// A family of graphs. A graph of the family is known by its number, the level.
///
/// The family says of each level how many nodes there are, and of each node its quiet results and
/// the codes of its exits. A code is 0 for a draw, otherwise one more than the depth: odd for a
/// loss, even for a win.
pub trait Levels: Send + Sync {
    // The graph of a level.
    ghost net: { ℕ → Net };

    // Each of them is within the limits: at most 2^40 nodes, quiet results that are nodes, at most
    // 65,535 at a node, and no code above 65,535.
    ghost lawful: { (level : ℕ) → IsNet (net level) };
}

/// A graph with exits of the family `Name`.
///
/// Its nodes are 0, 1, .. below its size, which is at most 2^40. A node `i` of a call is below the
/// size.
pub trait Graph {
    ghost use Rattle.morris_wave.specs.Exits.{exits_of};
    ghost use Rattle.morris_wave.specs.Solving.{exits_at};

    /// The family that the graph is of.
    type Name: Levels;

    ghost level: { Self → ℕ };

    /// The number of this graph within its family.
    fn level(&self) -> u64
        ensures { result ≡ level self.now };

    /// The number of nodes.
    fn size(&self) -> u64
        ensures { result ≡ (Self.Name.net (level self.now)).size };

    /// The number of quiet results of node `i`, which are nodes of this graph again: at most
    /// 65,535.
    fn quiet_count(&self, i: u64) -> u16
        requires { i < (Self.Name.net (level self.now)).size }
        ensures { result ≡ length ((Self.Name.net (level self.now)).quiet i) };

    /// A summary of the results of node `i` that lie outside of the graph.
    fn exits(&self, i: u64) -> Exits
        requires { i < (Self.Name.net (level self.now)).size }
        ensures { result ≡ exits_of ((Self.Name.net (level self.now)).exits i) };

    /// Reads the nodes from `first` on, as many as there is room for: their numbers of quiet
    /// results, and the summaries of their results that lie outside of the graph.
    fn read_nodes(&self, first: u64, counts: &mut [u16], exits: &mut [Exits])
        requires room { length exits.old ≡ length counts.old }
        requires inside { first + length counts.old ≤ (Self.Name.net (level self.now)).size }
        ensures counts { (k : ℕ) → k < length counts.old → slice_index counts.new k ≡ length ((Self.Name.net (level self.now)).quiet (first + k)) }
        ensures exits { (k : ℕ) → k < length exits.old → exits_at exits.new k ≡ exits_of ((Self.Name.net (level self.now)).exits (first + k)) }
    {
        for place in 0..counts.len() {
            counts[place] = self.quiet_count(first + place as u64);
            exits[place] = self.exits(first + place as u64);
        }
    }

    /// Lists the nodes that have node `i` as a quiet result, each as often as it leads there.
    ///
    /// The list has at most 65,535 entries. The vector is emptied first.
    ///
    /// # Errors
    ///
    /// `AllocError` where memory is refused; the vector is then empty.
    fn back(&self, i: u64, out: &mut Vec<u64>) -> Result<(), AllocError>
        requires { i < (Self.Name.net (level self.now)).size }
        ensures times { OnOk result ((j : ℕ) → j < (Self.Name.net (level self.now)).size
            → times j out.new.items ≡ times i ((Self.Name.net (level self.now)).quiet j)) }
        ensures nodes { OnOk result (All (λ j. j < (Self.Name.net (level self.now)).size) out.new.items) }
        ensures few { OnOk result (vec_len out.new ≤ 65535) }
        ensures err { OnErr result (out.new.items ≡ []) };

    /// Lists the nodes that have one of `nodes` as a quiet result, each as often as it leads to
    /// them.
    ///
    /// A graph that can add to a list writes its own body, without a second list. The vector is
    /// emptied first.
    ///
    /// # Errors
    ///
    /// `AllocError` where memory is refused; the vector is then empty.
    fn back_from(&self, alloc: Global, nodes: &[u64], out: &mut Vec<u64>) -> Result<(), AllocError>
        requires { All (λ i. i < (Self.Name.net (level self.now)).size) nodes.now }
        ensures times { OnOk result ((j : ℕ) → j < (Self.Name.net (level self.now)).size
            → times j out.new.items ≡ sum_by (λ i. times i ((Self.Name.net (level self.now)).quiet j)) nodes.now) }
        ensures nodes { OnOk result (All (λ j. j < (Self.Name.net (level self.now)).size) out.new.items) }
        ensures err { OnErr result (out.new.items ≡ []) }
    {
        out.clear();
        let mut before = Vec::new(alloc);
        for node in nodes {
            if self.back(*node, &mut before).is_err() || out.append(&mut before).is_err() {
                out.clear();
                return Err(AllocError);
            }
        }
        Ok(())
    }
}
