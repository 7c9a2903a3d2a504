//! How much a command has to do: how many entries there are, and about how much memory it takes.
ghost use Rattle.std.specs.Prelude.{◌≡◌, ◌+◌, ◌^◌, ◌<◌};
ghost use Rattle.morris_jobs.specs.Sizes.{entries_below, entries_of};

use crate::context::Parallelism;
use crate::estimate::{VERIFIED, weight_of};
use crate::memory::{BASE, CODE, bytes_of_making, bytes_of_table};
use morris_board::board::Geometry;
use morris_index::class_sizes::class_size;
use morris_index::pair::Pair;
use morris_pairs::layout::Layout;

/// How the tables of a pair and of those below it are made, one after the other.
#[derive(Clone, Copy, Debug, PartialEq, Eq)]
pub enum Plan {
    /// They are swept, on one thread.
    Swept,
    /// They are built in parallel; `all` are retained, or only those that a later pair needs.
    Built {
        parallelism: Parallelism,
        all: bool,
    },
    /// They are read from files.
    Read,
    /// They are built in parallel, and only those are retained that a later pair needs; the pair's
    /// own, with so many entries, was read.
    Verified {
        parallelism: Parallelism,
        entries: u64,
    },
}

impl Plan {
    /// Whether tables are dropped once no later pair needs them.
    fn lets_go(self) -> bool {
        match self {
            Plan::Built {
                parallelism: _,
                all,
            } => !all,
            Plan::Verified { .. } => true,
            Plan::Swept | Plan::Read => false,
        }
    }
}

/// How many bytes those tables take, of the ones made so far, that a pair may need: the tables of
/// pairs with as many stones, and with one fewer.
#[derive(Clone, Copy, Debug)]
struct Near {
    stones: u8,
    here: u64,
    before: u64,
}

impl Near {
    const NONE: Near = Near {
        stones: 0,
        here: 0,
        before: 0,
    };

    /// Before the table of a pair is made.
    fn before<B: Geometry>(self, pair: Pair<B>) -> Near {
        let stones = pair.greater() + pair.lesser();
        if stones == self.stones {
            return self;
        }
        Near {
            stones,
            here: 0,
            before: self.here,
        }
    }

    /// With a table of so many bytes.
    fn with(self, bytes: u64) -> Near {
        Near {
            here: self.here.saturating_add(bytes),
            ..self
        }
    }

    fn bytes(self) -> u64 {
        self.here.saturating_add(self.before)
    }
}

/// So many entries, and about how many bytes of memory it takes to find them, table by table.
#[derive(Clone, Copy, Debug, PartialEq, Eq)]
pub struct Size {
    /// The entries of all tables.
    pub entries: u64,
    /// What they weigh: the time that it takes to find or to verify each.
    pub(crate) work: u64,
    /// About the most bytes that are in use at once.
    pub bytes: u64,
}

impl Size {
    /// The size of no table.
    const NONE: Size = Size {
        entries: 0,
        work: 0,
        bytes: BASE,
    };

    /// With one more table of so many entries, of which each weighs so much, where so many bytes
    /// are in use at once while it is made.
    fn with(self, entries: u64, weight: u64, at_once: u64) -> Size
        ensures { self.entries + entries < 2 ^ 64 → result.entries ≡ self.entries + entries }
    {
        Size {
            entries: self.entries.saturating_add(entries),
            work: self.work.saturating_add(entries.saturating_mul(weight)),
            bytes: self.bytes.max(at_once.saturating_add(BASE)),
        }
    }

    /// The size of the tables of all pairs below a pair in a layout, its own among them. It takes
    /// no memory.
    pub fn of<B: Geometry>(pair: Pair<B>, layout: Layout, plan: Plan) -> Size
        // As far as 64 bits hold the number, of which no board needs more than 45.
        ensures { entries_below B.shape B.POINTS layout pair plan < 2 ^ 64
            → result.entries ≡ entries_below B.shape B.POINTS layout pair plan }
    {
        let mut size = Size::NONE;
        let mut near = Near::NONE;
        let mut all = 0u64;
        for below in pair.below() {
            let entries = count_entries(below, pair, layout, plan);
            let table = bytes_of_table(below, layout, entries);
            near = near.before(below).with(table);
            all = all.saturating_add(table);
            let retained = if plan.lets_go() { near.bytes() } else { all };
            let making = bytes_beside(below, layout, entries, plan);
            let weight = weight_in(below, pair, plan);
            size = size.with(entries, weight, retained.saturating_add(making));
        }
        size
    }
}

/// How much there is to do where the tables of a folder's files are verified in the order of pairs.
/// A table is dropped once no later pair needs it, after the next one was read.
#[derive(Clone, Copy, Debug)]
pub struct FolderSize {
    /// That of the files so far.
    pub size: Size,
    near: Near,
}

impl FolderSize {
    /// The size of no file.
    pub const NONE: FolderSize = FolderSize {
        size: Size::NONE,
        near: Near::NONE,
    };

    /// With the file of a pair after those so far, whose table has so many entries.
    pub fn with<B: Geometry>(self, pair: Pair<B>, entries: u64) -> FolderSize
        // As far as 64 bits hold the number.
        ensures { self.size.entries + entries < 2 ^ 64 → result.size.entries ≡ self.size.entries + entries }
    {
        let table = CODE.saturating_mul(entries);
        let at_once = self.near.bytes().saturating_add(table);
        FolderSize {
            size: self.size.with(entries, VERIFIED, at_once),
            near: self.near.before(pair).with(table),
        }
    }
}

/// How many entries the table of a pair has in a layout, where it is one of those below `last`.
fn count_entries<B: Geometry>(pair: Pair<B>, last: Pair<B>, layout: Layout, plan: Plan) -> u64
    ensures { result ≡ entries_of B.shape B.POINTS layout last plan pair }
{
    if let Plan::Verified {
        parallelism: _,
        entries,
    } = plan
    {
        if pair == last {
            return entries;
        }
    }
    match layout {
        Layout::Full => pair.size(),
        Layout::Classes => class_size(pair),
    }
}

/// What an entry of the table of a pair weighs, where it is one of those below `last`.
fn weight_in<B: Geometry>(pair: Pair<B>, last: Pair<B>, plan: Plan) -> u64 {
    match plan {
        Plan::Swept | Plan::Built { .. } => weight_of(pair),
        Plan::Verified { .. } if pair != last => weight_of(pair),
        Plan::Verified { .. } | Plan::Read => VERIFIED,
    }
}

/// About how many bytes it takes to make the table of a pair with so many entries, apart from all
/// tables that are retained, its own among them.
fn bytes_beside<B: Geometry>(pair: Pair<B>, layout: Layout, entries: u64, plan: Plan) -> u64 {
    match plan {
        Plan::Swept => bytes_of_making(pair, layout, entries, None),
        Plan::Built { parallelism, .. } => bytes_of_making(
            pair,
            layout,
            entries,
            Some(parallelism),
        ),
        // The table that was read is there from the start, also while its pair is built beside it.
        Plan::Verified {
            parallelism,
            entries: own,
        } => {
            let making = bytes_of_making(pair, layout, entries, Some(parallelism));
            making.saturating_add(CODE.saturating_mul(own))
        }
        Plan::Read => 0,
    }
}
