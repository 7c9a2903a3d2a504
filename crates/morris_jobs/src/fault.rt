//! What a command can be refused for.
ghost use Rattle.std.specs.Prelude.{◌≡◌, ◌≤◌, None};
ghost use Rattle.morris_jobs.specs.Faults.{build_fault, count_fault, fault_number, flaw_in, in_file, length_around, needs_fault, own_text, pair_fault, probe_fault, words_of, solve_fault, text_fault, verify_fault};

use crate::flaw::Flaw;
use crate::wording::Words;
use morris_board::board::Geometry;
use morris_board::faults::TextFault;
use morris_index::faults::PairFault;
use morris_index::pair::Pair;
use morris_pairs::build_fault::BuildFault;
use morris_pairs::counting::CountFault;
use morris_pairs::file_faults::ReadFault;
use morris_pairs::shelf::Needs;
use morris_pairs::verify::VerifyFault;
use morris_probe::fault::ProbeFault;
use morris_workers::SolveFault;
use std::alloc::AllocError;
use std::fmt;

/// The texts of faults that say what to write instead.
const NO_VALUE: &str = "not a value: draw, won, lost, won in D, lost in D or deepest";

const NO_TERMINAL: &str = "a table isn't for a terminal: add --into FOLDER or > FILE";

/// Why a command refused. Each fault has a number, which stays the same from version to version,
/// and a text.
#[derive(Clone, Copy, Debug, PartialEq, Eq)]
pub enum Fault {
    /// A position string hasn't one character for each point of the board.
    Length,
    /// The first character of a position string that is none of `X`, `O` and `.`: where it stands,
    /// counted from 0.
    Character(usize),
    /// A player has a number of stones that no position has.
    Stones,
    /// A number of stones of a pair isn't 3 to 9.
    Counts,
    /// The board has fewer points than a pair has stones.
    Crowded,
    /// The number of blocks isn't 1 to 1,024.
    Blocks,
    /// A build ended while the block of this number was incomplete.
    Missing(u64),
    /// A position of the pair, or of a pair that it rests on, is won or lost in more plies than a
    /// table can hold.
    TooDeep,
    /// The number of workers isn't 1 to 64.
    Workers,
    /// Memory was refused.
    Memory,
    /// The table of the pair with these numbers of stones, the larger one first, is needed and
    /// missing.
    Needs(u8, u8),
    /// The entry with this index is the first that isn't what the rules give from the entries of
    /// its results.
    Differs(u64),
    /// The input ended within a file.
    Short,
    /// The input doesn't begin with the letters of a table file.
    Magic,
    /// The version of a table file is neither 1 nor 2.
    Version,
    /// A table file is one of another board.
    BoardId,
    /// The number of entries of a table file isn't that of its pair.
    Count,
    /// The digest of a table file isn't that of the bytes before it.
    Digest,
    /// There are bytes after a table file.
    Trailing,
    /// A read failed.
    Read,
    /// A write failed after this many bytes had gone out.
    Write(u64),
    /// There is no board of that name.
    Board,
    /// A text doesn't name a pair: that takes a digit, a hyphen and a digit.
    PairText,
    /// A text doesn't name values by which positions can be found.
    ValueText,
    /// The input has more than 64 table files.
    TooMany,
    /// The folder can't be made.
    Folder,
    /// The file of the pair with these numbers of stones, the larger one first, can't be written.
    Unwritten(u8, u8),
    /// The file of the pair with these numbers of stones, the larger one first, can't be opened.
    Unopened(u8, u8),
    /// The file of the pair with these numbers of stones, the larger one first, has the table of
    /// another pair.
    OtherPair(u8, u8),
    /// The folder has no table file.
    NoFiles,
    /// So many lines of the input have no answer.
    Unanswered(u64),
    /// The list of digests can't be written.
    Digests,
    /// Another build is at work in the folder.
    Busy,
    /// There is no such folder: the path stands for nothing, or for something else, or is empty.
    NoFolder,
    /// The table files say of a position what doesn't follow from what they say of its moves.
    Disagree,
    /// The lock of the folder can't be had, for another cause than that another build has it.
    Unlocked,
    /// A table would go to a terminal.
    Terminal,
    /// The file of the pair with these numbers of stones, the larger one first, has this flaw.
    InFile(u8, u8, Flaw),
}

impl Fault {
    /// The number of the fault.
    pub fn number(&self) -> u8
        ensures { result ≡ fault_number self.now }
    {
        self.number_and_text().0
    }

    /// The number of the fault, and its text, which doesn't say in which file it was met.
    pub fn number_and_text(&self) -> (u8, Words)
        ensures number { result.0 ≡ fault_number self.now }
        ensures text { words_of result.1 ≡ own_text self.now }
        ensures short { length_around result.1 ≤ 64 }
    {
        match self.flaw() {
            Some(flaw) => flaw.number_and_text(),
            None => self.own(),
        }
    }

    /// The same, for a fault that isn't a flaw without its file.
    fn own(&self) -> (u8, Words)
        requires { flaw_in self.now ≡ None }
        ensures number { result.0 ≡ fault_number self.now }
        ensures text { words_of result.1 ≡ own_text self.now }
        ensures short { length_around result.1 ≤ 64 }
    {
        match *self {
            Fault::Length => (1, Words::Plain("text is not one character per point")),
            Fault::Character(place) => (2, Words::Number("bad character at ", place as u64, "")),
            Fault::Stones => (3, Words::Plain("bad number of stones")),
            Fault::Blocks => (6, Words::Plain("blocks must be 1 to 1024")),
            Fault::Missing(number) => (8, Words::Number("block ", number, " is not complete")),
            Fault::TooDeep => (10, Words::Plain("depth is too great")),
            Fault::Workers => (11, Words::Plain("workers must be 1 to 64")),
            Fault::Memory => (12, Words::Plain("out of memory")),
            Fault::Write(sent) => (23, Words::Number("writing failed after ", sent, " bytes")),
            Fault::Board => (25, Words::Plain("no such board")),
            Fault::PairText => (26, Words::Plain("not a pair")),
            Fault::ValueText => (39, Words::Plain(NO_VALUE)),
            Fault::TooMany => (27, Words::Plain("more than 64 tables")),
            Fault::Folder => (28, Words::Plain("folder can't be made")),
            Fault::Unwritten(a, b) => (29, Words::Pair("file of ", a, b, " can't be written")),
            Fault::Unopened(a, b) => (30, Words::Pair("file of ", a, b, " can't be opened")),
            Fault::OtherPair(a, b) => (
                31,
                Words::Pair("file of ", a, b, " has the table of another pair"),
            ),
            Fault::NoFiles => (32, Words::Plain("no table files")),
            Fault::Unanswered(1) => (33, Words::Plain("1 line has no answer")),
            Fault::Unanswered(count) => (33, Words::Number("", count, " lines have no answer")),
            Fault::Digests => (34, Words::Plain("file of digests can't be written")),
            Fault::Busy => (35, Words::Plain("another build is at work in this folder")),
            Fault::NoFolder => (36, Words::Plain("no such folder")),
            Fault::Disagree => (
                37,
                Words::Plain("the files of this position and its moves disagree"),
            ),
            Fault::Unlocked => (38, Words::Plain("folder can't be locked")),
            Fault::Terminal => (40, Words::Plain(NO_TERMINAL)),
            Fault::InFile(_, _, flaw) => flaw.number_and_text(),
            _ => unreachable!(),
        }
    }

    /// The flaw that the fault says a table file has, where it doesn't say which file.
    pub fn flaw(&self) -> Option<Flaw>
        ensures { result ≡ flaw_in self.now }
    {
        match *self {
            Fault::Counts => Some(Flaw::Counts),
            Fault::Crowded => Some(Flaw::Crowded),
            Fault::Needs(greater, lesser) => Some(Flaw::Needs(greater, lesser)),
            Fault::Differs(index) => Some(Flaw::Differs(index)),
            Fault::Short => Some(Flaw::Short),
            Fault::Magic => Some(Flaw::Magic),
            Fault::Version => Some(Flaw::Version),
            Fault::BoardId => Some(Flaw::BoardId),
            Fault::Count => Some(Flaw::Count),
            Fault::Digest => Some(Flaw::Digest),
            Fault::Trailing => Some(Flaw::Trailing),
            Fault::Read => Some(Flaw::Read),
            _ => None,
        }
    }

    /// The fault as it is reported where it was met in the file of this pair: a flaw says in which
    /// file it is, and any other fault stays as it is.
    pub fn in_file<B: Geometry>(self, pair: Pair<B>) -> Fault
        ensures { result ≡ in_file pair self }
    {
        match self.flaw() {
            Some(flaw) => Fault::InFile(pair.greater(), pair.lesser(), flaw),
            None => self,
        }
    }
}

/// The fault of the same name as a refusal, with the number that it holds; or the fault of the
/// refusal within it, after `from`.
macro_rules! same_fault {
    ($refused:expr, $refusals:ident: $($name:ident $(($held:ident))?),+ $(,)? $(; from $inner:ident)?) => {
        match $refused {
            $($refusals::$inner(inner) => Fault::from(inner),)?
            $($refusals::$name $(($held))? => Fault::$name $(($held))?,)+
        }
    };
}

impl fmt::Display for Fault {
    ghost use Rattle.std.specs.Prelude.{Some};
    ghost use Rattle.morris_jobs.specs.Faults.{fault_text};

    ghost output = { λ fault. Some (fault_text fault) };

    fn fmt<W: fmt::Write>(&self, f: &mut fmt::Formatter<W>) -> fmt::Result {
        let (_, words) = self.number_and_text();
        match *self {
            Fault::InFile(greater, lesser, _) => {
                write!(f, "{words}, in the file of {greater}-{lesser}")
            }
            _ => write!(f, "{words}"),
        }
    }
}

impl std::error::Error for Fault {}

impl From<TextFault> for Fault {
    ghost from_gives = { λ refused e. e ≡ text_fault refused };

    fn from(refused: TextFault) -> Fault {
        same_fault!(refused, TextFault: Length, Character(place), Stones)
    }
}

impl From<PairFault> for Fault {
    ghost from_gives = { λ refused e. e ≡ pair_fault refused };

    fn from(refused: PairFault) -> Fault {
        same_fault!(refused, PairFault: Counts, Crowded)
    }
}

impl From<ReadFault> for Fault {
    ghost use Rattle.morris_jobs.specs.Faults.{read_fault};

    ghost from_gives = { λ refused e. e ≡ read_fault refused };

    fn from(refused: ReadFault) -> Fault {
        same_fault!(
            refused,
            ReadFault: Short, Magic, Version, BoardId, Counts, Crowded, Count, Digest, Trailing, Read,
            Memory,
        )
    }
}

impl From<CountFault> for Fault {
    ghost from_gives = { λ refused e. e ≡ count_fault refused };

    fn from(refused: CountFault) -> Fault {
        same_fault!(refused, CountFault: Memory, Read)
    }
}

impl From<AllocError> for Fault {
    ghost use Rattle.morris_jobs.specs.declared.fault.Fault.TheVariants as fault;

    ghost from_gives = { λ refused e. e ≡ fault.Memory };

    fn from(_refused: AllocError) -> Fault {
        Fault::Memory
    }
}

impl<B: Geometry> From<Needs<B>> for Fault {
    ghost from_gives = { λ needs e. e ≡ needs_fault needs.0 };

    fn from(needs: Needs<B>) -> Fault {
        Fault::Needs(needs.0.greater(), needs.0.lesser())
    }
}

impl<B: Geometry> From<ProbeFault<B>> for Fault {
    ghost from_gives = { λ refused e. e ≡ probe_fault refused };

    fn from(refused: ProbeFault<B>) -> Fault {
        same_fault!(refused, ProbeFault: Memory, Write(sent); from Needs)
    }
}

impl<B: Geometry> From<VerifyFault<B>> for Fault {
    ghost from_gives = { λ refused e. e ≡ verify_fault refused };

    fn from(refused: VerifyFault<B>) -> Fault {
        same_fault!(refused, VerifyFault: Differs(index); from Needs)
    }
}

impl<B: Geometry> From<BuildFault<B>> for Fault {
    ghost from_gives = { λ refused e. e ≡ build_fault refused };

    fn from(refused: BuildFault<B>) -> Fault {
        same_fault!(
            refused,
            BuildFault: Workers, Blocks, Memory, Missing(number), TooDeep;
            from Needs
        )
    }
}

impl From<SolveFault> for Fault {
    ghost from_gives = { λ refused e. e ≡ solve_fault refused };

    fn from(refused: SolveFault) -> Fault {
        same_fault!(refused, SolveFault: Workers, Blocks, Memory, Missing(number), TooDeep)
    }
}
