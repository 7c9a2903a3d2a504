//! What the command line asks for.

/// What the arguments ask of the program.
#[derive(Drop)]
pub struct Request<'a> {
    /// What it is to do.
    pub task: Task<'a>,
    /// Whether it is to report its progress on standard error, which `look`, `lookup` and `find`
    /// never do.
    pub progress: bool,
}

/// A command, with the values of its arguments.
#[derive(Drop)]
pub enum Task<'a> {
    Look(Look<'a>),
    Stats(Stats<'a>),
    Build(Build<'a>),
    Verify(Verify<'a>),
    Probe(Probe<'a>),
    Lookup(Lookup<'a>),
    Find(Find<'a>),
}

/// Show a position: its legal moves, and its value as far as a search of some plies finds it.
#[derive(Clone, Copy)]
pub struct Look<'a> {
    /// The name of the board.
    pub board: &'a str,
    /// The position string.
    pub text: &'a str,
    /// How many plies, 0 to 6.
    pub depth: u8,
}

/// Count the values of the positions of a pair.
#[derive(Clone, Copy)]
pub struct Stats<'a> {
    /// The name of the board.
    pub board: &'a str,
    /// The pair, such as `4-3`.
    pub pair: &'a str,
    /// Whether the tables have an entry for each class of positions.
    pub classes: bool,
    /// How many workers build these, 1 to 64.
    pub workers: u8,
    /// Over how many blocks, 1 to 1,024.
    pub blocks: u16,
    /// Whether the deepest positions are shown too.
    pub deepest: bool,
    /// The folder whose file of the pair states the values, where there is one; `classes` and
    /// `deepest` are then false.
    pub from: Option<&'a str>,
    /// Whether the counts are shown as fields with commas between them; `deepest` is then false.
    pub csv: bool,
}

/// Build the table of a pair, and of each pair below it, and write the file of the pair.
#[derive(Clone, Copy)]
pub struct Build<'a> {
    /// The name of the board.
    pub board: &'a str,
    /// The pair, such as `4-3`.
    pub pair: &'a str,
    /// How many workers build, 1 to 64.
    pub workers: u8,
    /// Over how many blocks, 1 to 1,024.
    pub blocks: u16,
    /// Whether the files of the pairs below it are written too.
    pub all: bool,
    /// The folder into which the file of each of these pairs is written, where there is one; `all`
    /// is then false. Else they go to the output.
    pub into: Option<&'a str>,
    /// Whether the tables have an entry for each class of positions, and not for each position.
    pub classes: bool,
}

/// Verify table files: the one on the input, unless `all` or `from` says otherwise.
#[derive(Clone, Copy)]
pub struct Verify<'a> {
    /// The name of the board.
    pub board: &'a str,
    /// Whether all that are on the input are verified.
    pub all: bool,
    /// The folder of which all files of the board are verified, where there is one; `all` is then
    /// false.
    pub from: Option<&'a str>,
    /// How many workers do it, 1 to 64.
    pub workers: u8,
}

/// Report a position by the tables on the input.
#[derive(Clone, Copy)]
pub struct Probe<'a> {
    /// The name of the board.
    pub board: &'a str,
    /// The position string.
    pub text: &'a str,
}

/// Look up positions in the table files of a folder.
#[derive(Drop)]
pub struct Lookup<'a> {
    /// The name of the board.
    pub board: &'a str,
    /// The folder.
    pub from: &'a str,
    /// What is shown of each position.
    pub show: Show,
    /// The position strings; where there are none, the lines of the input are.
    pub strings: Vec<&'a str>,
}

/// Show the positions of a pair that have a value, by the file of the pair in a folder.
#[derive(Clone, Copy)]
pub struct Find<'a> {
    /// The name of the board.
    pub board: &'a str,
    /// The pair, such as `4-3`.
    pub pair: &'a str,
    /// The value, such as `won in 3`.
    pub value: &'a str,
    /// The folder.
    pub from: &'a str,
    /// Whether every position of an entry's orbit is shown, and not one of them alone.
    pub all: bool,
    /// The most positions to show, where there is a limit.
    pub limit: Option<u32>,
    /// Whether only their number is shown; there is then no `limit`.
    pub count: bool,
}

/// What `lookup` shows of a position.
#[derive(Clone, Copy)]
pub enum Show {
    /// Its value and its best moves.
    Best,
    /// Its value, and each of its moves with the value after it.
    Moves,
    /// Its value, and a line of best moves to the game's end.
    Line,
    /// Each of its moves with the value after it, as fields with commas between them.
    Csv,
}
