//! What the help says below the arguments: what they mean, the exit statuses and an example. The
//! lines are at most 80 characters wide.

/// A page of help: strings, one after the other, and by their names paragraphs that several pages
/// have. It begins with `[]`, where the strings are gathered.
macro_rules! page {
    ([$($text:literal)*]) => { concat!($($text),*) };
    ([$($text:literal)*] $next:literal $($rest:tt)*) => { page!([$($text)* $next] $($rest)*) };
    ([$($text:literal)*] TEXT $($rest:tt)*) => {
        page!([$($text)* "\
TEXT has one character for each point, in the order of their numbers: X for a\n\
stone of the player to move (own), O for one of the opponent (other), . for a\n\
vacant point. On nine the points are numbered clockwise from the top left\n\
corner, on the outer ring (0 to 7), then the middle one (8 to 15), then the\n\
inner one (16 to 23); on grid row by row (0 to 8). `morris --help` draws both.\n\
\n\
"] $($rest)*)
    };
    ([$($text:literal)*] PAIR $($rest:tt)*) => {
        page!([$($text)* "\
PAIR is how many stones the players have, each 3 to 9: a digit, a hyphen and a\n\
digit. 4-3 and 3-4 are one pair, of all positions in which the player to move\n\
has 4 stones (own) and the opponent 3 (other), or 3 and 4.\n\
\n\
"] $($rest)*)
    };
    ([$($text:literal)*] PROGRESS $($rest:tt)*) => {
        page!([$($text)* "\
--progress writes lines `progress: ..` to standard error: first how many entries\n\
there are in all and about how much memory they take, then at most one a second\n\
and one at each pair's end. Standard output is the same with and without it.\n\
\n\
"] $($rest)*)
    };
    ([$($text:literal)*] EXIT $($rest:tt)*) => {
        page!([$($text)* "\
Exit status: 0 done; 1 a fault, one line on standard error; 2 words that aren't\n\
allowed.\n\
\n\
"] $($rest)*)
    };
    ([$($text:literal)*] STATS $($rest:tt)*) => {
        page!([$($text)* "\
Example:\n  \
$ morris stats grid 3-3\n  \
3-3 1680 positions\n  \
won in 1: 936\n  \
lost in 2: 36\n  \
won in 3: 108\n  \
draw: 600"] $($rest)*)
    };
}

/// Of the program as a whole.
pub(crate) const PROGRAM: &str = page!(
    []
    "\
Words:\n  \
BOARD  nine, the usual board of 24 points, or grid, a small one of 9 points\n  \
TEXT   a position, with one character for each point, in the order of their\n         \
numbers: X a stone of the player to move (own), O one of the opponent\n         \
(other), . a vacant point\n  \
PAIR   how many stones the players have: 4-3 and 3-4 are one pair, of all\n         \
positions with 4 own and 3 other stones, or with 3 own and 4 other\n  \
FOLDER a folder with table files, as `build --into` writes them\n\
\n\
The points of nine and of grid:\n\
\n  \
0-----------1-----------2      0---1---2\n  \
|           |           |      |   |   |\n  \
|   8-------9------10   |      3---4---5\n  \
|   |       |       |   |      |   |   |\n  \
|   |  16--17--18   |   |      6---7---8\n  \
|   |   |       |   |   |\n  \
7--15--23      19--11---3\n  \
|   |   |       |   |   |\n  \
|   |  22--21--20   |   |\n  \
|   |       |       |   |\n  \
|  14------13------12   |\n  \
|           |           |\n  \
6-----------5-----------4\n\
\n\
Exit status:\n  \
0  done, or help or the version was asked for\n  \
1  a fault: one line `fault N: ..` on standard error; standard output has\n     \
nothing, or what came before it\n  \
2  words that aren't allowed: what is wrong with them, on standard error\n\
\n\
"
    STATS
    "\n\n`morris help COMMAND` has more of each command."
);

/// Of `look`.
pub(crate) const LOOK: &str = page!(
    []
    TEXT
    "\
It prints the text, how many stones each player has, each legal move (0-3 from\n\
point 0 to point 3, 8-2x5 one that also takes the stone on 5), how many moves\n\
there are, and the value as far as N plies tell (a ply is one player's move):\n  \
won in 3          the player to move can force a win in 3 plies, not in fewer\n  \
lost in 2         the opponent can force a win in 2 plies, not in fewer\n  \
lost in 0         the player to move has no legal move, and so has lost\n  \
unknown within 2  neither can force a win in 2 plies: it may be won or lost in\n                    \
more, or drawn\n\
\n\
"
    EXIT
    "\
Example:\n  \
$ morris look grid XXXXO.OO.\n  \
XXXXO.OO.\n  \
own 4 other 3\n  \
2-5\n  \
moves 1\n  \
unknown within 2"
);

/// Of `stats`.
pub(crate) const STATS: &str = page!(
    []
    PAIR
    "\
It finds the values of the pair and of the pairs that it rests on, and prints\n\
how many positions there are, how many are won and lost in each number of plies\n\
(a ply is one player's move; the player to move is the one who wins or loses),\n\
and how many are drawn: neither player can force a win.\n\
\n\
One thread finds them, with an entry for each position. With --classes most\n\
positions that a symmetry of the board leads to one another share an entry, and\n\
W threads build the tables over K blocks: this is faster and takes less memory.\n\
Without --classes, --workers and --blocks change nothing. What is printed is the\n\
same each way: an entry counts for each of its positions.\n\
\n\
With --deepest it prints two lines more: a position that is won in the greatest\n\
number of plies, and one that is lost in the greatest number. Of several it is\n\
the one whose entry comes first in the table.\n\
\n\
With --from it finds nothing, but reads the pair's table file in a folder, once\n\
and from front to back, and counts what the file says. It believes the file: it\n\
checks nothing but the header and the length. What makes it right to is `morris\n\
verify BOARD --from FOLDER`, run once before. --classes, --workers, --blocks,\n\
--deepest and --progress don't go with it; `morris find` shows the deepest.\n\
\n\
With --csv it prints a line for each number of stones of the player to move and\n\
each value that some position has, with commas between its fields:\n  \
own,other,result,depth,positions\n  \
3,3,won,1,936\n\
The depth of a draw is left empty.\n\
\n\
"
    PROGRESS
    EXIT
    STATS
);

/// Of `build`.
pub(crate) const BUILD: &str = page!(
    []
    PAIR
    "\
It builds the tables of the pairs that the pair rests on, then that of the pair,\n\
and writes nothing before the last of them is built. The bytes are the same for\n\
every number of workers and blocks. It writes no table to a terminal.\n\
\n\
With --into it writes each of these tables into a folder as soon as it is built,\n\
in a file with a name like nine-4-3.nmmt, whole or not at all. The folder is\n\
made where its parent is there. After each file it prints a line: the pair, how\n\
many entries and bytes the file has, and its SHA-256. At the end it writes\n\
nine.sha256 beside the files, for `sha256sum -c nine.sha256` in the folder.\n\
\n\
With --classes most positions that a symmetry of the board leads to one another\n\
share an entry, so that the files are smaller. They are of version 2, which\n\
every command that reads table files reads as well.\n\
\n\
"
    PROGRESS
    EXIT
    "\
Example: the table of 3-3; a file with those of 3-3 and 4-3, by positions and by\n\
classes; and a folder with a file for each of the two\n  \
$ morris build nine 3-3 --workers 4 > table\n  \
$ morris build grid 4-3 --all > tables\n  \
$ morris build grid 4-3 --all --classes > smaller\n  \
$ morris build grid 4-3 --into folder"
);

/// Of `verify`.
pub(crate) const VERIFY: &str = page!(
    []
    "\
It reads the file of one table, as `morris build` writes it, builds the tables\n\
of the pairs that its pair rests on, then that of the pair itself, and compares\n\
the two. The threads share the work; the answer is the same for every number of\n\
threads.\n\
\n\
With --all it reads up to 64 table files, one after the other, as `morris build\n\
--all` writes them: each after those of the pairs that its pair needs, with\n\
those of fewer stones first. It builds none of them: it compares each entry with\n\
what the rules give from the entries after its moves, in this file and those\n\
before it. It prints a line for each file before it reads the next, and stops at\n\
the first that isn't right. As no one knows what follows, the first line of\n\
--progress counts the first file alone.\n\
\n\
With --from it does the same with every table file of the board that a folder\n\
has, as `morris build --into` writes them. Nothing in a file is believed in any\n\
of these cases.\n\
\n\
"
    PROGRESS
    "\
Exit status: 0 each entry is the game's; 1 a fault, one line on standard error,\n\
such as `fault 14: entry 20 differs` with the first entry that is wrong, counted\n\
from 0; 2 words that aren't allowed.\n\
\n\
Example:\n  \
$ morris build grid 3-3 | morris verify grid\n  \
verified 3-3: 1680 entries\n  \
$ morris build grid 4-3 --all | morris verify grid --all\n  \
verified 3-3: 1680 entries\n  \
verified 4-3: 2520 entries\n  \
$ morris verify grid --from folder"
);

/// Of `probe`.
pub(crate) const PROBE: &str = page!(
    []
    TEXT
    "\
It reads up to 64 table files, one after the other, as `morris build --all`\n\
writes them: each after those of the pairs that its pair needs. It verifies\n\
each, and then prints the text, the value (`won in 3`, `lost in 2`, in plies, or\n\
`draw`) and the best moves: those that win soonest, else those that keep the\n\
draw, else those that lose latest. 8-2x5 is a move from point 8 to point 2 that\n\
takes the stone on point 5.\n\
\n\
"
    PROGRESS
    EXIT
    "\
Example:\n  \
$ morris build grid 4-3 --all | morris probe grid XX..OO.OX\n  \
XX..OO.OX\n  \
won in 1\n  \
8-2x4\n  \
8-2x5\n  \
8-2x7"
);

/// Of `lookup`.
pub(crate) const LOOKUP: &str = page!(
    []
    TEXT
    "\
It looks up each position in the file of its pair, of which it reads only what\n\
it needs, and prints a line: the text, the value (`won in 3`, `lost in 2`, in\n\
plies, or `draw`) and the best moves: those that win soonest, else those that\n\
keep the draw, else those that lose latest. 8-2x5 is a move from point 8 to\n\
point 2 that takes the stone on point 5. With --moves a line follows for each\n\
legal move, with the value that it leads to for the player who makes it; with\n\
--line one for each move of a line of best moves to the game's end, with the\n\
position after it and its value. Without texts it reads them from standard\n\
input, one a line, and skips lines that are empty or begin with #. A text that\n\
has no answer is followed by its fault, and the next one is answered.\n\
\n\
With --moves and --csv the lines of the moves alone are printed, with commas\n\
between their fields, and first a line with the names of these:\n  \
text,move,result,depth\n  \
XX..OO.OX,8-2x4,won,1\n\
The result is for the player who makes the move, as with --moves alone. The\n\
depth is in plies, and that of a draw is left empty.\n\
\n\
It believes the files: it reads them as they are and checks nothing but headers.\n\
What makes it right to is `morris verify BOARD --from FOLDER`, run once before.\n\
\n\
Exit status: 0 each text has an answer; 1 a fault, one line on standard error,\n\
also where texts have no answer; 2 words that aren't allowed.\n\
\n\
Example:\n  \
$ morris build grid 4-3 --into folder\n  \
$ morris verify grid --from folder\n  \
$ morris lookup grid --from folder XX..OO.OX\n  \
XX..OO.OX won in 1: 8-2x4 8-2x5 8-2x7"
);

/// Of `find`.
pub(crate) const FIND: &str = page!(
    []
    PAIR
    "\
It reads the pair's table file in a folder and prints the positions of the pair\n\
that have the value, one a line, in the order of the entries and as soon as the\n\
entry is read: texts that `morris lookup` takes. VALUE is for the player to\n\
move, and one word for the shell:\n  \
draw, won, lost  neither can force a win; one of the two can\n  \
'won in 9'       won in 9 plies, not in fewer (a ply is one player's move)\n  \
'lost in 8'      lost in 8 plies\n  \
deepest          won in the most plies that occur, then lost in the most\n\
\n\
In a file that `build --classes` wrote, most positions that a symmetry of the\n\
board leads to one another share an entry. One position of each entry is\n\
printed, and with --all every position. With --limit it prints N positions at\n\
most, the first ones. With --count it prints how many there are, and nothing\n\
else.\n\
\n\
It believes the file: it checks nothing but the header and the length. What\n\
makes it right to is `morris verify BOARD --from FOLDER`, run once before.\n\
\n\
"
    EXIT
    "\
Example:\n  \
$ morris build grid 3-3 --into folder\n  \
$ morris find grid 3-3 --from folder 'lost in 2' --count\n  \
36\n  \
$ morris find grid 3-3 --from folder draw | morris lookup grid --from folder"
);
