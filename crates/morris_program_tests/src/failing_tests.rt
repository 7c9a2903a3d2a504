// A write that fails ends the answers.
use crate::checks::holds;
use crate::held::Held;
use crate::making::file_of;
use morris_board::grid::Grid;
use morris_files::folder::Folder;
use morris_game_tests::memory::MemoryFolder;
use morris_jobs::fault::Fault;
use morris_pairs::layout::Layout;
use morris_queries::show::Show;
use morris_queries::strings::answer_strings;

#[test]
fn a_write_that_fails_is_told(rt: HostRuntime) {
    let small = file_of(&rt, "3-3", Layout::Full);
    let held = [("grid-3-3.nmmt", small.as_slice())];
    let held = &mut Held { files: &held };
    // The second write of the file fails: the first answer has 28 bytes, the names of the fields
    // 23.
    let strings = ["XXXOOO...", "XXX.OO.O."];
    for (show, sent) in [(Show::Best, 28), (Show::Csv, 23)] {
        let mut folder = MemoryFolder::new(rt.alloc(), 0, 2);
        let mut output = folder.create("out").expect(&rt, "a file");
        let alloc = rt.alloc();
        let answer = answer_strings::<Grid, _, _>(alloc, "grid", held, &strings, show, &mut output);
        holds(
            &rt,
            answer == Err(Fault::Write(sent)),
            "the bytes that went out",
        );
    }
}
