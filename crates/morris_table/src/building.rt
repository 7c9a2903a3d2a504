//! Tables made by several workers.
ghost use Rattle.std.specs.Prelude.{◌≡◌, ◌<◌, None, true, IfOk, IfErr, OnOk};
ghost use Rattle.morris_wave.specs.Blocks.{BlockState};
ghost use Rattle.morris_workers.specs.Ranges.{range_fault};
ghost use Rattle.morris_pairs.specs.Shelves.{first_missing};
ghost use Rattle.morris_pairs.specs.Building.{IsBuilt};
ghost use Rattle.morris_table.specs.Building.{IsUnbuilt, build_fault_of};
ghost use Rattle.morris_pairs.specs.Headline.{IsBlockIn, IsBlockOf, StatesIn, StatesTheGame};
ghost use Rattle.morris_pairs.specs.Orders.{Order};

use morris_board::board::{Board, Geometry};
use morris_index::pair::Pair;
use morris_pairs::build_fault::BuildFault;
use morris_pairs::class_graph::ClassGraph;
use morris_pairs::exact::Exact;
use morris_pairs::graph::PairGraph;
use morris_pairs::layout::Layout;
use morris_pairs::row_graph::RowGraph;
use morris_pairs::shelf::Shelf;
use morris_pairs::table_set::TableSet;
use morris_workers::{Gate, NoProgress, SHORT_NODES, SolveFault, Watch, solve_with};
use std::alloc::Global;
use std::sync::Wait;
use std::thread::Threads;

/// Whether the table of a pair by classes is built from a graph by rows: that of each pair of two
/// different numbers but 5-4 and 6-5. There rows save no time, as far as was measured: what they
/// save in listing predecessors doesn't pay for putting the codes into the order of the entries.
pub fn is_by_rows<B: Geometry>(pair: Pair<B>) -> bool
    ensures { result ≡ true → pair.lesser < pair.greater }
{
    let (greater, lesser) = (pair.greater(), pair.lesser());
    lesser < greater && !matches!((greater, lesser), (5, 4) | (6, 5))
}

/// Why a table isn't made whose graph the workers didn't solve.
fn to_build_fault<B: Geometry>(fault: SolveFault) -> BuildFault<B>
    ensures { result ≡ build_fault_of fault }
{
    match fault {
        SolveFault::Workers => BuildFault::Workers,
        SolveFault::Blocks => BuildFault::Blocks,
        SolveFault::Memory => BuildFault::Memory,
        SolveFault::Missing(number) => BuildFault::Missing(number),
        SolveFault::TooDeep => BuildFault::TooDeep,
    }
}

/// The exact table of a pair, over the tables of the pairs that it needs. So many workers build it
/// from the pair's graph, cut into so many blocks, and ask the gate after each draw of a block.
///
/// Whatever the numbers of workers and blocks, the gate and the order of the workers, the table
/// gives a win or a loss with its least number of plies under best play exactly where one can be
/// forced, and a draw elsewhere.
///
/// # Errors
/// `Needs` with the first of the pairs that the pair needs whose table isn't on the shelf, before
/// all else. Then `Workers` where there aren't 1 to 64 of them, and `Blocks` where there aren't 1
/// to 1,024. Then `Memory` where memory is refused, `Missing` with the least number of a block that
/// isn't complete, since the gate made a worker leave, and `TooDeep` where codes of 16 bits can't
/// state all values.
pub fn build<B: Board, A: Gate, R: Threads + Wait + Sync>(
    rt: &R,
    alloc: Global,
    shelf: &Shelf<B>,
    pair: Pair<B>,
    gate: &A,
    workers: usize,
    blocks: usize,
) -> Result<Exact<B>, BuildFault<B>>
    ensures ready { OnOk result (first_missing shelf.now pair ≡ None) }
    ensures range { OnOk result (range_fault workers blocks ≡ None) }
    ensures exact { IfOk result (IsBuilt B.shape Layout.Full pair) }
    ensures refused { IfErr result (IsUnbuilt B.shape shelf.now Layout.Full pair workers blocks) }
    // Whenever a block's lock is free, each decided entry is the game's value and exact depth at
    // its position and the tallies count the entries.
    ensures whenever { (s : BlockState) → IsBlockOf B.shape Layout.Full pair s → StatesTheGame B.shape Layout.Full pair s }
{
    let layout = Layout::Full;
    build_as(rt, alloc, shelf, pair, layout, gate, workers, blocks)
}

/// [`build`] with a layout: the exact table of a pair with its entries so laid out, over tables of
/// either layout.
///
/// # Errors
/// Those of [`build`], in the same order. In layout `Classes` memory for the classes is asked for
/// after the tables, so that `Memory` may come before `Workers` and `Blocks`; and where the graph
/// is one by rows (see [`is_by_rows`]), for half of the codes once more at the end.
pub fn build_as<B: Board, A: Gate, R: Threads + Wait + Sync>(
    rt: &R,
    alloc: Global,
    shelf: &Shelf<B>,
    pair: Pair<B>,
    layout: Layout,
    gate: &A,
    workers: usize,
    blocks: usize,
) -> Result<Exact<B>, BuildFault<B>>
    ensures ready { OnOk result (first_missing shelf.now pair ≡ None) }
    ensures range { OnOk result (range_fault workers blocks ≡ None) }
    ensures exact { IfOk result (IsBuilt B.shape layout pair) }
    ensures refused { IfErr result (IsUnbuilt B.shape shelf.now layout pair workers blocks) }
    // Whenever a block's lock is free, each decided entry is the game's value and exact depth at
    // its position and the tallies count the entries.
    ensures whenever { (o : Order) (s : BlockState) → IsBlockIn B.shape o pair s → StatesIn B.shape o pair s }
{
    let watch = &mut NoProgress;
    let tables = shelf.tables();
    build_watched(
        rt, alloc, tables, pair, layout, gate, watch, workers, blocks,
    )
}

/// [`build_as`] over a set of tables, which reports to `watch` as [`solve_with`] does: after each
/// block that this thread makes, and then each wave, in their order (see [`Watch`]).
///
/// # Errors
/// Those of [`build_as`], in the same order. Nothing is reported before the graph of the pair is
/// made and the numbers of workers and blocks are in range.
pub fn build_watched<B: Board, A: Gate, V: Watch, R: Threads + Wait + Sync>(
    rt: &R,
    alloc: Global,
    tables: &TableSet<B>,
    pair: Pair<B>,
    layout: Layout,
    gate: &A,
    watch: &mut V,
    workers: usize,
    blocks: usize,
) -> Result<Exact<B>, BuildFault<B>>
    ensures ready { OnOk result (first_missing tables.now pair ≡ None) }
    ensures range { OnOk result (range_fault workers blocks ≡ None) }
    ensures exact { IfOk result (IsBuilt B.shape layout pair) }
    ensures refused { IfErr result (IsUnbuilt B.shape tables.now layout pair workers blocks) }
    // Whenever a block's lock is free, each decided entry is the game's value and exact depth at
    // its position and the tallies count the entries.
    ensures whenever { (o : Order) (s : BlockState) → IsBlockIn B.shape o pair s → StatesIn B.shape o pair s }
    // The watch is as it may be after reports, whatever the answer.
    ensures watched { V.becomes watch.old watch.new }
{
    match layout {
        Layout::Full => build_by_positions(rt, alloc, tables, pair, gate, watch, workers, blocks),
        Layout::Classes if is_by_rows(pair) => {
            build_by_rows(rt, alloc, tables, pair, gate, watch, workers, blocks)
        }
        Layout::Classes => build_by_classes(rt, alloc, tables, pair, gate, watch, workers, blocks),
    }
}

/// [`build_watched`] in layout `Full`. The nodes of the graph are all positions.
fn build_by_positions<B: Board, A: Gate, V: Watch, R: Threads + Wait + Sync>(
    rt: &R,
    alloc: Global,
    tables: &TableSet<B>,
    pair: Pair<B>,
    gate: &A,
    watch: &mut V,
    workers: usize,
    blocks: usize,
) -> Result<Exact<B>, BuildFault<B>>
    ensures ready { OnOk result (first_missing tables.now pair ≡ None) }
    ensures range { OnOk result (range_fault workers blocks ≡ None) }
    ensures exact { IfOk result (IsBuilt B.shape Layout.Full pair) }
    ensures refused { IfErr result (IsUnbuilt B.shape tables.now Layout.Full pair workers blocks) }
    ensures whenever { (o : Order) (s : BlockState) → IsBlockIn B.shape o pair s → StatesIn B.shape o pair s }
    ensures watched { V.becomes watch.old watch.new }
{
    let graph = PairGraph::over(tables, pair)?;
    match solve_with(rt, alloc, &graph, gate, workers, blocks, SHORT_NODES, watch) {
        Ok(codes) => Ok(graph.into_table(codes)),
        Err(fault) => Err(to_build_fault(fault)),
    }
}

/// [`build_watched`] in layout `Classes`. The nodes of the graph are the entries.
fn build_by_classes<B: Board, A: Gate, V: Watch, R: Threads + Wait + Sync>(
    rt: &R,
    alloc: Global,
    tables: &TableSet<B>,
    pair: Pair<B>,
    gate: &A,
    watch: &mut V,
    workers: usize,
    blocks: usize,
) -> Result<Exact<B>, BuildFault<B>>
    ensures ready { OnOk result (first_missing tables.now pair ≡ None) }
    ensures range { OnOk result (range_fault workers blocks ≡ None) }
    ensures exact { IfOk result (IsBuilt B.shape Layout.Classes pair) }
    ensures refused { IfErr result (IsUnbuilt B.shape tables.now Layout.Classes pair workers blocks) }
    ensures whenever { (o : Order) (s : BlockState) → IsBlockIn B.shape o pair s → StatesIn B.shape o pair s }
    ensures watched { V.becomes watch.old watch.new }
{
    let graph = ClassGraph::over(alloc, tables, pair)?;
    match solve_with(rt, alloc, &graph, gate, workers, blocks, SHORT_NODES, watch) {
        Ok(codes) => Ok(graph.into_table(codes)),
        Err(fault) => Err(to_build_fault(fault)),
    }
}

/// [`build_watched`] in layout `Classes`, of a pair of two different numbers. The nodes of the
/// graph are those of rows, and their codes are put into the order of the entries at the end.
fn build_by_rows<B: Board, A: Gate, V: Watch, R: Threads + Wait + Sync>(
    rt: &R,
    alloc: Global,
    tables: &TableSet<B>,
    pair: Pair<B>,
    gate: &A,
    watch: &mut V,
    workers: usize,
    blocks: usize,
) -> Result<Exact<B>, BuildFault<B>>
    requires two { pair.lesser < pair.greater }
    ensures ready { OnOk result (first_missing tables.now pair ≡ None) }
    ensures range { OnOk result (range_fault workers blocks ≡ None) }
    ensures exact { IfOk result (IsBuilt B.shape Layout.Classes pair) }
    ensures refused { IfErr result (IsUnbuilt B.shape tables.now Layout.Classes pair workers blocks) }
    ensures whenever { (o : Order) (s : BlockState) → IsBlockIn B.shape o pair s → StatesIn B.shape o pair s }
    ensures watched { V.becomes watch.old watch.new }
{
    let graph = RowGraph::over(alloc, tables, pair)?;
    match solve_with(rt, alloc, &graph, gate, workers, blocks, SHORT_NODES, watch) {
        Ok(codes) => Ok(graph.into_table(rt, alloc, codes, workers)?),
        Err(fault) => Err(to_build_fault(fault)),
    }
}
