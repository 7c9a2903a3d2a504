//! Exact depths of win and loss over any graph with exits.
//!
//! The crate knows no game. A [`Graph`] gives each node's results, and [`sweep`] the code of each
//! node. Both a sweep and a solver by workers report their progress to a [`Watch`].
//!
//! Graphs:
//! - `graph`: what a graph is, and the summary of a node's exits; `cut`: its nodes in blocks
//!
//! A block, as it goes from wave to wave:
//! - `block`: the block, its fresh nodes and its batches; `scattering`: batches from fresh nodes
//! - `node_range`: the nodes of a block; `reading`: how they begin; `propagate`: what new results
//!   do to them
//! - `listed`: the entries of the nodes and the list of those that are decided; `node_list`: kinds
//!   of lists
//! - `codes`, `counters`: numbers of one byte while that is enough
//! - `due`, `gaps`: the nodes that come due by their exits, wave by wave, in 2 bytes each
//!
//! A whole graph:
//! - `gathering`: its codes from its blocks; `sweeping`: its codes by one thread
//! - `watch`: how progress is reported
#![tactic(auto)]

mod block;
mod codes;
mod counters;
mod cut;
mod due;
mod gaps;
mod gathering;
mod graph;
mod listed;
mod node_list;
mod node_range;
mod propagate;
mod reading;
mod scattering;
mod sweeping;
mod watch;

pub use block::{AdvanceFault, Applied, Batch, Block, Fresh, Tallies};
pub use cut::{Blocks, Cut};
pub use gathering::{GatherFault, gather, gather_from};
pub use graph::{Exits, Graph, Levels};
pub use node_list::{NodeList, Recent};
pub use scattering::{scatter, scatter_reusing};
pub use sweeping::{SweepFault, sweep, sweep_watched};
pub use watch::{NoProgress, Watch};
