//! Morris, the endgame database of Nine Men's Morris: the program.
//!
//! - `command`: the command line, from its arguments to the exit status
//! - `entry`: the arguments that the system gave
//! - `report`: how a fault is reported
#![tactic(auto)]

pub mod command;
mod entry;
mod report;

// The commands from one input to one output, each as one call, and the faults that they are refused
// for.
use command::Terminals;
use entry::answer_arguments;
use morris_board::streams::{FromRead, IntoWrite};
pub use morris_commands::build::build_out;
pub use morris_commands::look::look;
pub use morris_commands::probe::probe_in;
pub use morris_commands::stats::stats;
pub use morris_commands::verify_in::verify_in;
pub use morris_jobs::fault::Fault;
pub use morris_jobs::pairs::read_pair;
use std::env;
use std::io::IsTerminal;
use std::process::ExitCode;

fn main(rt: HostRuntime) -> ExitCode {
    answer_arguments(
        &rt,
        env::args(&rt),
        Terminals {
            output: rt.stdout().is_terminal(),
            errors: rt.stderr().is_terminal(),
        },
        &mut FromRead::new(rt.stdin()),
        &mut IntoWrite::new(rt.stdout()),
        &mut IntoWrite::new(rt.stderr()),
    )
}
