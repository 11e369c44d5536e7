//! Scripts that run one transaction after the other, and the law that such a run is legal.
#![tactic(auto)]

mod law;
mod runner;
mod script_run;

pub use law::{serial_runs_are_legal, serial_runs_leave_their_last_graph};
pub use runner::run_script;
pub use script_run::ScriptRun;
