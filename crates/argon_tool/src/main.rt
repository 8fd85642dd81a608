//! The program `argon2`: its run over the system.
#![tactic(auto)]

use argon2_program::run;
use std::process::ExitCode;
use system_calls::Real;

fn main(rt: HostRuntime) -> ExitCode {
    ExitCode::from(run::<Real>(rt.alloc(), Real::new(rt)).0)
}
