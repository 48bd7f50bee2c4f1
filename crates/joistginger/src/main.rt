// SPDX-License-Identifier: Apache-2.0
//! Runs the command that the words ask for. What it makes of its text is written to standard output;
//! why it refuses it, to standard error.
#![tactic(auto)]

use cedar_schema_tool::run_process;
use std::process::ExitCode;

fn main(rt: HostRuntime) -> ExitCode {
    let status = run_process(&rt);
    ExitCode::from(status.code())
}
