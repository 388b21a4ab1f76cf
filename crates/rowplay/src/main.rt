//! Plays a script of store calls on both stores at once.

#![tactic(auto)]

mod line;
mod play;
mod say;

use play::RowPlay;
use script::{exit_code, play_file};
use std::env;
use std::process::ExitCode;

fn run(rt: &HostRuntime) -> anyhow::Result<()> {
    play_file::<RowPlay>(rt, env::args(rt)?.nth(1))
}

fn main(rt: HostRuntime) -> anyhow::Result<ExitCode> {
    exit_code::<RowPlay>(&rt, run(&rt))
}
