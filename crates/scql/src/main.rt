//! Explains the commands of a card.

#![tactic(auto)]

ghost use Rattle.std.specs.Bool.{⊤};

mod explain;
mod lines;
mod refusal;
mod words;

use anyhow::anyhow;
use commands::parse_command;
use explain::Explained;
use lines::{Line, read_line};
use refusal::Refusal;
use script::{Program, at_line, exit_code, play_file};
use std::alloc::Global;
use std::io::Write;
use std::process::ExitCode;
use std::{env, io};

/// The length of the answer area where a script gives none.
const USUAL_AREA: usize = 255;

const USAGE: &str = "usage: scql explain [FILE]";

/// Writes what a command says, or why it says nothing.
fn explain_command<W: Write>(out: &mut W, command: &[u8], area: usize) -> io::Result<()> {
    match parse_command(command, area) {
        Ok(understood) => {
            let words = Explained {
                command: understood,
            };
            writeln!(out, "{words}")
        }
        Err(fault) => {
            let words = Refusal { command, fault };
            writeln!(out, "{words}")
        }
    }
}

/// Explains each command of a script.
struct Scql;

impl Program for Scql {
    ghost played = { ⊤ };

    const NAME: &'static str = "scql";

    fn play<W: Write>(heap: Global, out: &mut W, lines: &[String]) -> anyhow::Result<()> {
        let mut area = USUAL_AREA;
        for (at, text) in lines.iter().enumerate() {
            match read_line(heap, text.as_str()) {
                Ok(None) => {}
                Ok(Some(Line::Area { length })) => area = length,
                Ok(Some(Line::Command { bytes })) => explain_command(out, bytes.as_slice(), area)?,
                Err(fault) => return Err(at_line(heap, at, &fault)),
            }
        }
        Ok(())
    }
}

fn run(rt: &HostRuntime) -> anyhow::Result<()> {
    let mut words = env::args(rt)?;
    if words.nth(1).as_deref() != Some("explain") {
        return Err(anyhow!(USAGE));
    }
    play_file::<Scql>(rt, words.next())
}

fn main(rt: HostRuntime) -> anyhow::Result<ExitCode> {
    exit_code::<Scql>(&rt, run(&rt))
}
