//! What the programs that play scripts share: how they run, lines with comments, numbers in them, and messages that
//! name a line.

#![tactic(auto)]

ghost use Rattle.std.specs.Prelude.{◌≡◌, ℕ, ◌<◌, length, take, ◌≢◌, slice_index, IfOk, OnOk, MatchResult};
ghost use Rattle.std.specs.Process.{exit_status};

use anyhow::anyhow;
use std::alloc::Global;
use std::fs::File;
use std::io::{BufRead, BufReader, BufWriter, Read, Write};
use std::process::ExitCode;
use std::str::FromStr;
use std::{fmt, io};

/// All lines of a script.
pub fn read_lines<R: Read + Drop>(heap: Global, input: R) -> io::Result<Vec<String>> {
    BufReader::new(heap, input)?.lines(heap).try_collect(heap)
}

/// A line without its comment, which begins with `#`.
pub fn without_comment(line: &str) -> &str
    ensures front { result.now ≡ take (length result.now) line.now }
    ensures clean { (k : ℕ) → k < length result.now → slice_index result.now k ≢ 35 }
{
    match line.split_once('#') {
        Some((front, _)) => front,
        None => line,
    }
}

/// The number that a word says, if there is a word and it says one that fits.
pub fn number<N: FromStr>(word: Option<&str>) -> Option<N>
where
    N::Err: Drop,
{
    word?.parse().ok()
}

/// The message for a line that cannot be played; `at` counts from 0, the message from 1.
pub fn at_line<F: fmt::Display>(heap: Global, at: usize, fault: &F) -> anyhow::Error {
    let number = at.saturating_add(1);
    match format!(in heap; "line {number}: {fault}") {
        Ok(message) => anyhow!(message),
        Err(_) => anyhow!("no memory"),
    }
}

/// A program that plays a script.
pub trait Program {
    /// What holds when a script was played. The programs here state nothing: what they print is tested, not proved.
    ghost played: { Type 0 };

    /// The program's name, which stands before its faults.
    const NAME: &'static str;

    /// Plays the lines of a script, and writes the answers.
    fn play<W: Write>(heap: Global, out: &mut W, lines: &[String]) -> anyhow::Result<()>
        ensures { OnOk result played };
}

/// Plays a script, from the file at that path or else from standard input; the answers go to standard output.
pub fn play_file<P: Program>(rt: &HostRuntime, path: Option<String>) -> anyhow::Result<()>
    ensures { OnOk result P.played }
{
    let heap = rt.alloc();
    let lines = match path {
        Some(path) => read_lines(heap, File::open(rt, path.as_str())?)?,
        None => read_lines(heap, rt.stdin())?,
    };
    let mut out = BufWriter::new(heap, rt.stdout())?;
    let played = P::play(heap, &mut out, lines.as_slice());
    out.flush()?;
    played
}

/// How a program ends: a fault is told on standard error, behind the program's name.
pub fn exit_code<P: Program>(
    rt: &HostRuntime,
    played: anyhow::Result<()>,
) -> anyhow::Result<ExitCode>
    ensures { IfOk result (λ code. MatchResult played (λ _. exit_status code ≡ 0) (λ _. exit_status code ≡ 1)) }
{
    match played {
        Ok(()) => Ok(ExitCode::SUCCESS),
        Err(fault) => {
            let name = P::NAME;
            eprintln!(rt; "{name}: {fault}")?;
            Ok(ExitCode::FAILURE)
        }
    }
}
