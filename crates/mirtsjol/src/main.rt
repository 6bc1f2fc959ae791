//! Reads a book and answers each of its lines.
#![tactic(auto)]

mod judge;
mod lines_of;
mod refusal;
mod session;
mod text;

ghost use Rattle.std.specs.Prelude.{◌≡◌, codes};
ghost use Rattle.std.specs.Str.{bytes_eq};

use lines_of::Lines;
use session::Session;
use std::io::{BufWriter, Read, Write};
use std::process::ExitCode;
use std::{env, fs, io};

/// What the program is called with.
const USAGE: &str = "usage: mirtsjol read [FILE]";

/// The bytes of the file, or of standard input where no file is given.
fn input(rt: &HostRuntime, file: Option<String>) -> io::Result<Vec<u8>> {
    match file {
        Some(path) => fs::read(rt, path.as_str()),
        None => {
            let mut bytes = Vec::new(rt.alloc());
            rt.stdin().read_to_end(&mut bytes)?;
            Ok(bytes)
        }
    }
}

/// Answers the lines of an input on standard output.
fn answer_lines(rt: &HostRuntime, input: &[u8]) -> anyhow::Result<()> {
    let mut session = Session::new(rt.alloc())?;
    let mut out = BufWriter::new(rt.alloc(), rt.stdout())?;
    let mut text = String::new(rt.alloc());
    for line in Lines::new(input) {
        text.clear();
        session.tell(line, &mut text)?;
        out.write_all(text.as_bytes())?;
    }
    out.flush()?;
    Ok(())
}

/// Answers the lines of the file, or of standard input where no file is given.
fn read_book(rt: &HostRuntime, file: Option<String>) -> anyhow::Result<()> {
    let bytes = input(rt, file)?;
    answer_lines(rt, bytes.as_slice())
}

/// Whether the word is the command `read`.
fn is_read(word: &str) -> bool
    ensures { result ≡ bytes_eq word.now (codes "read") }
{
    word == "read"
}

/// Runs the command that the arguments ask for; another is a failure, with the usage on standard error.
fn run(rt: &HostRuntime) -> anyhow::Result<ExitCode> {
    let mut args = env::args(rt)?;
    let _program = args.next();
    let asked = args.next().is_some_and(|word| is_read(word.as_str()));
    let file = args.next();
    if asked && args.next().is_none() {
        read_book(rt, file)?;
        return Ok(ExitCode::SUCCESS);
    }
    eprintln!(rt; "{USAGE}")?;
    Ok(ExitCode::FAILURE)
}

fn main(rt: HostRuntime) -> anyhow::Result<ExitCode> {
    run(&rt)
}
