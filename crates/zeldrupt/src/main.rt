// Runs a script of commands on a volume, a line each, and prints each command with its answer.
#![tactic(auto)]

mod answer;
mod fault;
mod lists;
mod memory;
mod session;

use script::command::parse;
use script::error::ScriptError;
use script::line::uncomment;
use session::Session;
use std::fs::File;
use std::io::{BufRead, BufReader, BufWriter, Write};
use std::str::from_utf8;
use std::{env, io};

// Prints a line's command with its answer; a blank line prints nothing.
fn print_answer<W: Write + Drop>(
    rt: &HostRuntime,
    session: &mut Session,
    bytes: &[u8],
    out: &mut BufWriter<W>,
) -> io::Result<()> {
    let Ok(line) = from_utf8(bytes) else {
        return writeln!(out, "?: error: not text");
    };
    let command = uncomment(line).trim();
    // parsed here, and not by the session: a line with no command then makes no answer and no fault
    match parse(line) {
        Ok(spoken) => match session.answer(rt, spoken) {
            Ok(answer) => writeln!(out, "{command}: {answer}"),
            Err(fault) => writeln!(out, "{command}: {fault}"),
        },
        Err(ScriptError::Blank) => Ok(()),
        Err(error) => writeln!(out, "{command}: error: {error}"),
    }
}

// One row for every line, and not `split`, which makes a new one for each: that is two to three times the reading of a line.
fn run<B: BufRead + Drop>(rt: &HostRuntime, mut input: B) -> io::Result<()> {
    let mut out = BufWriter::new(rt.alloc(), rt.stdout())?;
    let mut session = Session::new(rt.alloc());
    let mut line: Vec<u8> = Vec::new(rt.alloc());
    for _ in 0..u64::MAX {
        line.clear();
        if input.read_until(b'\n', &mut line)? == 0 {
            break;
        }
        print_answer(rt, &mut session, line.as_slice(), &mut out)?;
    }
    out.flush()
}

fn main(rt: HostRuntime) -> io::Result<()> {
    match env::args(&rt)?.nth(1) {
        Some(path) => run(
            &rt,
            BufReader::new(rt.alloc(), File::open(&rt, path.as_str())?)?,
        ),
        None => run(&rt, BufReader::new(rt.alloc(), rt.stdin())?),
    }
}
