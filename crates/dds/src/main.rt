//! The program: its words, standard input and standard output.
#![tactic(auto)]

use dds_base::std_edge::{StdSink, StdSource};
use dds_cli::steps::run_steps;
use dds_ends::end::End;
use dds_ends::telling::tell;
use std::io::{BufWriter, ErrorKind};
use std::process::ExitCode;
use std::{env, io};

fn main(rt: HostRuntime) -> ExitCode {
    let end = match command(&rt) {
        Ok(end) => end,
        Err(_) => End::Memory,
    };
    let _ = tell(&rt, end);
    ExitCode::from(end.status())
}

/// Carries out the program's words. Only want of memory for the words or for the output's buffer is an error here.
fn command(rt: &HostRuntime) -> io::Result<End> {
    let Some(words) = words(rt)? else {
        return Ok(End::Usage);
    };
    let mut source = StdSource::new(rt.stdin());
    let mut sink = StdSink::new(BufWriter::new(rt.alloc(), rt.stdout())?);
    let end = run_steps(rt.alloc(), words.as_slice(), &mut source, &mut sink).end;
    Ok(match (end, sink.flush()) {
        (End::Finished, Err(_)) => End::WriteFault,
        (end, _) => end,
    })
}

/// The program's words, where all of them are UTF-8.
fn words(rt: &HostRuntime) -> io::Result<Option<Vec<String>>> {
    let args = match env::args(rt) {
        Ok(args) => args,
        Err(error) => {
            return match error.kind() {
                ErrorKind::InvalidData => Ok(None),
                _ => Err(error),
            };
        }
    };
    let mut words = Vec::new(rt.alloc());
    for word in args.skip(1) {
        words.push(word)?;
    }
    Ok(Some(words))
}
