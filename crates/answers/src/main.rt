// Answers requests, one a line, from standard input to standard output.
#![tactic(auto)]

mod answer;
mod dates;
mod names;
mod refusal;
mod request;
mod times;
mod timestamps;
mod words;

use refusal::Refusal;
use request::answer;
use std::io;
use std::io::{BufRead, BufReader, BufWriter, Write};
use words::Words;

fn main(rt: HostRuntime) -> io::Result<()> {
    let heap = rt.alloc();
    let mut out = BufWriter::new(heap, rt.stdout())?;
    for line in BufReader::new(heap, rt.stdin())?.split(heap, b'\n') {
        let line = line?;
        match answer(Words::of(heap, line.as_slice())) {
            Ok(answer) => writeln!(out, "{answer}")?,
            Err(Refusal::NoMemory(e)) => return Err(e.into()),
            Err(refusal) => writeln!(out, "{refusal}")?,
        }
    }
    out.flush()
}
