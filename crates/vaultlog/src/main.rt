// Files a log of lock events under calendar time buckets, and prints what was filed.
#![tactic(auto)]

mod buckets;
mod instant;
mod log;
mod options;
mod report;
mod row;
mod shown;
#[cfg(test)]
mod tests;

use log::{Log, entry_of};
use options::{Command, Options, USAGE, read_command};
use report::{BucketHeading, BucketLine, EntryLine, Heading, TotalsLine};
use shown::Timestamp;
use std::io::{BufRead, BufReader};
use std::process::ExitCode;
use std::{env, io};

// Reads the log, files each row, and prints what became of each line.
fn file_log(rt: &HostRuntime, options: Options) -> anyhow::Result<Log> {
    let unit = options.unit;
    let mut log = Log::new(rt.alloc());
    let lines = BufReader::new(rt.alloc(), rt.stdin())?.split(rt.alloc(), b'\n');
    for (number, line) in (1u64..).zip(lines) {
        let line = line?;
        if let Some(entry) = entry_of(options, line.as_slice()) {
            log.file(entry.outcome)?;
            rt.println(EntryLine {
                number,
                unit,
                entry,
            })?;
        }
    }
    Ok(log)
}

fn print_buckets(rt: &HostRuntime, options: Options, log: &Log) -> io::Result<()> {
    let unit = options.unit;
    rt.println(BucketHeading(unit))?;
    for (&value, &count) in log.buckets.iter() {
        let start = Timestamp { unit, value };
        rt.println(BucketLine { start, count })?;
    }
    rt.println(TotalsLine(log.totals))
}

fn run(rt: &HostRuntime, options: Options) -> anyhow::Result<()> {
    rt.println(Heading(options))?;
    let log = file_log(rt, options)?;
    print_buckets(rt, options, &log)?;
    Ok(())
}

fn arguments(rt: &HostRuntime) -> anyhow::Result<Vec<String>> {
    Ok(env::args(rt)?.skip(1).collect(rt.alloc())?)
}

fn main(rt: HostRuntime) -> anyhow::Result<ExitCode> {
    let words = arguments(&rt)?;
    match read_command(words.as_slice()) {
        Ok(Command::Help) => rt.println(USAGE)?,
        Ok(Command::File(options)) => run(&rt, options)?,
        Err(bad) => {
            eprintln!(rt; "vaultlog: {bad}\n{}", bad.advice())?;
            return Ok(ExitCode::FAILURE);
        }
    }
    Ok(ExitCode::SUCCESS)
}
