// What arguments and rows read as, and what is printed.
use crate::log::entry_of;
use crate::options::{Command, Options, read_command};
use crate::report::EntryLine;
use crate::row::{NotRead, read_row};
use crate::shown::{Timestamp, unit_name};
use calendar::{Cause, Fault, Layer};
use std::alloc::{AllocError, Global};
use std::test::Fail;
use truncation::{Granularity, TimeUnit};

// What a command line asks for, in words.
fn asked(heap: Global, line: &str) -> Result<String, AllocError> {
    let mut words = Vec::new(heap);
    for word in line.split_whitespace() {
        words.push(String::from_str(heap, word)?)?;
    }
    match read_command(words.as_slice()) {
        Ok(Command::Help) => String::from_str(heap, "help"),
        Ok(Command::File(options)) => {
            let granularity = options.granularity.name();
            let unit = unit_name(options.unit);
            format!(in heap; "{granularity} {unit}")
        }
        Err(bad) => format!(in heap; "{bad}"),
    }
}

#[test]
fn reads_arguments(rt: HostRuntime) -> Result<(), Fail> {
    let cases = [
        ("--granularity WEEK", "week seconds"),
        ("--unit us --granularity quarter", "quarter microseconds"),
        ("--unit ns --help", "help"),
        ("", "--granularity is missing"),
        ("--unit", "--unit wants a value"),
        ("--granularity --unit s", "--granularity wants a value"),
        ("--granularity day --unit h", "unknown unit: \"h\""),
        ("--zone utc", "unknown option: \"--zone\""),
        (
            "--granularity decade",
            "refused: 1 truncation: the name is none of the ten granularities: \"decade\"",
        ),
    ];
    for (line, want) in cases {
        let text = asked(rt.alloc(), line)?;
        assert_eq!(rt; text.as_str(), want);
    }
    Ok(())
}

const S: TimeUnit = TimeUnit::Second;

const MS: TimeUnit = TimeUnit::Millisecond;

const NS: TimeUnit = TimeUnit::Nanosecond;

#[test]
fn reads_rows(rt: HostRuntime) {
    let no_date = NotRead::NoSuchDate(Fault::found(Cause::OutsideSpan, Layer::Calendar));
    let half = "2000-02-29T06:00:00.5Z";
    let last = "2262-04-11T23:47:16.854775807Z";
    let past = "2262-04-11T23:47:16.854775808Z";
    let cases = [
        (S, "-", Ok(None)),
        (S, "-14182940", Ok(Some(-14_182_940))),
        (S, "9223372036854775807", Ok(Some(i64::MAX))),
        (S, "9223372036854775808", Err(NotRead::NumberTooBig)),
        (S, "2024-02-29", Ok(Some(1_709_164_800))),
        (S, "1969-07-20T20:17:40Z", Ok(Some(-14_182_940))),
        (MS, half, Ok(Some(951_804_000_500))),
        (S, half, Err(NotRead::FinerThanUnit)),
        (NS, last, Ok(Some(i64::MAX))),
        (NS, past, Err(NotRead::OutsideUnit)),
        (S, "2023-02-29", Err(no_date)),
        (S, "0000-01-01", Err(no_date)),
        (S, "2024-02-29T24:00Z", Err(NotRead::NoSuchTime)),
        (S, "2024-02-29T12:34", Err(NotRead::NoRow)),
        (S, "2024-02-29T12:34:56.Z", Err(NotRead::NoRow)),
        (S, "", Err(NotRead::NoRow)),
    ];
    for (unit, text, want) in cases {
        assert_eq!(rt; read_row(unit, text), want, "{}", text);
    }
}

#[test]
fn shows_instants(rt: HostRuntime) -> Result<(), Fail> {
    let cases = [
        (TimeUnit::Second, 0, "1970-01-01T00:00:00Z"),
        (TimeUnit::Second, -1, "1969-12-31T23:59:59Z"),
        (
            TimeUnit::Millisecond,
            951_804_000_500,
            "2000-02-29T06:00:00.500Z",
        ),
        (
            TimeUnit::Microsecond,
            1_709_164_800_000_007,
            "2024-02-29T00:00:00.000007Z",
        ),
        (
            TimeUnit::Nanosecond,
            i64::MIN,
            "1677-09-21T00:12:43.145224192Z",
        ),
        (
            TimeUnit::Nanosecond,
            i64::MAX,
            "2262-04-11T23:47:16.854775807Z",
        ),
    ];
    for (unit, value, want) in cases {
        let Some(shown) = (Timestamp { unit, value }).instant() else {
            return Err(Fail::new("does not scale"));
        };
        let text = format!(in rt.alloc(); "{shown}")?;
        assert_eq!(rt; text.as_str(), want);
    }
    let last = Timestamp {
        unit: TimeUnit::Second,
        value: i64::MAX,
    };
    assert!(rt; last.instant().is_none());
    Ok(())
}

#[test]
fn prints_entries(rt: HostRuntime) -> Result<(), Fail> {
    let options = Options {
        granularity: Granularity::Week,
        unit: TimeUnit::Second,
    };
    let cases: [(&[u8], &str); 5] = [
        (
            b" 2024-02-29 \r",
            "    7            1709164800  2024-02-29T00:00:00Z            1708905600  2024-02-26T00:00:00Z",
        ),
        (b"-", "    7                 empty"),
        (
            b"9223372037",
            "    7            9223372037                        refused: 3 truncation: the value does not scale to 64-bit nanoseconds",
        ),
        (
            b"night",
            "    7  not read: \"night\": neither a number nor an instant",
        ),
        (b"\xff", "    7  not read: the line is not UTF-8 text"),
    ];
    for (line, want) in cases {
        let entry = entry_of(options, line).ok_or("skipped")?;
        let shown = EntryLine {
            number: 7,
            unit: TimeUnit::Second,
            entry,
        };
        let text = format!(in rt.alloc(); "{shown}")?;
        assert_eq!(rt; text.as_str(), want);
    }
    assert!(rt; entry_of(options, b"# \xff").is_none() && entry_of(options, b" \r").is_none());
    Ok(())
}
