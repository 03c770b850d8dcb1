//! What command lines ask for.

use super::check;
use rs_options::{CommandLine, WordsFault, read_command_line};
use std::alloc::{AllocError, Global};
use std::test::Fail;

// Command lines without the program's name: the defaults, the greatest values, the least, and a row for each fault.
const LINES: [&str; 18] = [
    "--config c --out d",
    "--config=c.toml --out=d/ --time 4294967295 --ring 65536 --shards 16 --until 4294967295",
    "--out d --config c --time 0 --ring 1 --shards 1 --until 1970-01-01T00:00:07Z",
    "--config c --out d --errors rfc7606 --tail lenient --losses inferred --strict-after",
    "--config c --out d --strict --strict-after",
    "--version",
    "--config c",
    "--config c --out=",
    "--config c --config c --out d",
    "--config c --out d more",
    "--config c --out d --time 4294967296",
    "--config c --out d --ring 65537",
    "--config c --out d --shards 0",
    "--config c --out d --shards 17",
    "--config c --out d --errors RFC7606",
    "--config c --out d --until soon",
    "--config c --out d --tail Strict",
    "--config c --out d --losses all",
];

// What they come to: what is asked for, or the first line of the fault.
const ANSWERS: &str = "c d 0 1024 1 Rfc4271 Bounds { until: None, tail: Strict } Recorded Off
c.toml d/ 4294967295 65536 16 Rfc4271 Bounds { until: Some(4294967295), tail: Strict } Recorded Off
c d 0 1 1 Rfc4271 Bounds { until: Some(7), tail: Strict } Recorded Off
c d 0 1024 1 Rfc7606 Bounds { until: None, tail: Lenient } Inferred AfterWriting
c d 0 1024 1 Rfc4271 Bounds { until: None, tail: Strict } Recorded BeforeWriting
route_server 1.0.0
error: the following required arguments were not provided:
error: a value is required for '--out <DIR>' but none was supplied
error: the argument '--config <FILE>' cannot be used multiple times
error: unexpected argument 'more' found
error: invalid value '4294967296' for '--time <N>': 4294967296 is not in 0..=4294967295
error: invalid value '65537' for '--ring <N>': 65537 is not in 1..=65536
error: invalid value '0' for '--shards <N>': 0 is not in 1..=16
error: invalid value '17' for '--shards <N>': 17 is not in 1..=16
error: the value of '--errors <STANDARD>' is neither 'rfc4271' nor 'rfc7606'
error: the value of '--until <TIME>' is neither seconds since 1970 nor as '2026-11-22T06:36:20Z'
error: the value of '--tail <TAIL>' is neither 'strict' nor 'lenient'
error: the value of '--losses <LOSSES>' is neither 'recorded' nor 'inferred'
";

/// The words of a command line, behind the program's name.
pub fn words(alloc: Global, line: &str) -> Result<Vec<String>, AllocError> {
    let mut words = Vec::new(alloc);
    words.push(String::from_str(alloc, "route_server")?)?;
    for word in line.split_whitespace() {
        words.push(String::from_str(alloc, word)?)?;
    }
    Ok(words)
}

// Appends what a command line asks for.
fn add_line(text: &mut String, line: &CommandLine) -> Result<(), AllocError> {
    let (options, reading, strict) = (&line.options, line.reading, line.strict);
    let (config, out, time) = (&options.config, &options.out, options.time);
    let (ring, shards, errors) = (options.ring, options.shards, options.errors);
    let (bounds, losses) = (reading.bounds, reading.losses);
    writeln!(
        text,
        "{config} {out} {time} {ring} {shards} {errors:?} {bounds:?} {losses:?} {strict:?}"
    )
}

// Appends the first line of a fault.
fn add_fault(text: &mut String, fault: &WordsFault) -> Result<(), AllocError> {
    let shown = match fault {
        WordsFault::Help(shown) | WordsFault::Refused(shown) => shown.as_str(),
        WordsFault::Memory => "memory",
    };
    let first = shown.lines().next().unwrap_or("");
    writeln!(text, "{first}")
}

#[test]
fn command_lines_are_read_or_refused(rt: HostRuntime) -> Result<(), Fail> {
    let alloc = rt.alloc();
    let mut text = String::new(alloc);
    for line in &LINES {
        match read_command_line(alloc, words(alloc, line)?) {
            Ok(line) => add_line(&mut text, &line)?,
            Err(fault) => add_fault(&mut text, &fault)?,
        }
    }
    check(&text, ANSWERS, "command lines")
}
