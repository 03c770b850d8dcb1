//! Reads the words of the command line, with `clap`.

ghost use Rattle.std.specs.Prelude.{◌≡◌, [], IfErr, IfOk, IfSome, OnOk, Some, codes, map, string_bytes};
ghost use Rattle.clap.specs.Words.{first_of, found_of, kind_of, rows_of};
ghost use Rattle.rs_options.specs.CommandLine.{AreOptionsOf, HoldBounds, HoldCommandLine, HoldOptions, HoldReading};
ghost use Rattle.rs_options.specs.CommandLine.{HoldStrict, IsCommandLineOf, IsTime, IsToldAs, SaysWhy, faults_in};
ghost use Rattle.rs_options.specs.CommandLine.{losses_name, strict_by, tail_name};
ghost use Rattle.rs_options.specs.Standard.{standard_name};

use crate::command::program;
use crate::options::{CommandLine, Options, Strictness, WordsFault};
use crate::standard::standard_of;
use crate::times::read_time;
use clap::error::ErrorKind;
use clap::{ArgMatches, Error};
use rs_mrt::{Bounds, FileReading, Losses, Tail};
use rs_update::Errors;
use std::alloc::Global;

// The text if an option has no value.
const INCOMPLETE: &str = "error: an option has no value\n";

// The text if the value of `--errors` names no standard.
const NO_STANDARD: &str =
    "error: the value of '--errors <STANDARD>' is neither 'rfc4271' nor 'rfc7606'

For more information, try '--help'.
";

// The text if the value of `--until` is no time.
const NO_TIME: &str =
    "error: the value of '--until <TIME>' is neither seconds since 1970 nor as '2026-11-22T06:36:20Z'

For more information, try '--help'.
";

// The text if the value of `--tail` is no way to read the end of a file.
const NO_TAIL: &str = "error: the value of '--tail <TAIL>' is neither 'strict' nor 'lenient'

For more information, try '--help'.
";

// The text if the value of `--losses` names no losses.
const NO_LOSSES: &str =
    "error: the value of '--losses <LOSSES>' is neither 'recorded' nor 'inferred'

For more information, try '--help'.
";

/// Reads the words of the command line, which begin with the program's own name: `--config FILE --out DIR [--time N]
/// [--ring N] [--shards N] [--errors rfc4271|rfc7606] [--until TIME] [--tail strict|lenient]
/// [--losses recorded|inferred] [--strict] [--strict-after]`.
///
/// DIR isn't empty. The time is from 0 to 4,294,967,295, the ring from 1 to 65,536, the shards from 1 to 16. TIME is as
/// `read_time` takes it. Defaults: the time is TIME, or 0 without it; the ring 1,024, the shards 1, the standard RFC
/// 4271, the tail strict, the losses those recorded. If both flags are given, `--strict` counts.
///
/// Answers `Help` where help or the version is asked for, with the text of `clap`. Answers `Refused` if the words
/// aren't such, with the text of `clap`, or one of our own where `--errors`, `--until`, `--tail` or `--losses` has no
/// such value. Answers `Memory` if memory is refused.
pub fn read_command_line(alloc: Global, words: Vec<String>) -> Result<CommandLine, WordsFault>
    ensures line { IfOk result (λ line. IsCommandLineOf (map string_bytes words.items) line) }
    ensures taken { OnOk result (faults_in (map string_bytes words.items) ≡ []) }
    ensures refused { IfErr result (SaysWhy (faults_in (map string_bytes words.items))) }
{
    match program(alloc)?.try_get_matches_from(words.as_slice()) {
        Ok(matches) => command_line_of(alloc, &matches),
        Err(error) => Err(fault_of(alloc, &error)),
    }
}

/// Reads the same words, and gives of what they ask for only what a run is given. It takes and refuses what
/// `read_command_line` does.
pub fn read_words(alloc: Global, words: Vec<String>) -> Result<Options, WordsFault>
    ensures options { IfOk result (λ options. AreOptionsOf (map string_bytes words.items) options) }
    ensures taken { OnOk result (faults_in (map string_bytes words.items) ≡ []) }
    ensures refused { IfErr result (SaysWhy (faults_in (map string_bytes words.items))) }
{
    match read_command_line(alloc, words) {
        Ok(line) => Ok(line.options),
        Err(fault) => Err(fault),
    }
}

// What the matches ask for. `clap` gives a value to each option that is needed or has a default, and numbers are within
// their limits. So only memory is refused here, and a word that names no standard, no tail, no time and no losses.
fn command_line_of(alloc: Global, matches: &ArgMatches<'_>) -> Result<CommandLine, WordsFault>
    ensures line { IfOk result (HoldCommandLine (rows_of (found_of matches.now))) }
    ensures refused { IfErr result (SaysWhy []) }
{
    let errors = errors_in(alloc, matches)?;
    let reading = reading_in(alloc, matches)?;
    let options = options_of(alloc, matches, errors, reading.bounds.until)?;
    let strict = strict_in(matches);
    Ok(CommandLine {
        options,
        reading,
        strict,
    })
}

// What a run is given, with the standard that the matches name. A time up to which files are read is the default of
// that of the dumps.
fn options_of(
    alloc: Global,
    matches: &ArgMatches<'_>,
    errors: Errors,
    until: Option<u32>,
) -> Result<Options, WordsFault>
    requires { first_of (codes "errors") (rows_of (found_of matches.now)) ≡ Some (standard_name errors) }
    ensures options { IfOk result (HoldOptions (rows_of (found_of matches.now)) until) }
    ensures refused { IfErr result (SaysWhy []) }
{
    let (Some(config), Some(out)) = (matches.get_str("config"), matches.get_str("out")) else {
        return Err(WordsFault::Refused(String::from_str(alloc, INCOMPLETE)?));
    };
    let (Some(ring @ 1..=65_536), Some(shards @ 1..=16)) = (
        matches.get_one::<usize>("ring"),
        matches.get_one::<usize>("shards"),
    ) else {
        return Err(WordsFault::Refused(String::from_str(alloc, INCOMPLETE)?));
    };
    let time = time_of(alloc, matches, until.unwrap_or(0))?;
    let config = String::from_str(alloc, config)?;
    let out = String::from_str(alloc, out)?;
    Ok(Options {
        config,
        out,
        time,
        ring,
        shards,
        errors,
    })
}

// The standard by which faults are handled.
fn errors_in(alloc: Global, matches: &ArgMatches<'_>) -> Result<Errors, WordsFault>
    ensures errors { IfOk result (λ errors.
        first_of (codes "errors") (rows_of (found_of matches.now)) ≡ Some (standard_name errors)) }
    ensures refused { IfErr result (SaysWhy []) }
{
    let Some(name) = matches.get_str("errors") else {
        return Err(WordsFault::Refused(String::from_str(alloc, INCOMPLETE)?));
    };
    match standard_of(name) {
        Some(errors) => Ok(errors),
        None => Err(WordsFault::Refused(String::from_str(alloc, NO_STANDARD)?)),
    }
}

// How each file is read.
fn reading_in(alloc: Global, matches: &ArgMatches<'_>) -> Result<FileReading, WordsFault>
    ensures reading { IfOk result (HoldReading (rows_of (found_of matches.now))) }
    ensures refused { IfErr result (SaysWhy []) }
{
    let bounds = bounds_of(alloc, matches)?;
    let losses = losses_in(alloc, matches)?;
    Ok(FileReading { bounds, losses })
}

// The Timestamp of the records written: that of the words, or else this one.
fn time_of(alloc: Global, matches: &ArgMatches<'_>, default: u32) -> Result<u32, WordsFault>
    ensures time { IfOk result (IsTime (rows_of (found_of matches.now)) default) }
    ensures refused { IfErr result (SaysWhy []) }
{
    let Some(_) = matches.get_str("time") else {
        return Ok(default);
    };
    match matches.get_one::<u32>("time") {
        Some(time) => Ok(time),
        None => Err(WordsFault::Refused(String::from_str(alloc, INCOMPLETE)?)),
    }
}

// How much of each file is read.
fn bounds_of(alloc: Global, matches: &ArgMatches<'_>) -> Result<Bounds, WordsFault>
    ensures bounds { IfOk result (HoldBounds (rows_of (found_of matches.now))) }
    ensures refused { IfErr result (SaysWhy []) }
{
    let Some(name) = matches.get_str("tail") else {
        return Err(WordsFault::Refused(String::from_str(alloc, INCOMPLETE)?));
    };
    let Some(tail) = tail_of(name) else {
        return Err(WordsFault::Refused(String::from_str(alloc, NO_TAIL)?));
    };
    let Some(text) = matches.get_str("until") else {
        return Ok(Bounds { until: None, tail });
    };
    match read_time(text) {
        Some(time) => Ok(Bounds {
            until: Some(time),
            tail,
        }),
        None => Err(WordsFault::Refused(String::from_str(alloc, NO_TIME)?)),
    }
}

// Which losses count.
fn losses_in(alloc: Global, matches: &ArgMatches<'_>) -> Result<Losses, WordsFault>
    ensures losses { IfOk result (λ losses.
        first_of (codes "losses") (rows_of (found_of matches.now)) ≡ Some (losses_name losses)) }
    ensures refused { IfErr result (SaysWhy []) }
{
    let Some(name) = matches.get_str("losses") else {
        return Err(WordsFault::Refused(String::from_str(alloc, INCOMPLETE)?));
    };
    match losses_of(name) {
        Some(losses) => Ok(losses),
        None => Err(WordsFault::Refused(String::from_str(alloc, NO_LOSSES)?)),
    }
}

/// The losses that a word of a command line names: `recorded` or `inferred`; none if it is another word.
pub fn losses_of(name: &str) -> Option<Losses>
    ensures { IfSome result (λ losses. name.now ≡ losses_name losses) }
{
    match name {
        "recorded" => Some(Losses::Recorded),
        "inferred" => Some(Losses::Inferred),
        _ => None,
    }
}

// What becomes of a run that isn't clean.
fn strict_in(matches: &ArgMatches<'_>) -> Strictness
    ensures { HoldStrict (rows_of (found_of matches.now)) result }
{
    strict_by(matches.get_flag("strict"), matches.get_flag("strict-after"))
}

// The same, by the two flags.
fn strict_by(before: bool, after: bool) -> Strictness
    ensures { result ≡ strict_by before after }
{
    if before {
        Strictness::BeforeWriting
    } else if after {
        Strictness::AfterWriting
    } else {
        Strictness::Off
    }
}

// What becomes of a record that is cut short, by its name.
fn tail_of(name: &str) -> Option<Tail>
    ensures { IfSome result (λ tail. name.now ≡ tail_name tail) }
{
    match name {
        "strict" => Some(Tail::Strict),
        "lenient" => Some(Tail::Lenient),
        _ => None,
    }
}

// Why the words ask for nothing that can be done, with the text of `clap`.
fn fault_of(alloc: Global, error: &Error) -> WordsFault
    ensures { IsToldAs (kind_of error.now) result }
{
    let Ok(text) = error.to_string(alloc) else {
        return WordsFault::Memory;
    };
    match error.kind() {
        ErrorKind::OutOfMemory => WordsFault::Memory,
        ErrorKind::DisplayHelp => WordsFault::Help(text),
        ErrorKind::DisplayVersion => WordsFault::Help(text),
        _ => WordsFault::Refused(text),
    }
}
