//! The arguments of the command line.

ghost use Rattle.std.specs.Prelude.{◌≡◌, Some, None, option_map, IfOk, MatchResult};
ghost use Rattle.std.specs.String.{string_bytes};
ghost use Rattle.cli_inputs.specs.Words as asking;

use thiserror::Error;

/// The most workers of a workload.
const MOST_WORKERS: u32 = 200;

/// How a run is reported.
#[derive(Clone, Copy, Debug, PartialEq, Eq)]
pub enum RunFlag {
    /// Its report is written on the output.
    Plain,
    /// Its schedule is written on the output, and its report on the error stream.
    Schedule,
    /// Its report is written on the output, and then the counts of the caches of rights.
    Stats,
}

/// What is asked of a trace.
#[derive(Clone, Copy, Debug, PartialEq, Eq)]
pub enum Query {
    /// What is accessed under a procedure, and how.
    Accessed,
    /// The procedures that access an item.
    Users,
    /// The items that are written under a procedure.
    Written,
}

/// A command, with the names of its files.
#[derive(Clone, Copy, Debug)]
pub enum Command<'a> {
    /// To run an image and write the report.
    Run {
        image: &'a str,
        flag: RunFlag,
    },
    /// To list the text of an image.
    Show {
        image: &'a str,
    },
    /// To make an image of a partition and write it.
    Build {
        part: &'a str,
    },
    /// To join an ELF file and a partition to an image and write it.
    Link {
        elf: &'a str,
        part: &'a str,
    },
    /// To replay a schedule over an image and write the report.
    Replay {
        image: &'a str,
        schedule: &'a str,
    },
    /// To replay a schedule over an image and write the trace.
    Log {
        image: &'a str,
        schedule: &'a str,
    },
    /// To replay a schedule over an image, and write the report and the accesses that the sheets derived from a
    /// trace do not permit.
    Emulate {
        image: &'a str,
        schedule: &'a str,
        trace: &'a str,
    },
    /// To replay a schedule over an image, and write the report if the sheets derived from a trace permit every
    /// access.
    Enforce {
        image: &'a str,
        schedule: &'a str,
        trace: &'a str,
    },
    /// To derive the sheets that a trace needs and write them.
    Derive {
        trace: &'a str,
    },
    /// To answer a query of a trace, about the procedure or the item of a name.
    Analyze {
        trace: &'a str,
        query: Query,
        name: &'a str,
    },
    /// To run the workload of 1 to 200 workers and write the line that sums it up.
    Gen {
        workers: u32,
    },
}

/// The names of an image, a schedule and a trace.
#[derive(Clone, Copy, Debug)]
struct ThreeFiles<'a> {
    image: &'a str,
    schedule: &'a str,
    trace: &'a str,
}

/// Why arguments are no command.
#[derive(Clone, Copy, Debug, PartialEq, Eq, Error)]
pub enum WordsFault {
    /// They have not the form of any command.
    #[error("usage")]
    Usage,
}

/// Returns the command of the arguments after the program's name. An argument that is empty or begins with `-` names
/// no file. `Usage` where they are no command.
pub fn read_words(words: &[String]) -> Result<Command<'_>, WordsFault>
    ensures asked { MatchResult result
        (λ c. asking.command_of (asking.texts words.now) ≡ Some (asking.asked_by c))
        (λ _. asking.command_of (asking.texts words.now) ≡ None) }
    // The number of workers of a workload is from 1 to 200.
    ensures workers { IfOk result (λ c. asking.HasFitWorkers (asking.asked_by c)) }
{
    match command_in(words) {
        Some(command) => Ok(command),
        None => Err(WordsFault::Usage),
    }
}

/// The command of arguments.
fn command_in(words: &[String]) -> Option<Command<'_>>
    ensures { option_map asking.asked_by result ≡ asking.command_of (asking.texts words.now) }
{
    let (command, arguments) = words.split_first()?;
    match command.as_str() {
        "run" => run_in(arguments),
        "show" => show_in(arguments),
        "build" => build_in(arguments),
        "link" => link_in(arguments),
        "replay" => replay_in(arguments),
        "log" => log_in(arguments),
        "emulate" => emulate_in(arguments),
        "enforce" => enforce_in(arguments),
        "derive" => derive_in(arguments),
        "analyze" => analyze_in(arguments),
        "gen" => gen_in(arguments),
        _ => None,
    }
}

/// The command of the arguments after `run`: an image, and a flag before it or after it.
fn run_in(arguments: &[String]) -> Option<Command<'_>>
    ensures { option_map asking.asked_by result ≡ asking.run_of (asking.texts arguments.now) }
{
    match arguments {
        [image] => run_with(image, RunFlag::Plain),
        [one, other] => match (flag_in(one), flag_in(other)) {
            (Some(flag), _) => run_with(other, flag),
            (None, Some(flag)) => run_with(one, flag),
            (None, None) => None,
        },
        _ => None,
    }
}

/// A run of an image with a flag.
fn run_with(image: &String, flag: RunFlag) -> Option<Command<'_>>
    ensures { option_map asking.asked_by result ≡ asking.run_with flag (string_bytes image.now) }
{
    if !is_plain(image.as_str()) {
        return None;
    }
    Some(Command::Run {
        image: image.as_str(),
        flag,
    })
}

/// The flag that an argument is.
fn flag_in(argument: &String) -> Option<RunFlag>
    ensures { result ≡ asking.flag_of (string_bytes argument.now) }
{
    match argument.as_str() {
        "--schedule" => Some(RunFlag::Schedule),
        "--stats" => Some(RunFlag::Stats),
        _ => None,
    }
}

/// The command of the arguments after `show`.
fn show_in(arguments: &[String]) -> Option<Command<'_>>
    ensures { option_map asking.asked_by result ≡ asking.show_of (asking.texts arguments.now) }
{
    let image = file_in(arguments)?;
    Some(Command::Show { image })
}

/// The command of the arguments after `build`.
fn build_in(arguments: &[String]) -> Option<Command<'_>>
    ensures { option_map asking.asked_by result ≡ asking.build_of (asking.texts arguments.now) }
{
    let part = file_in(arguments)?;
    Some(Command::Build { part })
}

/// The command of the arguments after `link`.
fn link_in(arguments: &[String]) -> Option<Command<'_>>
    ensures { option_map asking.asked_by result ≡ asking.link_of (asking.texts arguments.now) }
{
    match arguments {
        [elf, part] if is_plain(elf.as_str()) && is_plain(part.as_str()) => Some(Command::Link {
            elf: elf.as_str(),
            part: part.as_str(),
        }),
        _ => None,
    }
}

/// The command of the arguments after `replay`.
fn replay_in(arguments: &[String]) -> Option<Command<'_>>
    ensures { option_map asking.asked_by result
        ≡ asking.replay_command (asking.texts arguments.now) }
{
    match arguments {
        [image, schedule] if is_plain(image.as_str()) && is_plain(schedule.as_str()) => {
            Some(Command::Replay {
                image: image.as_str(),
                schedule: schedule.as_str(),
            })
        }
        _ => None,
    }
}

/// The command of the arguments after `log`.
fn log_in(arguments: &[String]) -> Option<Command<'_>>
    ensures { option_map asking.asked_by result
        ≡ asking.log_command (asking.texts arguments.now) }
{
    match arguments {
        [image, schedule] if is_plain(image.as_str()) && is_plain(schedule.as_str()) => {
            Some(Command::Log {
                image: image.as_str(),
                schedule: schedule.as_str(),
            })
        }
        _ => None,
    }
}

/// The command of the arguments after `emulate`.
fn emulate_in(arguments: &[String]) -> Option<Command<'_>>
    ensures { option_map asking.asked_by result
        ≡ asking.emulate_command (asking.texts arguments.now) }
{
    let ThreeFiles {
        image,
        schedule,
        trace,
    } = three_files_in(arguments)?;
    Some(Command::Emulate {
        image,
        schedule,
        trace,
    })
}

/// The command of the arguments after `enforce`.
fn enforce_in(arguments: &[String]) -> Option<Command<'_>>
    ensures { option_map asking.asked_by result
        ≡ asking.enforce_command (asking.texts arguments.now) }
{
    let ThreeFiles {
        image,
        schedule,
        trace,
    } = three_files_in(arguments)?;
    Some(Command::Enforce {
        image,
        schedule,
        trace,
    })
}

/// The command of the arguments after `derive`.
fn derive_in(arguments: &[String]) -> Option<Command<'_>>
    ensures { option_map asking.asked_by result ≡ asking.derive_of (asking.texts arguments.now) }
{
    let trace = file_in(arguments)?;
    Some(Command::Derive { trace })
}

/// The command of the arguments after `analyze`.
fn analyze_in(arguments: &[String]) -> Option<Command<'_>>
    ensures { option_map asking.asked_by result ≡ asking.analyze_of (asking.texts arguments.now) }
{
    match arguments {
        [trace, query, name] if is_plain(trace.as_str()) && is_plain(name.as_str()) => {
            let query = query_in(query.as_str())?;
            Some(Command::Analyze {
                trace: trace.as_str(),
                query,
                name: name.as_str(),
            })
        }
        _ => None,
    }
}

/// What an argument asks of a trace.
fn query_in(argument: &str) -> Option<Query>
    ensures { result ≡ asking.query_of argument.now }
{
    match argument {
        "accessed" => Some(Query::Accessed),
        "users" => Some(Query::Users),
        "written" => Some(Query::Written),
        _ => None,
    }
}

/// The command of the arguments after `gen`.
fn gen_in(arguments: &[String]) -> Option<Command<'_>>
    ensures { option_map asking.asked_by result ≡ asking.gen_of (asking.texts arguments.now) }
{
    match arguments {
        [count] => {
            let workers = workers_in(count.as_str())?;
            Some(Command::Gen { workers })
        }
        _ => None,
    }
}

/// Returns the number of workers, from 1 to 200, whose decimal form an argument is.
fn workers_in(argument: &str) -> Option<u32>
    ensures { result ≡ asking.workers_in argument.now }
{
    if !begins_with_nonzero_digit(argument.as_bytes()) {
        return None;
    }
    let workers = argument.parse::<u32>().ok()?;
    if workers > MOST_WORKERS {
        return None;
    }
    Some(workers)
}

/// Whether the first byte is a decimal digit other than 0.
fn begins_with_nonzero_digit(bytes: &[u8]) -> bool
    ensures { result ≡ asking.begins_with_nonzero_digit bytes.now }
{
    match bytes {
        [] => false,
        [first, ..] => b'1' <= *first && *first <= b'9',
    }
}

/// The three arguments, if each can name a file.
fn three_files_in(arguments: &[String]) -> Option<ThreeFiles<'_>>
    ensures { option_map asking.three_names result
        ≡ asking.three_files (asking.texts arguments.now) }
{
    match arguments {
        [image, schedule, trace]
            if is_plain(image.as_str())
                && is_plain(schedule.as_str())
                && is_plain(trace.as_str()) => {
            Some(ThreeFiles {
                image: image.as_str(),
                schedule: schedule.as_str(),
                trace: trace.as_str(),
            })
        }
        _ => None,
    }
}

/// The one argument, if it can name a file.
fn file_in(arguments: &[String]) -> Option<&str>
    ensures { option_map (λ n. n.now) result
        ≡ asking.file_argument (asking.texts arguments.now) }
{
    match arguments {
        [name] if is_plain(name.as_str()) => Some(name.as_str()),
        _ => None,
    }
}

/// Whether an argument can name a file: it is not empty and does not begin with `-`.
fn is_plain(word: &str) -> bool
    ensures { result ≡ asking.is_plain_argument word.now }
{
    match word.as_bytes() {
        [] => false,
        [first, ..] => *first != b'-',
    }
}
