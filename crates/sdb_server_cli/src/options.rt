//! The options of the command line.
use crate::clients::{ServeOptions, StopCondition};
use crate::projection_option::{ProjectionOptionError, table_of};
use clap::builder::ValueParser;
use clap::{Arg, ArgAction, ArgGroup, ArgMatches, Command, Error};
use sdb_event_loop::{LOOP_CLIENT_LIMIT, LOOP_LIMIT, VERSION};
use sdb_projection::Table;
use std::alloc::{AllocError, Global};
use std::net::{IpAddr, Ipv4Addr, SocketAddr};

// The maximum of `--connections`.
const CONNECTION_LIMIT: u64 = 1_000_000;

const CONNECTIONS_HELP: &str = "With --listen, exit after serving N clients";

const LOOPS_HELP: &str =
    "With --listen, serve clients on N event loops; the default is half the processors";

const CLIENTS_HELP: &str = "With --listen, serve at most N clients at once; the default is 64";

const MEMORY_HELP: &str =
    "With --listen, store no operations while the server has more than N MiB of memory";

// The maximum of `--memory`, 16 TiB.
const MEMORY_LIMIT: u64 = 16_777_216;

const DUMP_HELP: &str =
    "With --until-eof, write a dump of all logs at exit; with --store alone, that of the file";

const CHECK_HELP: &str =
    "With --store, check the file, and print its numbers of documents and entries";

const LOAD_HELP: &str = "With --store, store the dump at standard input in a new file";

const RECOVER_HELP: &str =
    "With --store, store what is left of the damaged file in the new file NEW";

const BACKUP_HELP: &str =
    "With --store, store a copy of the file, which may be served, in the new file NEW";

const NO_ADDRESS: &str = "error: --listen takes an address, such as 127.0.0.1:8080";

const NO_DUMP: &str = "error: --dump of a store takes no --listen";

fn command<'a>(alloc: Global) -> Result<Command<'a>, AllocError> {
    let command = Command::new(alloc, "sdb_server")
        .about("Navirotsohy, a ShareDB server for JSON documents")
        .version(VERSION)
        .arg(lines_option(alloc)?)?
        .arg(listen_option(alloc))?;
    let command = with_end_options(alloc, command)?;
    let command = with_serving_options(alloc, command)?;
    let command = with_store_options(alloc, command)?;
    let command = command.arg(projection_option(alloc))?;
    command.group(job_group(alloc)?)?.group(dump_group(alloc)?)
}

// Adds the options of when the server ends.
fn with_end_options<'a>(alloc: Global, command: Command<'a>) -> Result<Command<'a>, AllocError> {
    let connections = number_option(alloc, "connections", CONNECTIONS_HELP, CONNECTION_LIMIT)?;
    let until_eof = until_eof_option(alloc)?;
    let dump = dump_option(alloc)?;
    command.arg(connections)?.arg(until_eof)?.arg(dump)
}

// Adds the options of how clients are served.
fn with_serving_options<'a>(
    alloc: Global,
    command: Command<'a>,
) -> Result<Command<'a>, AllocError> {
    let log = log_option(alloc)?;
    let proxy = proxy_option(alloc)?;
    let loops = number_option(alloc, "loops", LOOPS_HELP, LOOP_LIMIT as u64)?;
    let clients = number_option(alloc, "clients", CLIENTS_HELP, LOOP_CLIENT_LIMIT as u64)?;
    let memory = number_option(alloc, "memory", MEMORY_HELP, MEMORY_LIMIT)?;
    let command = command.arg(log)?.arg(proxy)?;
    command.arg(loops)?.arg(clients)?.arg(memory)
}

// Adds the options of a store.
fn with_store_options<'a>(alloc: Global, command: Command<'a>) -> Result<Command<'a>, AllocError> {
    let check = store_task_option(alloc, "check", CHECK_HELP)?;
    let load = store_task_option(alloc, "load", LOAD_HELP)?;
    let check = check.conflicts_with("load")?;
    let recover = copy_option(alloc, "recover", RECOVER_HELP)?;
    let backup = copy_option(alloc, "backup", BACKUP_HELP)?.conflicts_with("recover")?;
    let command = command.arg(store_option(alloc))?.arg(check)?.arg(load)?;
    command.arg(recover)?.arg(backup)
}

fn lines_option<'a>(alloc: Global) -> Result<Arg<'a>, AllocError> {
    let lines = Arg::new(alloc, "lines")
        .long("lines")
        .help("Serve one session of lines on standard input and output")
        .action(ArgAction::SetTrue);
    lines.conflicts_with("listen")
}

fn listen_option<'a>(alloc: Global) -> Arg<'a> {
    Arg::new(alloc, "listen")
        .long("listen")
        .value_name("ADDR")
        .help("Serve WebSocket clients at this address, such as 127.0.0.1:8080")
        .action(ArgAction::Set)
}

// Returns the option of a number from 1 to the limit, for `--listen`.
fn number_option<'a>(
    alloc: Global,
    name: &'a str,
    help: &'a str,
    limit: u64,
) -> Result<Arg<'a>, AllocError> {
    let number = Arg::new(alloc, name)
        .long(name)
        .value_name("N")
        .help(help)
        .value_parser(ValueParser::unsigned(1, limit))
        .action(ArgAction::Set);
    number.requires_arg("listen")?.conflicts_with("lines")
}

fn until_eof_option<'a>(alloc: Global) -> Result<Arg<'a>, AllocError> {
    let until_eof = Arg::new(alloc, "until-eof")
        .long("until-eof")
        .help(
            "With --listen, exit at the end of standard input, and print the number of stored operations",
        )
        .action(ArgAction::SetTrue);
    until_eof
        .requires_arg("listen")?
        .conflicts_with("lines")?
        .conflicts_with("connections")
}

fn dump_option<'a>(alloc: Global) -> Result<Arg<'a>, AllocError> {
    let dump = Arg::new(alloc, "dump")
        .long("dump")
        .help(DUMP_HELP)
        .action(ArgAction::SetTrue);
    dump.requires_arg("dumped")?.conflicts_with("lines")
}

fn log_option<'a>(alloc: Global) -> Result<Arg<'a>, AllocError> {
    let log = Arg::new(alloc, "log")
        .long("log")
        .help("With --listen, log connections to standard error")
        .action(ArgAction::SetTrue);
    log.requires_arg("listen")?.conflicts_with("lines")
}

fn proxy_option<'a>(alloc: Global) -> Result<Arg<'a>, AllocError> {
    let proxy = Arg::new(alloc, "proxy")
        .long("proxy")
        .help("With --log, take the clients' addresses from X-Forwarded-For, as a proxy writes it")
        .action(ArgAction::SetTrue);
    proxy.requires_arg("log")
}

fn store_option<'a>(alloc: Global) -> Arg<'a> {
    Arg::new(alloc, "store")
        .long("store")
        .value_name("FILE")
        .help("Keep all documents in this file")
        .action(ArgAction::Set)
}

// Returns the option of a task on a store.
fn store_task_option<'a>(
    alloc: Global,
    name: &'a str,
    help: &'a str,
) -> Result<Arg<'a>, AllocError> {
    let task = Arg::new(alloc, name)
        .long(name)
        .help(help)
        .action(ArgAction::SetTrue);
    as_store_task(task)
}

// Returns the option of a task that makes a new store of another one.
fn copy_option<'a>(alloc: Global, name: &'a str, help: &'a str) -> Result<Arg<'a>, AllocError> {
    let copy = Arg::new(alloc, name)
        .long(name)
        .value_name("NEW")
        .help(help)
        .action(ArgAction::Set);
    let copy = as_store_task(copy)?;
    copy.conflicts_with("check")?.conflicts_with("load")
}

// Makes an option a task on a store. The server does nothing else in such a run.
fn as_store_task<'a>(task: Arg<'a>) -> Result<Arg<'a>, AllocError> {
    let task = task.requires_arg("store")?.conflicts_with("dump")?;
    let task = task.conflicts_with("projection")?;
    task.conflicts_with("lines")?.conflicts_with("listen")
}

fn projection_option<'a>(alloc: Global) -> Arg<'a> {
    Arg::new(alloc, "projection")
        .long("projection")
        .value_name("NAME=COLLECTION:FIELD,..")
        .help("Project these fields of a collection under another name")
        .action(ArgAction::Append)
}

// Creates the group of options of which one is required. `--dump` is an option of `--listen` too.
fn job_group<'a>(alloc: Global) -> Result<ArgGroup<'a>, AllocError> {
    let job = ArgGroup::new(alloc, "job").required(true).multiple(true);
    let job = job.arg("lines")?.arg("listen")?;
    let job = job.arg("check")?.arg("dump")?;
    job.arg("load")?.arg("recover")?.arg("backup")
}

// Creates the group of options of which `--dump` requires one.
fn dump_group<'a>(alloc: Global) -> Result<ArgGroup<'a>, AllocError> {
    let dumped = ArgGroup::new(alloc, "dumped").multiple(true);
    dumped.arg("until-eof")?.arg("store")
}

/// The mode in which the program runs. The last five need a store.
#[derive(Clone, Copy, PartialEq, Eq, Drop)]
pub enum RunMode {
    /// One session of lines on standard input and output.
    Lines,
    /// WebSocket clients at an address.
    Listen {
        /// The address to listen at.
        address: SocketAddr,
        /// The condition that ends the run.
        until: StopCondition,
        /// How clients are served.
        options: ServeOptions,
    },
    /// The check of a store.
    Check,
    /// The dump of a store to standard output.
    Dump,
    /// The storing of the dump at standard input in a new store.
    Load,
    /// The storing of what is left of a store in a new one.
    Recover,
    /// The storing of a copy of a store, which may be served, in a new one.
    Backup,
}

impl RunMode {
    /// Returns whether the program only reads a copy of the store.
    pub fn reads_copy(self) -> bool {
        matches!(self, RunMode::Check | RunMode::Dump)
    }
}

/// The options of a command line.
#[derive(Drop)]
pub struct Options {
    /// The mode, or the text of the refusal.
    pub job: Result<RunMode, &'static str>,
    /// The projections, or the reason why one of them is refused.
    pub table: Result<Table, ProjectionOptionError>,
    /// The files that keep the documents, if they aren't in memory only.
    pub store: Option<StorePaths>,
}

/// The paths of the files of a store.
#[derive(Drop)]
pub struct StorePaths {
    /// The path of the file that keeps the documents.
    pub file: String,
    /// The path of the new file, with `--recover` and `--backup`.
    pub new: Option<String>,
}

/// Parses the options of a command line whose first word is the name of the program.
///
/// # Errors
///
/// The [`Error`] of `clap` for a refused command line, for `--help` and `--version`, and if an
/// allocation fails.
pub fn parse_options(alloc: Global, words: &[String]) -> Result<Options, Error> {
    let matches = command(alloc)?.try_get_matches_from(words)?;
    let store = parse_store(alloc, &matches)?;
    Ok(Options {
        job: parse_job(&matches),
        table: table_of(alloc, matches.get_strs("projection").unwrap_or(&[])),
        store,
    })
}

fn parse_store(alloc: Global, matches: &ArgMatches<'_>) -> Result<Option<StorePaths>, AllocError> {
    let Some(path) = matches.get_str("store") else {
        return Ok(None);
    };
    let file = String::from_str(alloc, path)?;
    let new = match matches.get_str("recover").or(matches.get_str("backup")) {
        Some(path) => Some(String::from_str(alloc, path)?),
        None => None,
    };
    Ok(Some(StorePaths { file, new }))
}

fn parse_job(matches: &ArgMatches<'_>) -> Result<RunMode, &'static str> {
    let Some(address) = matches.get_str("listen") else {
        return Ok(parse_other_job(matches));
    };
    if matches.get_flag("dump") && matches.contains_id("store") {
        return Err(NO_DUMP);
    }
    let Some(address) = parse_address(address) else {
        return Err(NO_ADDRESS);
    };
    Ok(RunMode::Listen {
        address,
        until: parse_stop_condition(matches),
        options: ServeOptions {
            loops: parse_number(matches, "loops"),
            clients: parse_number(matches, "clients"),
            memory: parse_number(matches, "memory"),
            is_logging: matches.get_flag("log"),
            is_proxied: matches.get_flag("proxy"),
        },
    })
}

// Returns the address of a text as `127.0.0.1:8080`, `[::1]:8080` or `localhost:8080`.
fn parse_address(text: &str) -> Option<SocketAddr> {
    match text.strip_prefix("localhost:") {
        Some(port) => {
            let localhost = IpAddr::V4(Ipv4Addr::LOCALHOST);
            Some(SocketAddr::new(localhost, port.parse().ok()?))
        }
        None => text.parse().ok(),
    }
}

// Returns the mode of a command line without `--listen`.
fn parse_other_job(matches: &ArgMatches<'_>) -> RunMode {
    if matches.get_flag("check") {
        return RunMode::Check;
    }
    if matches.get_flag("dump") {
        return RunMode::Dump;
    }
    if matches.get_flag("load") {
        return RunMode::Load;
    }
    if matches.contains_id("recover") {
        return RunMode::Recover;
    }
    if matches.contains_id("backup") {
        return RunMode::Backup;
    }
    RunMode::Lines
}

fn parse_number(matches: &ArgMatches<'_>, name: &str) -> Option<usize> {
    let number = matches.get_one::<u64>(name)?;
    Some(number as usize)
}

fn parse_stop_condition(matches: &ArgMatches<'_>) -> StopCondition {
    if matches.get_flag("until-eof") {
        return StopCondition::Eof {
            is_dumping: matches.get_flag("dump"),
        };
    }
    match matches.get_one::<u64>("connections") {
        Some(count) => StopCondition::Served(count),
        None => StopCondition::Never,
    }
}
