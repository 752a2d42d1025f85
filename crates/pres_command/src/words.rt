//! The words of the command line.

ghost use Rattle.std.specs.Prelude.{◌≡◌, Some, IfErr, IfOk, IfSome, MatchResult, codes, false, map};
ghost use Rattle.clap.specs.Words.{App, app_of, found_of, kind_of, new_rule, rows_of, rule_of, subcommand_of, with_subcommand};
ghost use Rattle.clap.specs.declared.error.kind.ErrorKind.TheVariants.{OutOfMemory};
ghost use Rattle.pres_command.specs.Words.{AreTaken, AsksApply, HasNoGlobals, IsAskedBy, IsCalled, IsInspected, IsListed, IsMistake, IsServed, IsViewed};
ghost use Rattle.pres_command.specs.Words.{apply_shape, check_shape, client_shape, connections_rule, ending_rule, history_shape, needed, program, serve_shape, sim_shape, tree_shape, up_to, with_inspection};

use clap::builder::ValueParser;
use clap::error::ErrorKind;
use clap::{Arg, ArgAction, ArgMatches, Command, Error};
use pres_ids::Number;
use pres_service::ServeOptions;
use std::alloc::{AllocError, Global};

// The most connections that a server may be asked to end after.
const MOST_CONNECTIONS: u64 = 1_024;

// The greatest number of a client's start, and of an entry: 2^53 - 1.
const MOST_NUMBERS: u64 = 9_007_199_254_740_991;

// What follows the help of each subcommand.
const APPLY_HELP: &str = "Example:
  presence apply < examples/first.jsonl

Exit status:
  0  done
  1  a line was refused, or a stream failed
  2  these words are wrong
  5  out of memory";

const SIM_HELP: &str = "Example:
  presence sim < examples/presence.script

Exit status:
  0  done
  1  a line is bad, or a stream failed
  2  these words are wrong
  5  out of memory";

const SERVE_HELP: &str = "Example:
  presence serve 127.0.0.1:8080 presence.db

Exit status:
  0  the given number of connections has ended, or the standard input has
  1  the output failed
  2  these words are wrong
  3  the file is refused
  4  the address is refused
  5  out of memory";

const CLIENT_HELP: &str = "Example:
  echo 'listen /' | presence client 127.0.0.1:8080 alice 1

Exit status:
  0  done
  1  a line is bad, or a stream failed
  2  these words are wrong, or ID is none
  4  the connection failed or was refused
  5  out of memory";

const CHECK_HELP: &str = "Example:
  presence check presence.db

Exit status:
  0  the history is legal
  1  the output failed
  2  these words are wrong
  3  the file is refused, or a row or the checkpoint of it is bad
  5  out of memory";

const TREE_HELP: &str = "Example:
  presence tree presence.db /rooms/lobby

Exit status:
  0  done
  1  the output failed
  2  these words are wrong, or PATH is none
  3  the file is refused, or a row or the checkpoint of it is bad
  5  out of memory";

const HISTORY_HELP: &str = "Example:
  presence history presence.db --from 100

Exit status:
  0  done
  1  the output failed
  2  these words are wrong
  3  the file is refused, or a row or the checkpoint of it is bad
  5  out of memory";

/// What the program is asked to do.
#[derive(Clone, Copy)]
pub enum Request<'a> {
    /// Answers operations from the input with replies and the tree.
    Apply,
    /// Does what the input's lines say, as a script of a world, and prints what that makes.
    Sim,
    /// Serves connections over TCP.
    Serve(ServerWords<'a>),
    /// Does what the input's lines say as a client of a server.
    Client(ClientWords<'a>),
    /// Checks the history of this file.
    Check(&'a str),
    /// Prints a value of a file's tree.
    Tree(Viewing<'a>),
    /// Prints the entries of a file's history.
    History(Listing<'a>),
}

/// What a server is to do, and whether it ends with the standard input.
#[derive(Clone, Copy)]
pub struct ServerWords<'a> {
    pub serving: ServeOptions<'a>,
    pub until_stdin_ends: bool,
}

/// Where a client goes, and as whom.
#[derive(Clone, Copy)]
pub struct ClientWords<'a> {
    pub address: &'a str,
    pub id: &'a str,
    pub incarnation: Number,
}

/// Which file's tree is looked at, and the path of the value, none for the whole tree.
#[derive(Clone, Copy)]
pub struct Viewing<'a> {
    pub file: &'a str,
    pub path: Option<&'a str>,
}

/// Which file's history is listed, and the number of the first entry, none for all.
#[derive(Clone, Copy)]
pub struct Listing<'a> {
    pub file: &'a str,
    pub from: Option<u64>,
}

fn apply_command<'a>(alloc: Global) -> Command<'a>
    ensures app { app_of result ≡ apply_shape }
    ensures local { HasNoGlobals result }
{
    Command::new(alloc, "apply")
        .about("Carries out operations, a JSON line each, and prints replies and the tree")
        .after_help(APPLY_HELP)
}

fn sim_command<'a>(alloc: Global) -> Command<'a>
    ensures app { app_of result ≡ sim_shape }
    ensures local { HasNoGlobals result }
{
    Command::new(alloc, "sim")
        .about(
            "Runs a script of a server, its clients and the packets between them, and prints what it makes",
        )
        .after_help(SIM_HELP)
}

// A required argument.
fn needed_argument<'a>(alloc: Global, name: &'a str, help: &'a str) -> Arg<'a>
    ensures rule { rule_of result ≡ needed name.entry.now }
    ensures local { result.global ≡ false }
{
    Arg::new(alloc, name).required(true).help(help)
}

fn serve_command<'a>(alloc: Global) -> Result<Command<'a>, AllocError>
    ensures app { IfOk result (λ made. app_of made ≡ serve_shape) }
    ensures local { IfOk result (λ made. HasNoGlobals made) }
{
    let address = "Where it listens, as 127.0.0.1:9000";
    let file = "The file that keeps the tree's history; made where there is none";
    Command::new(alloc, "serve")
        .about("Serves connections over WebSocket")
        .after_help(SERVE_HELP)
        .arg(needed_argument(alloc, "ADDRESS", address))?
        .arg(needed_argument(alloc, "FILE", file))?
        .arg(connections_argument(alloc))?
        .arg(ending_argument(alloc))
}

// That a server ends with the standard input.
fn ending_argument<'a>(alloc: Global) -> Arg<'a>
    ensures rule { rule_of result ≡ ending_rule }
    ensures local { result.global ≡ false }
{
    Arg::new(alloc, "until-stdin-ends")
        .long("until-stdin-ends")
        .action(ArgAction::SetTrue)
        .help("Ends cleanly once the standard input ends")
}

// After how many connections a server ends.
fn connections_argument<'a>(alloc: Global) -> Arg<'a>
    ensures rule { rule_of result ≡ connections_rule }
    ensures local { result.global ≡ false }
{
    Arg::new(alloc, "connections")
        .long("connections")
        .value_name("N")
        .value_parser(ValueParser::unsigned(1, MOST_CONNECTIONS))
        .help("Ends once this many connections have ended")
}

fn client_command<'a>(alloc: Global) -> Result<Command<'a>, AllocError>
    ensures app { IfOk result (λ made. app_of made ≡ client_shape) }
    ensures local { IfOk result (λ made. HasNoGlobals made) }
{
    let id = "The client's name: 1 to 128 of A-Z, a-z, 0-9, _ and -";
    Command::new(alloc, "client")
        .about("Makes the calls that the input's lines say, and prints what the server sends")
        .after_help(CLIENT_HELP)
        .arg(needed_argument(alloc, "ADDRESS", "Where the server listens"))?
        .arg(needed_argument(alloc, "ID", id))?
        .arg(incarnation_argument(alloc))
}

// Which start of the client it is.
fn incarnation_argument<'a>(alloc: Global) -> Arg<'a>
    ensures rule { rule_of result ≡ up_to 9007199254740991 (needed (codes "INCARNATION")) }
    ensures local { result.global ≡ false }
{
    Arg::new(alloc, "INCARNATION")
        .required(true)
        .value_parser(ValueParser::unsigned(1, MOST_NUMBERS))
        .help("Which start of the client this is: a greater number each time")
}

// The argument of a file that is only read.
fn file_argument<'a>(alloc: Global) -> Arg<'a>
    ensures rule { rule_of result ≡ needed (codes "FILE") }
    ensures local { result.global ≡ false }
{
    needed_argument(
        alloc,
        "FILE",
        "The file of a server that isn't running; nothing is written to it",
    )
}

fn check_command<'a>(alloc: Global) -> Result<Command<'a>, AllocError>
    ensures app { IfOk result (λ made. app_of made ≡ check_shape) }
    ensures local { IfOk result (λ made. HasNoGlobals made) }
{
    Command::new(alloc, "check")
        .about(
            "Goes over a file's history, and prints checkpoint and numbers, or the first bad row",
        )
        .after_help(CHECK_HELP)
        .arg(file_argument(alloc))
}

fn tree_command<'a>(alloc: Global) -> Result<Command<'a>, AllocError>
    ensures app { IfOk result (λ made. app_of made ≡ tree_shape) }
    ensures local { IfOk result (λ made. HasNoGlobals made) }
{
    Command::new(alloc, "tree")
        .about("Prints the tree in a file, or the value at a path of it")
        .after_help(TREE_HELP)
        .arg(file_argument(alloc))?
        .arg(path_argument(alloc))
}

// Where a value stands.
fn path_argument<'a>(alloc: Global) -> Arg<'a>
    ensures rule { rule_of result ≡ new_rule (codes "PATH") }
    ensures local { result.global ≡ false }
{
    Arg::new(alloc, "PATH").help("Where the value stands; the whole tree without it")
}

fn history_command<'a>(alloc: Global) -> Result<Command<'a>, AllocError>
    ensures app { IfOk result (λ made. app_of made ≡ history_shape) }
    ensures local { IfOk result (λ made. HasNoGlobals made) }
{
    Command::new(alloc, "history")
        .about("Prints the checkpoint of a file and the entries after it, a line of JSON each")
        .after_help(HISTORY_HELP)
        .arg(file_argument(alloc))?
        .arg(from_argument(alloc))
}

// From which entry on a history is printed.
fn from_argument<'a>(alloc: Global) -> Arg<'a>
    ensures rule { rule_of result ≡ up_to 9007199254740991 (record (new_rule (codes "from"))
        { long = Some (codes "from"); value_names = 1 }) }
    ensures local { result.global ≡ false }
{
    Arg::new(alloc, "from")
        .long("from")
        .value_name("K")
        .value_parser(ValueParser::unsigned(1, MOST_NUMBERS))
        .help("The number of the first entry that is printed")
}

// The command with one more subcommand, if that was made.
fn with_made<'a>(
    command: Command<'a>,
    made: Result<Command<'a>, AllocError>,
) -> Result<Command<'a>, AllocError>
    ensures { (shape : App) → IfOk made.entry (λ below. app_of below ≡ shape)
        → IfOk made.entry (λ below. HasNoGlobals below)
        → IfOk result (λ whole. app_of whole ≡ with_subcommand (app_of command.entry) shape.top) }
{
    match made {
        Ok(made) => command.subcommand(made),
        Err(refused) => {
            drop(command);
            Err(refused)
        }
    }
}

fn command<'a>(alloc: Global) -> Result<Command<'a>, AllocError>
    ensures { IfOk result (λ made. app_of made ≡ program) }
{
    let command = Command::new(alloc, "presence")
        .version("0.1.0")
        .about("A presence server: one shared JSON tree, with actions at disconnection")
        .subcommand_required(true)
        .disable_help_subcommand(true)
        .subcommand(apply_command(alloc))?
        .subcommand(sim_command(alloc))?;
    let command = with_made(command, serve_command(alloc))?;
    let command = with_made(command, client_command(alloc))?;
    with_inspection(alloc, command)
}

// The command with those that look at a file below it.
fn with_inspection<'a>(alloc: Global, command: Command<'a>) -> Result<Command<'a>, AllocError>
    ensures { IfOk result (λ made. app_of made ≡ with_inspection (app_of command.entry)) }
{
    let command = with_made(command, check_command(alloc))?;
    let command = with_made(command, tree_command(alloc))?;
    with_made(command, history_command(alloc))
}

/// Reads the words of the command line, the program's name first.
pub fn read_words<'a>(alloc: Global, words: &'a [&'a str]) -> Result<Request<'a>, Error>
    ensures apply { AsksApply (map (λ word. word.now) words.now) → MatchResult result
        (λ request. request ≡ Request.Apply)
        (λ e. kind_of e ≡ OutOfMemory) }
    ensures taken { IfOk result (λ _. AreTaken (map (λ word. word.now) words.now)) }
    ensures mistaken { IfErr result (λ e.
        AreTaken (map (λ word. word.now) words.now) → IsMistake (kind_of e)) }
    ensures asked { IfOk result (λ request.
        IsAskedBy request (subcommand_of program (map (λ word. word.now) words.now))) }
{
    let command = command(alloc)?;
    let matches = command.try_get_matches_from(words)?;
    let Some((name, given)) = matches.subcommand() else {
        unreachable!()
    };
    match request_of(name, given) {
        Some(request) => Ok(request),
        None => Err(lacking(alloc)?),
    }
}

// What a subcommand is asked for with its arguments: none if they are not enough.
fn request_of<'a>(name: &str, given: &ArgMatches<'a>) -> Option<Request<'a>>
    ensures apply { name.now ≡ codes "apply" → result ≡ Some Request.Apply }
    ensures asked { IfSome result (λ request.
        IsAskedBy request (Some (name.now, rows_of (found_of given.now)))) }
{
    if name == "apply" {
        return Some(Request::Apply);
    }
    if name == "sim" {
        return Some(Request::Sim);
    }
    if name == "serve" {
        return match server_of(given) {
            Some(serving) => Some(Request::Serve(serving)),
            None => None,
        };
    }
    if name == "client" {
        return match client_of(given) {
            Some(calling) => Some(Request::Client(calling)),
            None => None,
        };
    }
    inspection_of(name, given)
}

// The look at a file that a subcommand asks for with its arguments: none if they are not enough.
fn inspection_of<'a>(name: &str, given: &ArgMatches<'a>) -> Option<Request<'a>>
    ensures { IfSome result (λ request.
        IsAskedBy request (Some (name.now, rows_of (found_of given.now)))) }
{
    if name == "check" {
        return match file_of(given) {
            Some(file) => Some(Request::Check(file)),
            None => None,
        };
    }
    if name == "tree" {
        return match viewing_of(given) {
            Some(viewing) => Some(Request::Tree(viewing)),
            None => None,
        };
    }
    if name == "history" {
        return match listing_of(given) {
            Some(listing) => Some(Request::History(listing)),
            None => None,
        };
    }
    None
}

// The file that is looked at.
fn file_of<'a>(given: &ArgMatches<'a>) -> Option<&'a str>
    ensures { IfSome result (λ file. IsInspected file.now (rows_of (found_of given.now))) }
{
    given.get_str("FILE")
}

// Which file's tree is looked at, and where.
fn viewing_of<'a>(given: &ArgMatches<'a>) -> Option<Viewing<'a>>
    ensures { IfSome result (λ viewing. IsViewed viewing (rows_of (found_of given.now))) }
{
    Some(Viewing {
        file: file_of(given)?,
        path: given.get_str("PATH"),
    })
}

// Which file's history is listed, and from where.
fn listing_of<'a>(given: &ArgMatches<'a>) -> Option<Listing<'a>>
    ensures { IfSome result (λ listing. IsListed listing (rows_of (found_of given.now))) }
{
    Some(Listing {
        file: file_of(given)?,
        from: given.get_one("from"),
    })
}

// What a server is given.
fn server_of<'a>(given: &ArgMatches<'a>) -> Option<ServerWords<'a>>
    ensures { IfSome result (λ words. IsServed words (rows_of (found_of given.now))) }
{
    let serving = ServeOptions {
        address: given.get_str("ADDRESS")?,
        file: given.get_str("FILE")?,
        connections: given.get_one("connections"),
    };
    Some(ServerWords {
        serving,
        until_stdin_ends: given.get_flag("until-stdin-ends"),
    })
}

// What a client is given.
fn client_of<'a>(given: &ArgMatches<'a>) -> Option<ClientWords<'a>>
    ensures { IfSome result (λ calling. IsCalled calling (rows_of (found_of given.now))) }
{
    Some(ClientWords {
        address: given.get_str("ADDRESS")?,
        id: given.get_str("ID")?,
        incarnation: Number::new(given.get_one("INCARNATION")?)?,
    })
}

// The mistake that a subcommand lacks an argument.
fn lacking(alloc: Global) -> Result<Error, AllocError>
    ensures { IfOk result (λ e. IsMistake (kind_of e)) }
{
    command(alloc)?.error(ErrorKind::MissingRequiredArgument, "an argument is missing")
}
