// The commands as `clap` reads them. A command is built for each reading, since its texts and the words
// share a lifetime.
ghost use Rattle.std.specs.Prelude.{◌≡◌, ◌∷◌, [], IfOk, Some, false, codes};
ghost use Rattle.clap.specs.Words.{app_of, new_rule, rule_of};
ghost use Rattle.clap.specs.declared.builder.action.ArgAction.TheVariants.{Set};
ghost use Rattle.command_words.specs.Words.{audit_app, bare, check_app, clients_rule, count_rule};
ghost use Rattle.command_words.specs.Words.{edits_rule, flag, folder_rule, join_app, join_port_rule};
ghost use Rattle.command_words.specs.Words.{make_app, name_rule, outside_rule, page_app, play_app};
ghost use Rattle.command_words.specs.Words.{port_rule, record_app, record_rule, repeated, roots_rule};
ghost use Rattle.command_words.specs.Words.{rounds_rule, seed_rule, serve_app, turns_rule, wanted};
ghost use Rattle.command_words.specs.Words.{with_rules, workers_rule};

use clap::{Arg, ArgAction, Command};
use std::alloc::{AllocError, Global};

/// `play`, which takes no word.
pub(crate) fn play_grammar<'a>(alloc: Global) -> Command<'a>
    ensures { app_of result ≡ play_app }
{
    bare(alloc, "play")
}

/// `check NAME`
pub(crate) fn check_grammar<'a>(alloc: Global) -> Result<Command<'a>, AllocError>
    ensures { IfOk result (λ c. app_of c ≡ check_app) }
{
    bare(alloc, "check").arg(name_arg(alloc))
}

/// `make N SEED`
pub(crate) fn make_grammar<'a>(alloc: Global) -> Result<Command<'a>, AllocError>
    ensures { IfOk result (λ c. app_of c ≡ make_app) }
{
    bare(alloc, "make")
        .arg(count_arg(alloc))?
        .arg(seed_arg(alloc))
}

/// `serve FOLDER ROOT..`, with its options.
pub(crate) fn serve_grammar<'a>(alloc: Global) -> Result<Command<'a>, AllocError>
    ensures { IfOk result (λ c. app_of c ≡ serve_app) }
{
    let command = bare(alloc, "serve")
        .arg(folder_arg(alloc))?
        .arg(roots_arg(alloc))?;
    let command = with_connections(alloc, command)?;
    let command = with_work(alloc, command)?;
    with_flags(alloc, command)
}

/// The options on what connects to a server.
fn with_connections<'a>(alloc: Global, command: Command<'a>) -> Result<Command<'a>, AllocError>
    ensures { IfOk result (λ c.
        app_of c ≡ with_rules (app_of command.entry) (port_rule ∷ clients_rule ∷ outside_rule ∷ [])) }
{
    command
        .arg(port_arg(alloc))?
        .arg(clients_arg(alloc))?
        .arg(outside_arg(alloc))
}

/// The options on what a server does.
fn with_work<'a>(alloc: Global, command: Command<'a>) -> Result<Command<'a>, AllocError>
    ensures { IfOk result (λ c.
        app_of c ≡ with_rules (app_of command.entry) (turns_rule ∷ workers_rule ∷ rounds_rule ∷ [])) }
{
    command
        .arg(turns_arg(alloc))?
        .arg(workers_arg(alloc))?
        .arg(rounds_arg(alloc))
}

/// The options that take no word.
fn with_flags<'a>(alloc: Global, command: Command<'a>) -> Result<Command<'a>, AllocError>
    ensures { IfOk result (λ c.
        app_of c ≡ with_rules (app_of command.entry) (edits_rule ∷ record_rule ∷ [])) }
{
    command.arg(edits_arg(alloc))?.arg(record_arg(alloc))
}

/// `join PORT [ROOT..]`, with its option.
pub(crate) fn join_grammar<'a>(alloc: Global) -> Result<Command<'a>, AllocError>
    ensures { IfOk result (λ c. app_of c ≡ join_app) }
{
    bare(alloc, "join")
        .arg(join_port_arg(alloc))?
        .arg(repeated(alloc, "ROOT"))?
        .arg(turns_arg(alloc))
}

/// `page FOLDER`
pub(crate) fn page_grammar<'a>(alloc: Global) -> Result<Command<'a>, AllocError>
    ensures { IfOk result (λ c. app_of c ≡ page_app) }
{
    bare(alloc, "page").arg(folder_arg(alloc))
}

/// `record`, which takes no word.
pub(crate) fn record_grammar<'a>(alloc: Global) -> Command<'a>
    ensures { app_of result ≡ record_app }
{
    bare(alloc, "record")
}

/// `audit`, which takes no word.
pub(crate) fn audit_grammar<'a>(alloc: Global) -> Command<'a>
    ensures { app_of result ≡ audit_app }
{
    bare(alloc, "audit")
}

/// A command without help and version, of whose words the first is no name of a program.
fn bare<'a>(alloc: Global, name: &'a str) -> Command<'a>
    ensures { app_of result ≡ bare name.entry.now }
{
    Command::new(alloc, name)
        .no_binary_name(true)
        .disable_help_flag(true)
        .disable_version_flag(true)
}

/// A word that has to stand there.
fn wanted<'a>(alloc: Global, id: &'a str) -> Arg<'a>
    ensures rule { rule_of result ≡ wanted id.entry.now }
    ensures global { result.global ≡ false }
{
    Arg::new(alloc, id).required(true).action(ArgAction::Set)
}

/// A word that may come more than once.
fn repeated<'a>(alloc: Global, id: &'a str) -> Arg<'a>
    ensures rule { rule_of result ≡ repeated id.entry.now }
    ensures global { result.global ≡ false }
{
    Arg::new(alloc, id).action(ArgAction::Append)
}

/// An option that takes a word.
fn option<'a>(alloc: Global, id: &'a str) -> Arg<'a>
    ensures rule { rule_of result
        ≡ record (new_rule id.entry.now) { long = Some id.entry.now; action = Some Set } }
    ensures global { result.global ≡ false }
{
    Arg::new(alloc, id).long(id).action(ArgAction::Set)
}

/// An option that takes no word.
fn flag<'a>(alloc: Global, id: &'a str) -> Arg<'a>
    ensures rule { rule_of result ≡ flag id.entry.now }
    ensures global { result.global ≡ false }
{
    Arg::new(alloc, id).long(id).action(ArgAction::SetTrue)
}

fn name_arg<'a>(alloc: Global) -> Arg<'a>
    ensures rule { rule_of result ≡ name_rule }
    ensures global { result.global ≡ false }
{
    wanted(alloc, "NAME")
}

fn count_arg<'a>(alloc: Global) -> Arg<'a>
    ensures rule { rule_of result ≡ count_rule }
    ensures global { result.global ≡ false }
{
    wanted(alloc, "N").value_parser(clap::value_parser!(u32).range(1..=4096))
}

fn seed_arg<'a>(alloc: Global) -> Arg<'a>
    ensures rule { rule_of result ≡ seed_rule }
    ensures global { result.global ≡ false }
{
    wanted(alloc, "SEED").value_parser(clap::value_parser!(u32).range(0..=2147483647))
}

fn folder_arg<'a>(alloc: Global) -> Arg<'a>
    ensures rule { rule_of result ≡ folder_rule }
    ensures global { result.global ≡ false }
{
    wanted(alloc, "FOLDER")
}

fn roots_arg<'a>(alloc: Global) -> Arg<'a>
    ensures rule { rule_of result ≡ roots_rule }
    ensures global { result.global ≡ false }
{
    repeated(alloc, "ROOT").required(true)
}

fn port_arg<'a>(alloc: Global) -> Arg<'a>
    ensures rule { rule_of result ≡ port_rule }
    ensures global { result.global ≡ false }
{
    option(alloc, "port").value_parser(clap::value_parser!(u16).range(0..=65535))
}

fn clients_arg<'a>(alloc: Global) -> Arg<'a>
    ensures rule { rule_of result ≡ clients_rule }
    ensures global { result.global ≡ false }
{
    option(alloc, "clients").value_parser(clap::value_parser!(u32).range(0..=32))
}

fn outside_arg<'a>(alloc: Global) -> Arg<'a>
    ensures rule { rule_of result ≡ outside_rule }
    ensures global { result.global ≡ false }
{
    option(alloc, "outside").value_parser(clap::value_parser!(u32).range(0..=32))
}

fn turns_arg<'a>(alloc: Global) -> Arg<'a>
    ensures rule { rule_of result ≡ turns_rule }
    ensures global { result.global ≡ false }
{
    option(alloc, "turns").value_parser(clap::value_parser!(u32).range(0..=400000))
}

fn workers_arg<'a>(alloc: Global) -> Arg<'a>
    ensures rule { rule_of result ≡ workers_rule }
    ensures global { result.global ≡ false }
{
    option(alloc, "workers").value_parser(clap::value_parser!(u32).range(1..=16))
}

fn rounds_arg<'a>(alloc: Global) -> Arg<'a>
    ensures rule { rule_of result ≡ rounds_rule }
    ensures global { result.global ≡ false }
{
    option(alloc, "rounds").value_parser(clap::value_parser!(u32).range(0..=1000))
}

fn edits_arg<'a>(alloc: Global) -> Arg<'a>
    ensures rule { rule_of result ≡ edits_rule }
    ensures global { result.global ≡ false }
{
    flag(alloc, "edits")
}

fn record_arg<'a>(alloc: Global) -> Arg<'a>
    ensures rule { rule_of result ≡ record_rule }
    ensures global { result.global ≡ false }
{
    flag(alloc, "record")
}

fn join_port_arg<'a>(alloc: Global) -> Arg<'a>
    ensures rule { rule_of result ≡ join_port_rule }
    ensures global { result.global ≡ false }
{
    wanted(alloc, "PORT").value_parser(clap::value_parser!(u16).range(1..=65535))
}
