//! Describes the command line to `clap`.
ghost use Rattle.std.specs.Prelude.{◌≡◌, IfOk, false};
ghost use Rattle.clap.specs.Words.{app_of, rule_of, with_subcommand};
ghost use Rattle.command_line.specs.CommandLine.{folder_rule, has_globals, machine_file_rule, meson_app, option_rule, task_app};

use clap::{Arg, ArgAction, Command};
use std::alloc::{AllocError, Global};

/// Returns the command `meson`, with a subcommand for each task.
pub(crate) fn command<'a>(alloc: Global) -> Result<Command<'a>, AllocError>
    ensures { IfOk result (λ command. app_of command ≡ meson_app) }
{
    let bare = Command::new(alloc, "meson")
        .about("Configures a C project for Ninja.")
        .disable_help_subcommand(true)
        .subcommand_required(true);
    let named = bare.bin_name("meson")?;
    let first = with_task(
        alloc,
        named,
        "setup",
        "Configures a build of the project in this folder.",
    )?;
    let second = with_task(
        alloc,
        first,
        "questions",
        "Lists what a setup asks about the machine, and writes nothing.",
    )?;
    with_task(
        alloc,
        second,
        "fault",
        "Prints the fault of a setup and its details, and writes nothing.",
    )
}

// Returns the command with one more task.
fn with_task<'a>(
    alloc: Global,
    whole: Command<'a>,
    name: &'a str,
    about: &'a str,
) -> Result<Command<'a>, AllocError>
    ensures { IfOk result (λ command. app_of command ≡ with_subcommand (app_of whole.entry) (task_app name.now).top) }
{
    let one = task(alloc, name, about)?;
    whole.subcommand(one)
}

// Returns the option `-D NAME=VALUE`, which may occur any number of times.
fn option<'a>(alloc: Global) -> Arg<'a>
    ensures rule { rule_of result ≡ option_rule }
    ensures local { result.global ≡ false }
{
    Arg::new(alloc, "option")
        .short('D')
        .value_name("NAME=VALUE")
        .help("Sets the option NAME to VALUE; may be given several times")
        .action(ArgAction::Append)
}

// Returns the option `--native-file FILE`, which may occur once.
fn machine_file<'a>(alloc: Global) -> Arg<'a>
    ensures rule { rule_of result ≡ machine_file_rule }
    ensures local { result.global ≡ false }
{
    Arg::new(alloc, "native-file")
        .long("native-file")
        .value_name("FILE")
        .help("Reads the answers about the machine from FILE")
        .action(ArgAction::Set)
}

// Returns the argument `BUILDDIR`, which is required.
fn folder<'a>(alloc: Global) -> Arg<'a>
    ensures rule { rule_of result ≡ folder_rule }
    ensures local { result.global ≡ false }
{
    Arg::new(alloc, "folder")
        .value_name("BUILDDIR")
        .help("The folder of the build, below the folder of the sources")
        .required(true)
        .action(ArgAction::Set)
}

// Returns the subcommand of a task, with the arguments that each task has.
fn task<'a>(alloc: Global, name: &'a str, about: &'a str) -> Result<Command<'a>, AllocError>
    ensures app { IfOk result (λ command. app_of command ≡ task_app name.now) }
    ensures local { IfOk result (λ command. has_globals command ≡ false) }
{
    Command::new(alloc, name)
        .about(about)
        .arg(option(alloc))?
        .arg(machine_file(alloc))?
        .arg(folder(alloc))
}
