// The options of the command line, by clap.

ghost use Rattle.std.specs.Prelude.{◌≡◌, [], false, IfOk, IfErr};
ghost use Rattle.clap.specs.Walk.{texts};
ghost use Rattle.clap.specs.Words.{app_of, fault_of, kind_of, rule_of};
ghost use Rattle.clap.specs.declared.error.kind.ErrorKind.TheVariants.{OutOfMemory};
ghost use Rattle.snesl_data.specs.declared.refusal.Refusal.TheVariants.{BadConfig, NoMemory};
ghost use Rattle.snesl_run.specs.command_line.Settings.{IsFoundIn, RefusesBut, command_line};
ghost use Rattle.snesl_run.specs.command_line.Settings.{option_named, text_said, value_found};

use clap::error::ErrorKind;
use clap::{Arg, ArgMatches, Command, Error};
use snesl_data::Refusal;
use std::alloc::{AllocError, Global};

// What clap finds for the options in the words, the first of which is the program's name.
pub(crate) fn matched<'a>(alloc: Global, words: &'a [&'a str]) -> Result<ArgMatches<'a>, Refusal>
    ensures faultless { IfOk result (λ _. fault_of command_line (texts words.entry.now) ≡ []) }
    ensures rows { IfOk result (IsFoundIn (texts words.entry.now)) }
    ensures refused { IfErr result (RefusesBut (fault_of command_line (texts words.entry.now) ≡
        [])) }
{
    let command = command(alloc)?;
    match command.try_get_matches_from(words) {
        Ok(matches) => Ok(matches),
        Err(error) => Err(refusal_of(&error)),
    }
}

// The value of the option, where it has one.
pub(crate) fn value_of<'a>(matches: &ArgMatches<'a>, name: &str) -> Option<&'a str>
    ensures { text_said result ≡ value_found matches.now name.now }
{
    matches.get_str(name)
}

// The command of the program. A request for help is a word that it does not know.
fn command<'a>(alloc: Global) -> Result<Command<'a>, AllocError>
    ensures { IfOk result (λ command. app_of command ≡ command_line) }
{
    Command::new(alloc, "snesl")
        .disable_help_flag(true)
        .arg(option(alloc, "capacity"))?
        .arg(option(alloc, "chunk"))?
        .arg(option(alloc, "threads"))?
        .arg(option(alloc, "idle"))?
        .arg(option(alloc, "drive"))?
        .arg(option(alloc, "deal"))
}

// The option `--name`, which takes one value.
fn option<'a>(alloc: Global, name: &'a str) -> Arg<'a>
    ensures rule { rule_of result ≡ option_named name.entry.now }
    ensures local { result.global ≡ false }
{
    Arg::new(alloc, name).long(name)
}

// All that clap finds wrong is the command line's fault, but for want of memory.
fn refusal_of(error: &Error) -> Refusal
    ensures memory { kind_of error.now ≡ OutOfMemory → result ≡ NoMemory }
    ensures other { (kind_of error.now ≡ OutOfMemory → ⊥) → result ≡ BadConfig }
{
    match error.kind() {
        ErrorKind::OutOfMemory => Refusal::NoMemory,
        _ => Refusal::BadConfig,
    }
}
