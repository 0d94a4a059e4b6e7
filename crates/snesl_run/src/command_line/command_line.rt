// What a command line says.

ghost use Rattle.std.specs.Prelude.{◌≡◌, ◌⊎◌, IfOk, IfErr};
ghost use Rattle.clap.specs.Walk.{texts};
ghost use Rattle.snesl_data.specs.declared.refusal.Refusal.TheVariants.{BadConfig, NoMemory};
ghost use Rattle.flow_drives.specs.Configs.{IsLawful};
ghost use Rattle.snesl_run.specs.command_line.Settings.{AreLawful, HasFields, HaveLawfulFields};
ghost use Rattle.snesl_run.specs.command_line.Settings.{RefusesBut, SaysSo, value_found};

use crate::command_line::options::{matched, value_of};
use crate::command_line::values::{drive_said, number_said, share_said};
use clap::ArgMatches;
use flow_drives::{Config, MAX_CHUNK, MAX_IDLE_TURNS, MAX_THREADS};
use flow_messages::MAX_CAPACITY;
use snesl_data::Refusal;
use std::alloc::Global;

/// The configuration that the words of a command line say, the first of which is the program's name. These are the
/// options, each with a value, as `--chunk 8` or `--chunk=8`:
///
/// | option | value | without the option |
/// |---|---|---|
/// | `--capacity` | how many messages an edge holds, 1 to 65,536 | 256 |
/// | `--chunk` | how many steps a node makes at a visit, 1 to 1,024 | 16 |
/// | `--threads` | how many threads there are, 1 to 16 | 2 |
/// | `--idle` | how many turns without a step end a thread, 1 to 1,000,000 | 64 |
/// | `--drive` | the drive: `serial`, `rounds`, `rings` | `rings` |
/// | `--deal` | the entries of `share`: 1 to 64 digits of 0 to 9 and a to f, each below the number of threads | the numbers below the number of threads |
///
/// A number is what `str::parse` reads: decimal digits, before which one plus may stand. The refusal is
/// `Refusal::NoMemory` where memory was refused. It is `Refusal::BadConfig` for a word that is none of these options, so
/// for `--help` too, an option that stands there twice or has no value, and a value that is not as the table says. A `--`
/// with no word after it says nothing.
pub fn settings<'a>(alloc: Global, words: &'a [&'a str]) -> Result<Config, Refusal>
    ensures lawful { IfOk result (λ config. IsLawful config) }
    ensures refused { IfErr result (λ refusal. (refusal ≡ BadConfig) ⊎ (refusal ≡ NoMemory)) }
    ensures fields { IfOk result (λ config. SaysSo (texts words.entry.now) config) }
    ensures unsaid { IfErr result (RefusesBut (AreLawful (texts words.entry.now))) }
{
    let matches = matched(alloc, words)?;
    let config = config_said(alloc, &matches)?;
    if config.lawful() {
        Ok(config)
    } else {
        Err(Refusal::BadConfig)
    }
}

// The configuration that the values of the options say.
fn config_said(alloc: Global, matches: &ArgMatches<'_>) -> Result<Config, Refusal>
    ensures fields { IfOk result (HasFields (value_found matches.now)) }
    ensures refused { IfErr result (RefusesBut (HaveLawfulFields (value_found matches.now))) }
{
    let capacity = number_said(value_of(matches, "capacity"), 256, MAX_CAPACITY)?;
    let chunk = number_said(value_of(matches, "chunk"), 16, MAX_CHUNK)?;
    let threads = number_said(value_of(matches, "threads"), 2, MAX_THREADS)?;
    let idle = number_said(value_of(matches, "idle"), 64, MAX_IDLE_TURNS)?;
    let drive = drive_said(value_of(matches, "drive"))?;
    let share = share_said(alloc, value_of(matches, "deal"), threads)?;
    Ok(Config {
        capacity,
        chunk,
        threads,
        idle,
        share,
        drive,
    })
}
