// What the words ask for, as `clap` reads them.
ghost use Rattle.std.specs.Prelude.{◌≡◌, ◌≤◌, ◌<◌, ◌^◌, ℕ, List, Some, codes, map, string_bytes, IfErr, IfOk};
ghost use Rattle.clap.specs.Faults.{fault_of};
ghost use Rattle.clap.specs.Kinds.{HasKind};
ghost use Rattle.clap.specs.Values.{kind_of};
ghost use Rattle.std.specs.Str.Parse.{digits_value, without_leading_plus};
ghost use Rattle.clap.specs.Matches.{found_of, one_text};
ghost use Rattle.clap.specs.Simple.{matches_of};
ghost use Rattle.clap.specs.Walk.{rows_of};
ghost use Rattle.boxpleat_batch.specs.Words.{AsksFor, BatchCommand, Takes, most_batch_budget, most_workers};
ghost use Rattle.boxpleat_batch.specs.Numbers.{HasNumber};

use clap::error::ErrorKind;
use clap::{Arg, ArgAction, ArgMatches, Command, Error, value_parser};
use std::alloc::Global;

/// How many workers, and the budget of each design in branches.
#[derive(Clone, Copy, Debug, PartialEq, Eq)]
pub struct Asked {
    pub workers: u64,
    pub budget: u64,
}

/// Why words ask for nothing.
#[derive(Clone, Copy, Debug, PartialEq, Eq)]
pub enum Unasked {
    Refused,
    NoMemory,
}

// What the words ask for. They are refused exactly where the command refuses them for another cause than memory.
pub fn asked_of(alloc: Global, words: &[String]) -> Result<Asked, Unasked>
    ensures asked { IfOk result (λ a. AsksFor (map string_bytes words.now) a) }
    ensures refused { IfErr result (λ e. e ≡ Unasked.Refused → Takes (map string_bytes words.now) → ⊥) }
{
    let matches = match matched(alloc, words) {
        Ok(matches) => matches,
        Err(error) => return Err(cause_of(&error)),
    };
    Ok(Asked {
        workers: number_of(&matches, "workers"),
        budget: number_of(&matches, "budget"),
    })
}

// The number that an option has.
fn number_of(matches: &ArgMatches, name: &str) -> u64
    requires { (most : ℕ) × (most < 2 ^ 16) × HasNumber (found_of matches.now) name.now most }
    ensures text { (t : List ℕ) × (one_text (found_of matches.now) name.now ≡ Some t) × (result ≡ digits_value 10 (without_leading_plus t)) }
    ensures within { (most : ℕ) → most < 2 ^ 16 → HasNumber (found_of matches.now) name.now most → (1 ≤ result) × (result ≤ most) }
{
    match matches.get_one::<u16>(name) {
        Some(number) => u64::from(number),
        None => unreachable!(),
    }
}

fn cause_of(error: &Error) -> Unasked
    ensures { result ≡ Unasked.Refused → kind_of error.now ≡ ErrorKind.OutOfMemory → ⊥ }
{
    match error.kind() {
        ErrorKind::OutOfMemory => Unasked::NoMemory,
        _ => Unasked::Refused,
    }
}

fn matched<'a>(alloc: Global, words: &'a [String]) -> Result<ArgMatches<'a>, Error>
    ensures rows { IfOk result (λ m. rows_of (found_of m) ≡ matches_of BatchCommand (map string_bytes words.entry.now)) }
    ensures takes { IfOk result (λ m. Takes (map string_bytes words.entry.now)) }
    ensures workers { IfOk result (λ m. HasNumber (found_of m) (codes "workers") most_workers) }
    ensures budget { IfOk result (λ m. HasNumber (found_of m) (codes "budget") most_batch_budget) }
    ensures err { IfErr result (λ e. HasKind (fault_of BatchCommand (map string_bytes words.entry.now)) e) }
{
    let workers = Arg::new(alloc, "workers")
        .long("workers")
        .action(ArgAction::Set)
        .value_parser(value_parser!(u16).range(1..=16))
        .default_value("4");
    let budget = Arg::new(alloc, "budget")
        .long("budget")
        .action(ArgAction::Set)
        .value_parser(value_parser!(u16).range(1..=2000))
        .default_value("1000");
    let bare = Command::new(alloc, "boxpleat_batch")
        .no_binary_name(true)
        .disable_help_flag(true)
        .disable_version_flag(true);
    let command = bare.arg(workers)?.arg(budget)?;
    command.try_get_matches_from(words)
}

#[cfg(test)]
mod tests;
