// The words as clap reads them.
ghost use Rattle.std.specs.Prelude.{◌≤◌};
ghost use Rattle.module_basis.specs.declared.cap.TheConstants.{MAX_CAP};

use crate::asking::{Ask, ask_of};
use crate::options::{Given, MAX_LIMIT, MAX_WORKERS, first_word, number_in};
use clap::{Arg, ArgAction, ArgMatches, Command, Error};
use lists::NoMemory;
use module_basis::MAX_CAP;
use std::alloc::{AllocError, Global};

// An option with a value.
fn option<'a>(alloc: Global, name: &'a str) -> Arg<'a> {
    Arg::new(alloc, name).long(name).action(ArgAction::Set)
}

// The options of all commands, and nothing that clap adds by itself.
fn options<'a>(alloc: Global) -> Result<Command<'a>, AllocError> {
    Command::new(alloc, "locnorm")
        .no_binary_name(true)
        .disable_help_flag(true)
        .disable_version_flag(true)
        .arg(option(alloc, "workers"))?
        .arg(option(alloc, "degree"))?
        .arg(option(alloc, "delta"))
}

fn matches<'a>(alloc: Global, words: &'a [String]) -> Result<ArgMatches<'a>, Error> {
    options(alloc)?.try_get_matches_from(words)
}

// The number of the option, where it is given.
fn number_of(found: &ArgMatches<'_>, name: &str, most: u32) -> Option<u32>
    requires { most ≤ MAX_CAP }
{
    number_in(most, found.get_str(name)?.as_bytes())
}

// What the options are set to.
fn given_by(found: &ArgMatches<'_>) -> Given {
    Given {
        workers: number_of(found, "workers", MAX_WORKERS),
        degree: number_of(found, "degree", MAX_CAP),
        delta: number_of(found, "delta", MAX_LIMIT),
    }
}

// What the words ask for.
pub(crate) fn asked_by(alloc: Global, words: &[String]) -> Result<Option<Ask>, NoMemory> {
    let Some((command, options)) = first_word(words) else {
        return Ok(None);
    };
    match matches(alloc, options) {
        Ok(found) => Ok(ask_of(command, given_by(&found))),
        Err(_) => Err(NoMemory),
    }
}
