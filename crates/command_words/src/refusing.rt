//! Refusals of words that the reader of command lines would take, and the usage that they print.
ghost use Rattle.std.specs.Prelude.{◌∷◌, []};
ghost use Rattle.command_words.specs.Words.{IsRefusedFor};

use crate::words::WordsFault;
use clap::Command;
use clap::error::ErrorKind;
use std::alloc::Global;

/// The refusal of two arguments of a command that may not stand together.
pub fn two_forms(alloc: Global, name: &str, one: &str, other: &str) -> WordsFault
    ensures { IsRefusedFor (ErrorKind.ArgumentConflict ∷ []) result }
{
    let Ok(message) = format!(in alloc; "the argument '--{one}' cannot be used with '--{other}'")
    else {
        return WordsFault::Memory;
    };
    unfit(alloc, name, ErrorKind::ArgumentConflict, message.as_str())
}

/// The refusal of an N that is no number of a plan.
pub fn no_number(alloc: Global, name: &str, text: &str) -> WordsFault
    ensures { IsRefusedFor (ErrorKind.ValueValidation ∷ []) result }
{
    let Ok(message) = format!(in alloc;
        "invalid value '{text}' for '--plan <N>': not a number from 0 to 65535"
    ) else {
        return WordsFault::Memory;
    };
    unfit(alloc, name, ErrorKind::ValueValidation, message.as_str())
}

/// A refusal of the words for the command with this name, in the form of clap's refusals.
pub fn unfit(alloc: Global, name: &str, kind: ErrorKind, message: &str) -> WordsFault
    ensures { IsRefusedFor (kind ∷ []) result }
{
    let mut command = Command::new(alloc, name).override_usage(usage(name));
    match command.error(kind, message) {
        Ok(error) => WordsFault::Refused(error),
        Err(_) => WordsFault::Memory,
    }
}

/// The usage of a command whose options the reader of command lines can't refuse by itself.
pub fn usage(name: &str) -> &'static str {
    match name {
        "run" => "paklour run [OPTIONS] [FILE]",
        "report" => "paklour report [OPTIONS] <FILE>",
        "try" => "paklour try <--scenario <TEXT>|--plan <N>> [FILE]",
        "explain" => "paklour explain <--scenario <TEXT>|--plan <N>> [FILE]",
        _ => "paklour reduce [OPTIONS] <--scenario <TEXT>|--plan <N>> [FILE]",
    }
}
