//! The words of a call.

ghost use Rattle.std.specs.Prelude.{◌≡◌, IfOk, false, true};
ghost use Rattle.clap.specs.Matches.{has_subcommand};
ghost use Rattle.osc_command.specs.Calls.{IsLocal, NeedsSubcommand};

use crate::calls::{ABOUT, CALLS, Call, EXAMPLE, Takes, Word};
use clap::{Arg, ArgAction, ArgMatches, Command, Error};
use osc_context::Piv;
use osc_text::{Fault, HexError, Wrong, read_hex, read_number};
use std::alloc::{AllocError, Global};

const VERSION: &str = "0.1.0";

/// Returns the option of this name, as the help shows it.
fn option_of<'a>(alloc: Global, word: &'a Word) -> Arg<'a>
    ensures { result.global ≡ false }
{
    Arg::new(alloc, word.name).long(word.name).help(word.help)
}

/// Returns the option with one value.
fn valued<'a>(alloc: Global, word: &'a Word) -> Arg<'a>
    ensures { result.global ≡ false }
{
    option_of(alloc, word)
        .value_name(word.value)
        .action(ArgAction::Set)
}

/// Returns the option whose value is one of `choices`.
fn choice<'a>(alloc: Global, word: &'a Word, choices: &'a [&'a str]) -> Arg<'a>
    ensures { result.global ≡ false }
{
    valued(alloc, word).value_parser(choices)
}

/// Returns an option or a word, as the parser takes it.
fn arg_of<'a>(alloc: Global, word: &'a Word) -> Result<Arg<'a>, AllocError>
    ensures { IfOk result (λ arg. arg.global ≡ false) }
{
    match word.takes {
        Takes::Alone => Ok(
            Arg::new(alloc, word.name)
                .value_name(word.value)
                .required(true)
                .help(word.help),
        ),
        Takes::Nothing => Ok(option_of(alloc, word).action(ArgAction::SetTrue)),
        Takes::NothingBeside(other) => option_of(alloc, word)
            .action(ArgAction::SetTrue)
            .requires_arg(other),
        Takes::Value => Ok(valued(alloc, word)),
        Takes::Required => Ok(valued(alloc, word).required(true)),
        Takes::Default(value) => Ok(valued(alloc, word).default_value(value)),
        Takes::ValueFor(first, second) => valued(alloc, word)
            .conflicts_with(first)?
            .conflicts_with(second),
        Takes::NothingWithout(other) => option_of(alloc, word)
            .action(ArgAction::SetTrue)
            .conflicts_with(other),
        Takes::OneOf(choices) => Ok(choice(alloc, word, choices)),
        Takes::RequiredOneOf(choices) => Ok(choice(alloc, word, choices).required(true)),
        Takes::AnyOf(choices) => Ok(choice(alloc, word, choices).action(ArgAction::Append)),
    }
}

/// Adds options and words to a command, in order.
fn with_words<'a>(
    command: Command<'a>,
    alloc: Global,
    words: &'a [Word],
) -> Result<Command<'a>, AllocError>
    requires { IsLocal command }
    ensures { IfOk result IsLocal }
{
    let mut command = command;
    for word in words {
        command = command.arg(arg_of(alloc, word)?)?;
    }
    Ok(command)
}

/// Returns a call, with its options and words.
fn call_of<'a>(alloc: Global, call: &'a Call) -> Result<Command<'a>, AllocError>
    ensures { IfOk result IsLocal }
{
    let command = Command::new(alloc, call.name)
        .about(call.about)
        .after_help(call.example);
    with_words(
        with_words(command, alloc, call.context)?,
        alloc,
        call.others,
    )
}

/// Returns the command without its calls.
fn without_calls<'a>(alloc: Global) -> Result<Command<'a>, AllocError>
    ensures { IfOk result IsLocal }
{
    let command = Command::new(alloc, "oscore").bin_name("oscore")?;
    Ok(command.version(VERSION).about(ABOUT).after_help(EXAMPLE))
}

/// Returns everything that the words of a call can ask for.
fn program<'a>(alloc: Global) -> Result<Command<'a>, AllocError>
    ensures local { IfOk result IsLocal }
    ensures required { IfOk result NeedsSubcommand }
{
    let bare = without_calls(alloc)?;
    let mut command = bare;
    for call in CALLS {
        command = command.subcommand(call_of(alloc, call)?)?;
    }
    Ok(command.subcommand_required(true))
}

/// Reads the words of a call. The first word is the program's name. If the words ask for help, returns it as an error of the kind
/// `DisplayHelp`.
pub fn read_words<'a>(alloc: Global, words: &'a [String]) -> Result<ArgMatches<'a>, Error>
    ensures named { IfOk result (λ matches. has_subcommand matches ≡ true) }
{
    let command = program(alloc)?;
    command.try_get_matches_from(words)
}

/// Returns the fault of one word, named by its place in the call.
pub(crate) fn input_fault(word: &'static str, wrong: Wrong) -> Fault {
    Fault::Input { word, wrong }
}

/// Returns the bytes that a word spells, or the fault that names the word's place in the call.
pub(crate) fn bytes_of(alloc: Global, name: &'static str, word: &str) -> Result<Vec<u8>, Fault> {
    match read_hex(alloc, word) {
        Ok(bytes) => Ok(bytes),
        Err(HexError::Memory) => Err(Fault::Memory),
        Err(HexError::NotDigit { place: 1 }) if word.starts_with("0x") || word.starts_with("0X") =>
            { Err(input_fault(name, Wrong::Prefixed)) }
        Err(HexError::NotDigit { place }) => {
            Err(input_fault(name, Wrong::BadHex(place.saturating_add(1))))
        }
        Err(HexError::OddLength) => Err(input_fault(name, Wrong::OddHex)),
    }
}

/// Returns the bytes of a word that the call requires. The words were read before, so the word is there.
pub(crate) fn required_bytes(
    alloc: Global,
    matches: &ArgMatches<'_>,
    id: &str,
    name: &'static str,
) -> Result<Vec<u8>, Fault> {
    match matches.get_str(id) {
        Some(word) => bytes_of(alloc, name, word),
        None => Err(input_fault(name, Wrong::Missing)),
    }
}

/// Returns the number of a word, if the word is there, or the fault that names the word's place in the call.
pub(crate) fn optional_number(
    matches: &ArgMatches<'_>,
    id: &str,
    name: &'static str,
) -> Result<Option<Piv>, Fault> {
    match matches.get_str(id) {
        Some(word) => match read_number(word) {
            Some(number) => Ok(Some(number)),
            None => Err(input_fault(name, Wrong::Number)),
        },
        None => Ok(None),
    }
}
