//! The words of `scrypt` as `clap` is told of them. No argument refers to another, so what the words
//! mean is what `clap` defines for a simple command. A command under way is handed on as a `Result`: what adds
//! to it alone looks at whether there was memory so far.
ghost use Rattle.std.specs.Prelude.{◌≡◌, IfOk, false, fold};
ghost use Rattle.clap.specs.Words.{App, rule_of, with_rule, with_subcommand};
ghost use Rattle.scrypt_words.specs.CommandLine.{IsCommandForApp, enc_and_dec_arguments, app_of_dec_subcommand, app_of_enc_subcommand, app_of_info_subcommand, long_option, app_with_subcommands, scrypt_app, short_option, stdin_flag};

use clap::{Arg, ArgAction, Command};
use std::alloc::{AllocError, Global};

// An argument more, if there was memory for the command. What is not used is let go of by name, here and below: the end
// of the scope would do so part by part.
fn with_argument<'a>(
    command: Result<Command<'a>, AllocError>,
    argument: Arg<'a>,
) -> Result<Command<'a>, AllocError>
    requires local { argument.global ≡ false }
    ensures command { (app : App) → IfOk command.entry (IsCommandForApp app)
        → IfOk result (IsCommandForApp (with_rule app (rule_of argument.entry))) }
{
    match command {
        Ok(command) => command.arg(argument),
        Err(fault) => {
            drop(argument);
            Err(fault)
        }
    }
}

// `--name VALUE`
fn add_long_option<'a>(
    alloc: Global,
    command: Result<Command<'a>, AllocError>,
    name: &'a str,
) -> Result<Command<'a>, AllocError>
    ensures command { (app : App) → IfOk command.entry (IsCommandForApp app)
        → IfOk result (IsCommandForApp (with_rule app (long_option name.entry.now))) }
{
    with_argument(command, Arg::new(alloc, name).long(name))
}

// `-c VALUE`, under a name.
fn add_short_option<'a>(
    alloc: Global,
    command: Result<Command<'a>, AllocError>,
    name: &'a str,
    short: char,
) -> Result<Command<'a>, AllocError>
    ensures command { (app : App) → IfOk command.entry (IsCommandForApp app)
        → IfOk result (IsCommandForApp (with_rule app (short_option name.entry.now short))) }
{
    with_argument(command, Arg::new(alloc, name).short(short))
}

// `-P`
fn add_stdin_flag<'a>(
    alloc: Global,
    command: Result<Command<'a>, AllocError>,
) -> Result<Command<'a>, AllocError>
    ensures command { (app : App) → IfOk command.entry (IsCommandForApp app)
        → IfOk result (IsCommandForApp (with_rule app stdin_flag)) }
{
    let flag = Arg::new(alloc, "P").short('P').action(ArgAction::SetTrue);
    with_argument(command, flag)
}

// What `enc` and `dec` both take.
fn add_enc_and_dec_arguments<'a>(
    alloc: Global,
    command: Result<Command<'a>, AllocError>,
) -> Result<Command<'a>, AllocError>
    ensures command { (app : App) → IfOk command.entry (IsCommandForApp app)
        → IfOk result (IsCommandForApp (fold with_rule app enc_and_dec_arguments)) }
{
    let command = add_short_option(alloc, command, "M", 'M');
    let command = add_long_option(alloc, command, "maxops");
    let command = add_long_option(alloc, command, "keep");
    let command = add_stdin_flag(alloc, command);
    let command = add_long_option(alloc, command, "passphrase");
    let command = with_argument(command, Arg::new(alloc, "infile"));
    with_argument(command, Arg::new(alloc, "outfile"))
}

fn build_enc_command<'a>(alloc: Global) -> Result<Command<'a>, AllocError>
    ensures command { IfOk result (IsCommandForApp app_of_enc_subcommand) }
{
    let command = add_long_option(alloc, Ok(Command::new(alloc, "enc")), "logN");
    let command = add_short_option(alloc, command, "r", 'r');
    let command = add_short_option(alloc, command, "p", 'p');
    let command = add_long_option(alloc, command, "salt");
    add_enc_and_dec_arguments(alloc, command)
}

fn build_dec_command<'a>(alloc: Global) -> Result<Command<'a>, AllocError>
    ensures command { IfOk result (IsCommandForApp app_of_dec_subcommand) }
{
    add_enc_and_dec_arguments(alloc, Ok(Command::new(alloc, "dec")))
}

fn build_info_command<'a>(alloc: Global) -> Result<Command<'a>, AllocError>
    ensures command { IfOk result (IsCommandForApp app_of_info_subcommand) }
{
    with_argument(Ok(Command::new(alloc, "info")), Arg::new(alloc, "infile"))
}

// A subcommand more, if there was memory for both.
fn add_subcommand<'a>(
    command: Result<Command<'a>, AllocError>,
    subcommand: Result<Command<'a>, AllocError>,
) -> Result<Command<'a>, AllocError>
    ensures command { (app added : App) → IfOk command.entry (IsCommandForApp app)
        → IfOk subcommand.entry (IsCommandForApp added)
        → IfOk result (IsCommandForApp (with_subcommand app added.top)) }
{
    match command {
        Ok(command) => match subcommand {
            Ok(subcommand) => command.subcommand(subcommand),
            Err(fault) => {
                drop(command);
                Err(fault)
            }
        },
        Err(fault) => {
            drop(subcommand);
            Err(fault)
        }
    }
}

// The three subcommands.
fn build_command_with_subcommands<'a>(alloc: Global) -> Result<Command<'a>, AllocError>
    ensures command { IfOk result (IsCommandForApp app_with_subcommands) }
{
    let command = add_subcommand(Ok(Command::new(alloc, "scrypt")), build_enc_command(alloc));
    let command = add_subcommand(command, build_dec_command(alloc));
    add_subcommand(command, build_info_command(alloc))
}

/// The command, for words without the program's name.
pub fn build_scrypt_command<'a>(alloc: Global) -> Result<Command<'a>, AllocError>
    ensures command { IfOk result (IsCommandForApp scrypt_app) }
{
    Ok(build_command_with_subcommands(alloc)?.no_binary_name(true))
}
