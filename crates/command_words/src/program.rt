//! The program as `clap` is told of it.
ghost use Rattle.std.specs.Prelude.{◌≡◌, ◌∷◌, [], Err, IfOk, IsErr, codes, false, map, string_bytes};
ghost use Rattle.clap.specs.Faults.{fault_of};
ghost use Rattle.clap.specs.Words.{app_of, shape_of, takes, with_rule, with_subcommand, new_app};
ghost use Rattle.clap.specs.declared.error.kind.ErrorKind.TheVariants.{OutOfMemory};
ghost use Rattle.clap.specs.declared.builder.command.Command.TheViews.{out-Command};
ghost use Rattle.command_words.specs.declared.commands.WordsRefused.TheVariants.{Usage};
ghost use Rattle.command_words.specs.Program.{word_rule, last_rule, taking, bare_program, serve_shape, second_half, last_two};
ghost use Rattle.command_words.specs.Program as spec;

use crate::commands::WordsRefused;
use clap::error::ErrorKind;
use clap::{Arg, ArgAction, Command};
use std::alloc::{AllocError, Global};

/// A command with one more word that has to be there.
fn with_word<'a>(
    alloc: Global,
    command: Command<'a>,
    id: &'a str,
) -> Result<Command<'a>, AllocError>
    requires { (out-Command command).has_globals ≡ false }
    ensures shape { IfOk result (λ c. app_of c ≡ with_rule (app_of command.entry) (word_rule id.entry.now)) }
    ensures plain { IfOk result (λ c. (out-Command c).has_globals ≡ false) }
{
    let word = Arg::new(alloc, id).required(true).action(ArgAction::Set);
    command.arg(word)
}

/// A command with one more word that may be left out.
fn with_last<'a>(
    alloc: Global,
    command: Command<'a>,
    id: &'a str,
) -> Result<Command<'a>, AllocError>
    requires { (out-Command command).has_globals ≡ false }
    ensures shape { IfOk result (λ c. app_of c ≡ with_rule (app_of command.entry) (last_rule id.entry.now)) }
    ensures plain { IfOk result (λ c. (out-Command c).has_globals ≡ false) }
{
    let word = Arg::new(alloc, id).action(ArgAction::Set);
    command.arg(word)
}

/// A command with one more subcommand.
fn with_command<'a>(command: Command<'a>, sub: Command<'a>) -> Result<Command<'a>, AllocError>
    requires plain { (out-Command command).has_globals ≡ false }
    requires leaf { (out-Command sub).has_globals ≡ false }
    ensures shape { IfOk result (λ c. app_of c ≡ with_subcommand (app_of command.entry) (shape_of sub.entry)) }
    ensures plain { IfOk result (λ c. (out-Command c).has_globals ≡ false) }
{
    command.subcommand(sub)
}

/// The command `play`, or another before its words.
fn alone<'a>(alloc: Global, name: &'a str) -> Command<'a>
    ensures shape { app_of result ≡ new_app name.entry.now }
    ensures plain { (out-Command result).has_globals ≡ false }
{
    Command::new(alloc, name)
}

/// A command that takes one word.
fn with_one<'a>(alloc: Global, name: &'a str, id: &'a str) -> Result<Command<'a>, AllocError>
    ensures shape { IfOk result (λ c. shape_of c ≡ taking name.entry.now (id.entry.now ∷ [])) }
    ensures plain { IfOk result (λ c. (out-Command c).has_globals ≡ false) }
{
    with_word(alloc, alone(alloc, name), id)
}

/// A command that takes two.
fn with_both<'a>(
    alloc: Global,
    name: &'a str,
    id: &'a str,
    other: &'a str,
) -> Result<Command<'a>, AllocError>
    ensures shape { IfOk result (λ c. shape_of c ≡ taking name.entry.now (id.entry.now ∷ other.entry.now ∷ [])) }
    ensures plain { IfOk result (λ c. (out-Command c).has_globals ≡ false) }
{
    let command = with_word(alloc, alone(alloc, name), id)?;
    with_word(alloc, command, other)
}

/// The command `serve`.
fn serve<'a>(alloc: Global) -> Result<Command<'a>, AllocError>
    ensures shape { IfOk result (λ c. shape_of c ≡ serve_shape) }
    ensures plain { IfOk result (λ c. (out-Command c).has_globals ≡ false) }
{
    let command = with_word(alloc, alone(alloc, "serve"), "STORE")?;
    let command = with_word(alloc, command, "SMTP")?;
    let command = with_word(alloc, command, "IMAP")?;
    let command = with_word(alloc, command, "HTTP")?;
    with_last(alloc, command, "POP")
}

/// The program, before its subcommands.
fn bare<'a>(alloc: Global) -> Command<'a>
    ensures shape { app_of result ≡ bare_program }
    ensures plain { (out-Command result).has_globals ≡ false }
{
    Command::new(alloc, "undomail")
        .no_binary_name(true)
        .disable_help_flag(true)
        .disable_help_subcommand(true)
        .subcommand_required(true)
}

/// A program with one more subcommand, which takes one word.
fn add_one<'a>(
    alloc: Global,
    command: Command<'a>,
    name: &'a str,
    id: &'a str,
) -> Result<Command<'a>, AllocError>
    requires { (out-Command command).has_globals ≡ false }
    ensures shape { IfOk result (λ c. app_of c ≡ with_subcommand (app_of command.entry) (taking name.entry.now (id.entry.now ∷ []))) }
    ensures plain { IfOk result (λ c. (out-Command c).has_globals ≡ false) }
{
    with_command(command, with_one(alloc, name, id)?)
}

/// A program with the subcommand `serve`.
fn add_serve<'a>(alloc: Global, command: Command<'a>) -> Result<Command<'a>, AllocError>
    requires { (out-Command command).has_globals ≡ false }
    ensures shape { IfOk result (λ c. app_of c ≡ with_subcommand (app_of command.entry) serve_shape) }
    ensures plain { IfOk result (λ c. (out-Command c).has_globals ≡ false) }
{
    with_command(command, serve(alloc)?)
}

/// The program with its first three subcommands.
fn first_half<'a>(alloc: Global) -> Result<Command<'a>, AllocError>
    ensures shape { IfOk result (λ c. app_of c ≡ spec.first_half) }
    ensures plain { IfOk result (λ c. (out-Command c).has_globals ≡ false) }
{
    let command = add_one(alloc, bare(alloc), "init", "STORE")?;
    let command = add_serve(alloc, command)?;
    add_one(alloc, command, "script", "STORE")
}

/// A program with three subcommands more.
fn second_half<'a>(alloc: Global, command: Command<'a>) -> Result<Command<'a>, AllocError>
    requires { (out-Command command).has_globals ≡ false }
    ensures shape { IfOk result (λ c. app_of c ≡ second_half (app_of command.entry)) }
    ensures plain { IfOk result (λ c. (out-Command c).has_globals ≡ false) }
{
    let command = with_command(command, alone(alloc, "play"))?;
    let command = add_one(alloc, command, "grow", "ROUNDS")?;
    add_one(alloc, command, "check", "STORE")
}

/// A program with the last two subcommands too.
fn last_two<'a>(alloc: Global, command: Command<'a>) -> Result<Command<'a>, AllocError>
    requires { (out-Command command).has_globals ≡ false }
    ensures { IfOk result (λ c. app_of c ≡ last_two (app_of command.entry)) }
{
    let command = with_command(command, with_both(alloc, "cut", "STORE", "POINT")?)?;
    add_one(alloc, command, "audit", "STORE")
}

/// The program with its subcommands.
fn program<'a>(alloc: Global) -> Result<Command<'a>, AllocError>
    ensures { IfOk result (λ c. app_of c ≡ spec.program) }
{
    let command = second_half(alloc, first_half(alloc)?)?;
    last_two(alloc, command)
}

/// A refusal of `clap` for another cause than memory means that the words are of no stated shape.
fn refused(kind: ErrorKind) -> Result<(), WordsRefused>
    ensures refuses { IsErr result }
    ensures usage { result ≡ Err Usage → ¬ (kind ≡ OutOfMemory) }
{
    if kind == ErrorKind::OutOfMemory {
        Err(WordsRefused::NoMemory)
    } else {
        Err(WordsRefused::Usage)
    }
}

/// Has `clap` read words; nothing is kept of what it finds. It takes them only where it finds no fault in them.
pub fn let_clap_read(alloc: Global, words: &[String]) -> Result<(), WordsRefused>
    ensures taken { IfOk result (λ nothing. fault_of spec.program (map string_bytes words.now) ≡ []) }
    ensures usage { result ≡ Err Usage → takes spec.program (map string_bytes words.now) ≡ false }
{
    let Ok(program) = program(alloc) else {
        return Err(WordsRefused::NoMemory);
    };
    match program.try_get_matches_from(words) {
        Ok(_) => Ok(()),
        Err(error) => refused(error.kind()),
    }
}
