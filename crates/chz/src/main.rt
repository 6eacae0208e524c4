// The command line: a thin program over the proved library.
#![tactic(auto)]

ghost use Rattle.std.specs.Prelude.{◌≡◌, ◌<◌, ◌⊎◌, IsTrue};

mod demo;
mod help;

use options::{Files, Given, Options};
use status::{Fault, Status};
use std::env::Env;
use std::process::ExitCode;

#[derive(Clone, Copy, Debug, PartialEq, Eq)]
enum Command {
    Check,
    Translate,
    Run,
    Demo,
    Help,
    Version,
}

fn command_of(word: &[u8]) -> Option<Command> {
    match word {
        b"check" => Some(Command::Check),
        b"translate" => Some(Command::Translate),
        b"run" => Some(Command::Run),
        b"demo" => Some(Command::Demo),
        b"help" | b"--help" | b"-h" => Some(Command::Help),
        b"version" | b"--version" => Some(Command::Version),
        _ => None,
    }
}

fn check(rt: &HostRuntime, o: &Options) -> Result<Status, Fault> {
    let is_run = o.sheet.is_some() || o.state.is_some() || o.clock.is_some();
    match (o.code, o.files) {
        (Some(code), Files::None) if !is_run => report::check_code_command(rt, code),
        (None, Files::One(sheet)) if !is_run => report::check_command(rt, sheet),
        _ => Err(Fault::Usage("check takes one file: chz check SHEET, or chz check --code CODE")),
    }
}

fn translate(rt: &HostRuntime, o: &Options) -> Result<Status, Fault> {
    match o.files {
        Files::Two(sheet, code) if o.is_plain() => rewrite::translate_command(rt, sheet, code),
        _ => Err(Fault::Usage("translate takes two files: chz translate SHEET CODE")),
    }
}

// That a command is given nothing.
fn alone(o: &Options, usage: &'static str) -> Result<(), Fault> {
    if o.is_plain() && matches!(o.files, Files::None) {
        return Ok(());
    }
    Err(Fault::Usage(usage))
}

fn run_command(rt: &HostRuntime, command: Command, o: &Options) -> Result<Status, Fault> {
    match command {
        Command::Check => check(rt, o),
        Command::Translate => translate(rt, o),
        Command::Run => running::run_command(rt, o),
        Command::Demo => {
            alone(o, "demo takes no file")?;
            demo::demo_command(rt)
        }
        Command::Help => {
            alone(o, "help takes no file")?;
            help::help_command(rt)
        }
        Command::Version => {
            alone(o, "version takes no file")?;
            help::version_command(rt)
        }
    }
}

// Runs the command that the word of this number is, whose options and files are the words after it.
fn run_from(rt: &HostRuntime, number: usize) -> Result<Status, Fault>
    requires { number < 3 }
{
    let Some(word) = files::word_at(rt, number)? else {
        return Ok(help::no_command(rt));
    };
    let Some(command) = command_of(word.bytes()) else {
        return Err(Fault::of_word(rt.alloc(), "there is no command", &word));
    };
    let given = Given::of(rt, number + 1)?;
    run_command(rt, command, &given.options())
}

fn ended(rt: &HostRuntime, number: usize) -> Status
    requires { number < 3 }
{
    run_from(rt, number).unwrap_or_else(|fault| fault.tell(rt))
}

// Whether the first word is --status. No memory is asked for that.
fn asks_status(rt: &HostRuntime) -> bool {
    let mut room = [0u8; 16];
    match rt.arg(1, &mut room) {
        Ok(n) => &room[..n] == b"--status".as_slice(),
        Err(_) => false,
    }
}

// What the program ends with: its status where it was asked for it, else 0 whatever it says, but where nobody reads it.
fn shown(asked: bool, status: Status) -> Status
    ensures asked { IsTrue asked → result ≡ status }
    ensures unasked { ¬ IsTrue asked → (result ≡ Status.Accepted) ⊎ (result ≡ Status.Closed) }
{
    if asked {
        return status;
    }
    match status {
        Status::Closed => Status::Closed,
        _ => Status::Accepted,
    }
}

// The word --status is the launcher's, and the command is the word after it.
fn main(rt: HostRuntime) -> ExitCode {
    let asked = asks_status(&rt);
    let status = ended(&rt, if asked { 2 } else { 1 });
    ExitCode::from(shown(asked, status))
}
