// The commands as `clap` takes them.

ghost use Rattle.std.specs.Prelude.{◌≡◌, ◌∷◌, [], IfOk, IsOkAnd, false, codes};
ghost use Rattle.clap.specs.Words.{app_of, new_app, with_rule, with_subcommand};
ghost use Rattle.clap.specs.Simple.{shape_of};
ghost use Rattle.clap.specs.declared.builder.command.Command.TheViews.{out-Command as fields_of};
ghost use Rattle.trick_top_words.specs.Rules.{all_app, form_app, option_rule, place_rule, top_app, with_places};
ghost use Rattle.trick_top_words.specs.declared.Kind.TheVariants as kind;

use clap::{Arg, ArgAction, Command};
use std::alloc::{AllocError, Global};

// One more positional, which is required.
fn place<'a>(alloc: Global, command: Command<'a>, name: &'a str) -> Result<Command<'a>, AllocError>
    ensures { IfOk result (λ r. (app_of r ≡ with_rule (app_of command.entry) (place_rule name.entry.now))
        × ((fields_of r).has_globals ≡ (fields_of command.entry).has_globals)) }
{
    command.arg(Arg::new(alloc, name).required(true).action(ArgAction::Set))
}

// One more option with a value.
fn option<'a>(alloc: Global, command: Command<'a>, name: &'a str) -> Result<Command<'a>, AllocError>
    ensures { IfOk result (λ r. (app_of r ≡ with_rule (app_of command.entry) (option_rule name.entry.now))
        × ((fields_of r).has_globals ≡ (fields_of command.entry).has_globals)) }
{
    command.arg(Arg::new(alloc, name).long(name).action(ArgAction::Set))
}

// One more subcommand, if there was memory to make it. Whether there was is asked here, so that the caller
// owns no command where it gives up.
fn subcommand<'a>(
    command: Command<'a>,
    below: Result<Command<'a>, AllocError>,
) -> Result<Command<'a>, AllocError>
    requires above { (fields_of command).has_globals ≡ false }
    requires below { IfOk below (λ b. (fields_of b).has_globals ≡ false) }
    ensures app { IfOk result (λ r. IsOkAnd below.entry (λ b. app_of r
        ≡ with_subcommand (app_of command.entry) (shape_of b))) }
    ensures globals { IfOk result (λ r. (fields_of r).has_globals ≡ false) }
{
    let below = below?;
    command.subcommand(below)
}

fn two_places<'a>(alloc: Global, name: &'a str) -> Result<Command<'a>, AllocError>
    ensures { IfOk result (λ r. (app_of r ≡ with_places (new_app name.entry.now)
        (codes "S_DEFINE" ∷ codes "INPUT" ∷ [])) × ((fields_of r).has_globals ≡ false)) }
{
    let command = Command::new(alloc, name);
    let command = place(alloc, command, "S_DEFINE")?;
    place(alloc, command, "INPUT")
}

fn serial<'a>(alloc: Global) -> Result<Command<'a>, AllocError>
    ensures app { IfOk result (λ r. app_of r ≡ form_app kind.Serial) }
    ensures globals { IfOk result (λ r. (fields_of r).has_globals ≡ false) }
{
    let command = two_places(alloc, "serial")?;
    option(alloc, command, "from")
}

fn run<'a>(alloc: Global) -> Result<Command<'a>, AllocError>
    ensures app { IfOk result (λ r. app_of r ≡ form_app kind.Run) }
    ensures globals { IfOk result (λ r. (fields_of r).has_globals ≡ false) }
{
    let command = two_places(alloc, "run")?;
    let command = option(alloc, command, "from")?;
    option(alloc, command, "port")
}

fn replay<'a>(alloc: Global) -> Result<Command<'a>, AllocError>
    ensures app { IfOk result (λ r. app_of r ≡ form_app kind.Replay) }
    ensures globals { IfOk result (λ r. (fields_of r).has_globals ≡ false) }
{
    let command = two_places(alloc, "replay")?;
    let command = place(alloc, command, "JOURNAL")?;
    option(alloc, command, "from")
}

fn check<'a>(alloc: Global) -> Result<Command<'a>, AllocError>
    ensures app { IfOk result (λ r. app_of r ≡ form_app kind.Check) }
    ensures globals { IfOk result (λ r. (fields_of r).has_globals ≡ false) }
{
    two_places(alloc, "check")
}

fn list<'a>(alloc: Global) -> Result<Command<'a>, AllocError>
    ensures app { IfOk result (λ r. app_of r ≡ form_app kind.List) }
    ensures globals { IfOk result (λ r. (fields_of r).has_globals ≡ false) }
{
    two_places(alloc, "list")
}

fn generate<'a>(alloc: Global) -> Result<Command<'a>, AllocError>
    ensures app { IfOk result (λ r. app_of r ≡ form_app kind.Gen) }
    ensures globals { IfOk result (λ r. (fields_of r).has_globals ≡ false) }
{
    let command = Command::new(alloc, "gen");
    place(alloc, command, "N")
}

// The command that the others stand below.
fn top<'a>(alloc: Global) -> Command<'a>
    ensures { (app_of result ≡ top_app) × ((fields_of result).has_globals ≡ false) }
{
    Command::new(alloc, "tricks")
        .no_binary_name(true)
        .disable_help_flag(true)
        .disable_version_flag(true)
        .disable_help_subcommand(true)
        .subcommand_required(true)
}

/// The whole command line.
pub(crate) fn all<'a>(alloc: Global) -> Result<Command<'a>, AllocError>
    ensures app { IfOk result (λ r. app_of r ≡ all_app) }
    ensures globals { IfOk result (λ r. (fields_of r).has_globals ≡ false) }
{
    let command = subcommand(top(alloc), serial(alloc))?;
    let command = subcommand(command, run(alloc))?;
    let command = subcommand(command, replay(alloc))?;
    let command = subcommand(command, check(alloc))?;
    let command = subcommand(command, list(alloc))?;
    subcommand(command, generate(alloc))
}
