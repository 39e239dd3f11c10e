//! The commands, their options and their operands, as they are given to `clap`, and what it found of them.
ghost use Rattle.std.specs.Prelude.{◌≡◌, List, [], IfOk, false, true, option_map, unwrap_or};
ghost use Rattle.clap.specs.Words.{app_of, found_of, rows_of, rule_of, with_rule, with_subcommand};
ghost use Rattle.clap.specs.declared.builder.command.Command.TheViews.{out-Command as fields_of};
ghost use Rattle.command_line.specs.declared.options.OptionName.{OptionName as Name};
ghost use Rattle.command_line.specs.Grammar.{IsGiven, Text, texts};
ghost use Rattle.command_line.specs.Forms.{AreFound, bare, front, make, operand_rule, option_rule, program, vabgrot};

use crate::options::OptionName;
use clap::{Arg, ArgAction, ArgMatches, Command};
use std::alloc::{AllocError, Global};

/// The program with all its commands. Help, versions and shortened names are of no form.
pub(crate) fn forms<'a>(alloc: Global) -> Result<Command<'a>, AllocError>
    ensures app { IfOk result (λ c. app_of c ≡ vabgrot) }
    ensures local { IfOk result (λ c. (fields_of c).has_globals ≡ false) }
{
    let command = front_forms(alloc)?;
    let command = with_form(alloc, command, "slip", operand(alloc))?;
    let command = with_form(alloc, command, "read", operand(alloc))?;
    let command = command.subcommand(bare(alloc, "relay"))?;
    with_form(alloc, command, "sample", operand(alloc))
}

/// The program with its first four commands.
fn front_forms<'a>(alloc: Global) -> Result<Command<'a>, AllocError>
    ensures app { IfOk result (λ c. app_of c ≡ front) }
    ensures local { IfOk result (λ c. (fields_of c).has_globals ≡ false) }
{
    let make = make_form(alloc)?;
    let command = program(alloc).subcommand(make)?;
    let command = with_form(alloc, command, "recover", operands(alloc))?;
    let command = command.subcommand(bare(alloc, "check"))?;
    with_form(alloc, command, "damage", operands(alloc))
}

/// `make` with one operand and four options.
fn make_form<'a>(alloc: Global) -> Result<Command<'a>, AllocError>
    ensures app { IfOk result (λ c. app_of c ≡ make) }
    ensures local { IfOk result (λ c. (fields_of c).has_globals ≡ false) }
{
    let command = form(alloc, "make", operand(alloc))?;
    let command = with_option(alloc, command, OptionName::Offset)?;
    let command = with_option(alloc, command, OptionName::Skew)?;
    let command = with_option(alloc, command, OptionName::Bits)?;
    with_option(alloc, command, OptionName::Version)
}

/// The program with one more command, which takes such operands.
fn with_form<'a>(
    alloc: Global,
    program: Command<'a>,
    name: &'a str,
    argument: Arg<'a>,
) -> Result<Command<'a>, AllocError>
    requires { argument.global ≡ false }
    ensures app { IfOk result (λ c. app_of c ≡ with_subcommand (app_of program.entry) (with_rule (bare name.entry.now) (rule_of argument.entry)).top) }
    ensures local { IfOk result (λ c. (fields_of c).has_globals ≡ (fields_of program.entry).has_globals) }
{
    let command = form(alloc, name, argument)?;
    program.subcommand(command)
}

/// A command that takes such operands.
fn form<'a>(alloc: Global, name: &'a str, argument: Arg<'a>) -> Result<Command<'a>, AllocError>
    requires { argument.global ≡ false }
    ensures app { IfOk result (λ c. app_of c ≡ with_rule (bare name.entry.now) (rule_of argument.entry)) }
    ensures local { IfOk result (λ c. (fields_of c).has_globals ≡ false) }
{
    bare(alloc, name).arg(argument)
}

fn program<'a>(alloc: Global) -> Command<'a>
    ensures app { app_of result ≡ program }
    ensures local { (fields_of result).has_globals ≡ false }
{
    bare(alloc, "vabgrot")
        .disable_help_subcommand(true)
        .no_binary_name(true)
        .subcommand_required(true)
}

/// A command without operands and options.
fn bare<'a>(alloc: Global, name: &'a str) -> Command<'a>
    ensures app { app_of result ≡ bare name.entry.now }
    ensures local { (fields_of result).has_globals ≡ false }
{
    Command::new(alloc, name)
        .disable_help_flag(true)
        .disable_version_flag(true)
}

/// The command with one more option, which takes one value.
fn with_option<'a>(
    alloc: Global,
    command: Command<'a>,
    name: OptionName,
) -> Result<Command<'a>, AllocError>
    ensures app { IfOk result (λ c. app_of c ≡ with_rule (app_of command.entry) (option_rule name)) }
    ensures local { IfOk result (λ c. (fields_of c).has_globals ≡ (fields_of command.entry).has_globals) }
{
    command.arg(option(alloc, name))
}

fn option<'a>(alloc: Global, name: OptionName) -> Arg<'a>
    ensures rule { rule_of result ≡ option_rule name }
    ensures local { result.global ≡ false }
{
    let id = name.id();
    Arg::new(alloc, id).long(id).action(ArgAction::Set)
}

fn operand<'a>(alloc: Global) -> Arg<'a>
    ensures rule { rule_of result ≡ operand_rule false }
    ensures local { result.global ≡ false }
{
    Arg::new(alloc, "operand")
        .required(true)
        .action(ArgAction::Set)
}

/// One operand or more.
fn operands<'a>(alloc: Global) -> Arg<'a>
    ensures rule { rule_of result ≡ operand_rule true }
    ensures local { result.global ≡ false }
{
    Arg::new(alloc, "operand")
        .required(true)
        .action(ArgAction::Append)
}

/// The value of an option that was found.
pub(crate) fn option_text<'a>(matches: &ArgMatches<'a>, name: OptionName) -> Option<&'a str>
    ensures { (options : List (Name × Text)) (operands : List Text) → AreFound (rows_of (found_of matches.now)) options operands → IsGiven name options (option_map (λ text. text.now) result) }
{
    matches.get_str(name.id())
}

/// The operands that were found, in order; none where there are none.
pub(crate) fn operand_texts<'a, 'b: 'a>(matches: &'a ArgMatches<'b>) -> Option<&'a [&'b str]>
    ensures { (options : List (Name × Text)) (operands : List Text) → AreFound (rows_of (found_of matches.now)) options operands → unwrap_or (option_map (λ found. texts found.now) result) [] ≡ operands }
{
    matches.get_raw("operand")
}
