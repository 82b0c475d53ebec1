//! The arguments that the subcommands take.
ghost use Rattle.std.specs.Prelude.{◌≡◌, ◌∷◌, false, IfOk};
ghost use Rattle.clap.specs.Words.{app_of, new_app, rule_of, with_rule};
ghost use Rattle.clap.specs.declared.Command.TheViews.{out-Command as fields_of};
ghost use Rattle.poolctl_words.specs.CommandLine.{flag_rule, number_rule, option_rule, text_rule};

use clap::{Arg, ArgAction, Command, value_parser};
use std::alloc::{AllocError, Global};

/// A number that has to be given, from `low` to `high`.
pub fn number<'a>(alloc: Global, name: &'a str, low: u32, high: u32, help: &'a str) -> Arg<'a>
    ensures rule { rule_of result ≡ number_rule name.entry.now low high }
    ensures local { result.global ≡ false }
{
    Arg::new(alloc, name)
        .required(true)
        .action(ArgAction::Set)
        .value_parser(value_parser!(u32).range(i64::from(low)..=i64::from(high)))
        .help(help)
}

/// An option with a number, and what that is where it isn't given.
#[derive(Clone, Copy, Drop)]
pub struct Choice<'a> {
    /// Its name, behind two dashes.
    pub name: &'a str,
    /// The least number.
    pub low: u32,
    /// The greatest number.
    pub high: u32,
    /// What is read where it isn't given.
    pub default: &'a str,
    /// What the help says of it.
    pub help: &'a str,
}

/// The argument of an option.
pub fn option<'a>(alloc: Global, choice: Choice<'a>) -> Arg<'a>
    ensures rule { rule_of result
        ≡ option_rule choice.entry.name.now choice.entry.low choice.entry.high choice.entry.default.now }
    ensures local { result.global ≡ false }
{
    Arg::new(alloc, choice.name)
        .long(choice.name)
        .action(ArgAction::Set)
        .value_parser(value_parser!(u32).range(i64::from(choice.low)..=i64::from(choice.high)))
        .default_value(choice.default)
        .help(choice.help)
}

/// A flag.
pub fn flag<'a>(alloc: Global, name: &'a str, help: &'a str) -> Arg<'a>
    ensures rule { rule_of result ≡ flag_rule name.entry.now }
    ensures local { result.global ≡ false }
{
    Arg::new(alloc, name)
        .long(name)
        .action(ArgAction::SetTrue)
        .help(help)
}

/// A text that has to be given.
pub fn text<'a>(alloc: Global, name: &'a str, help: &'a str) -> Arg<'a>
    ensures rule { rule_of result ≡ text_rule name.entry.now }
    ensures local { result.global ≡ false }
{
    Arg::new(alloc, name)
        .required(true)
        .action(ArgAction::Set)
        .help(help)
}

/// A command that has no argument.
pub fn plain_command<'a>(alloc: Global, name: &'a str, about: &'a str) -> Command<'a>
    ensures app { app_of result ≡ new_app name.entry.now }
    ensures local { (fields_of result).has_globals ≡ false }
{
    Command::new(alloc, name).about(about)
}

/// The command, with one argument more.
pub fn with_argument<'a>(command: Command<'a>, argument: Arg<'a>) -> Result<Command<'a>, AllocError>
    requires local { (fields_of command).has_globals ≡ false }
    requires local_argument { argument.global ≡ false }
    ensures app { IfOk result (λ c. app_of c ≡ with_rule (app_of command.entry) (rule_of argument.entry)) }
    ensures local { IfOk result (λ c. (fields_of c).has_globals ≡ false) }
{
    command.arg(argument)
}
