//! An option of a command as a row of a table, and as `clap` knows it.

use clap::builder::ValueParser;
use clap::{Arg, ArgAction};
use std::alloc::{AllocError, Global};

// What an option takes.
#[derive(Clone, Copy)]
pub(crate) enum Takes {
    // Nothing: it is there or not.
    Nothing,
    // A value, which help names so.
    Value(&'static str),
    // A path that isn't empty, which help names so.
    Path(&'static str),
    // One of these values, the first one if it isn't given.
    Choice(&'static str, &'static [&'static str]),
    // One of these values.
    OneOf(&'static str, &'static [&'static str]),
    // A number from 1 to 16, and 1 if it isn't given.
    Threads,
    // Paths, as arguments without a name.
    Paths,
    // One path or more, which aren't empty, each time it is given.
    PathsBehind,
}

// How often an option is given.
#[derive(Clone, Copy)]
pub(crate) enum Given {
    // Once or not at all.
    Maybe,
    // Once.
    Once,
    // Any number of times.
    Often,
    // Once or more.
    OnceOrMore,
}

// What an option has to do with another one, which is named.
#[derive(Clone, Copy)]
pub(crate) enum Tie {
    // Nothing.
    Free,
    // It isn't given beside the other one.
    Against(&'static str),
    // It is only given beside the other one.
    With(&'static str),
    // It is only given beside the first one, and not beside the second.
    WithNot(&'static str, &'static str),
}

// An option of a command.
#[derive(Clone, Copy)]
pub(crate) struct Row {
    // Its name.
    pub(crate) name: &'static str,
    // What it takes.
    pub(crate) takes: Takes,
    // How often it is given.
    pub(crate) given: Given,
    // What it has to do with another one.
    pub(crate) tie: Tie,
    // What help says of it.
    pub(crate) help: &'static str,
}

// An option that takes nothing, is given once or not at all, and has nothing to do with others.
pub(crate) const FLAG: Row = Row {
    name: "",
    takes: Takes::Nothing,
    given: Given::Maybe,
    tie: Tie::Free,
    help: "",
};

impl Row {
    // The option as `clap` knows it.
    pub(crate) fn argument<'a>(&self, alloc: Global) -> Result<Arg<'a>, AllocError> {
        match self.tie {
            Tie::Free => Ok(self.plain(alloc)),
            Tie::Against(other) => self.plain(alloc).conflicts_with(other),
            Tie::With(other) => self.plain(alloc).requires_arg(other),
            // `clap` lets an option's requirement go where another option rules it out.
            Tie::WithNot(one, other) => self.plain(alloc).requires_arg(one)?.conflicts_with(other),
        }
    }

    // The same, whatever it has to do with others.
    fn plain<'a>(&self, alloc: Global) -> Arg<'a> {
        let arg = Arg::new(alloc, self.name)
            .help(self.help)
            .required(self.is_needed());
        match self.takes {
            Takes::Nothing => arg.long(self.name).action(ArgAction::SetTrue),
            Takes::Value(value) => self.valued(arg, value),
            Takes::Path(value) => self
                .valued(arg, value)
                .value_parser(ValueParser::NonEmptyString),
            Takes::Choice(value, choices) => self
                .valued(arg, value)
                .value_parser(ValueParser::Names(choices))
                .default_value(first_of(choices)),
            Takes::OneOf(value, choices) => self
                .valued(arg, value)
                .value_parser(ValueParser::Names(choices)),
            Takes::Threads => self
                .valued(arg, "N")
                .value_parser(ValueParser::Unsigned(1, 16))
                .default_value("1"),
            Takes::Paths => arg
                .value_name("FILE")
                .num_args(1..)
                .action(ArgAction::Append),
            Takes::PathsBehind => self
                .valued(arg, "FILE")
                .num_args(1..)
                .value_parser(ValueParser::NonEmptyString),
        }
    }

    // An option with a value.
    fn valued<'a>(&self, arg: Arg<'a>, value: &'static str) -> Arg<'a> {
        arg.long(self.name).value_name(value).action(self.action())
    }

    // Whether the option must be given.
    fn is_needed(&self) -> bool {
        matches!(self.given, Given::Once | Given::OnceOrMore)
    }

    // What becomes of the values of an option.
    fn action(&self) -> ArgAction {
        match self.given {
            Given::Often | Given::OnceOrMore => ArgAction::Append,
            _ => ArgAction::Set,
        }
    }
}

// The first of some texts.
fn first_of(texts: &'static [&'static str]) -> &'static str {
    match texts.first() {
        Some(text) => text,
        None => "",
    }
}
