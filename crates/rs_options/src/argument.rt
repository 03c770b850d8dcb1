//! An option of the program as a row of a table, and as `clap` knows it.

ghost use Rattle.std.specs.Prelude.{◌≡◌, false};
ghost use Rattle.clap.specs.Words.{rule_of};
ghost use Rattle.rs_options.specs.Argument.{rule_for};

use clap::builder::ValueParser;
use clap::{Arg, ArgAction};
use std::alloc::Global;

// An option.
#[derive(Clone, Copy)]
pub(crate) struct Row {
    // Its name.
    pub(crate) name: &'static str,
    // What a use of it does.
    pub(crate) action: ArgAction,
    // What help calls its value, if it takes one.
    pub(crate) value: &'static [&'static str],
    // What its value has to be, if not any text will do.
    pub(crate) parser: Option<ValueParser<'static>>,
    // Its value for when the words don't give it, if it has one.
    pub(crate) default: &'static [&'static str],
    // Whether it must be given.
    pub(crate) required: bool,
    // What help says of it.
    pub(crate) help: &'static str,
}

// An option of one value, which may be left out.
pub(crate) const OPTION: Row = Row {
    name: "",
    action: ArgAction::Set,
    value: &[],
    parser: None,
    default: &[],
    required: false,
    help: "",
};

// An option that is there or not.
pub(crate) const FLAG: Row = Row {
    action: ArgAction::SetTrue,
    ..OPTION
};

impl Row {
    // The option as `clap` knows it.
    pub(crate) fn argument<'a>(&self, alloc: Global) -> Arg<'a>
        ensures rule { rule_of result ≡ rule_for self.now }
        ensures local { result.global ≡ false }
    {
        let argument = Arg::new(alloc, self.name)
            .long(self.name)
            .action(self.action)
            .value_names(self.value)
            .default_values(self.default)
            .required(self.required)
            .help(self.help);
        match self.parser {
            Some(parser) => argument.value_parser(parser),
            None => argument,
        }
    }
}
