//! The rows of the programs' tables of options: how `clap` is told of one, and what it finds for it in the words.

ghost use Rattle.std.specs.Prelude.{◌≡◌, ◌≤◌, false, IfOk, IfErr, IfNone, IfSome, Some, None, option_map};
ghost use Rattle.clap.specs.Words.{rule_of};
ghost use Rattle.options.specs.CommandLine.{SaysOr, IsAddress, IsNoAddress, IsNoNumber, IsOutside, is_given};
ghost use Rattle.options.specs.OptionRows.{given, range_of, rule_of_row};
ghost use Rattle.options.specs.declared.fault.OptionsFault.TheVariants as options_fault;

use crate::fault::OptionsFault;
use clap::{Arg, ArgAction, ArgMatches, value_parser};
use std::alloc::Global;
use std::net::IpAddr;

/// An option of a command line.
#[derive(Clone, Copy)]
pub(crate) struct OptionRow {
    /// What follows its two dashes.
    pub(crate) name: &'static str,
    /// What it takes.
    pub(crate) kind: Kind,
    /// What help says of it.
    pub(crate) help: &'static str,
}

/// What an option takes, and what help calls that.
#[derive(Clone, Copy)]
pub(crate) enum Kind {
    /// Nothing: it is a flag.
    Flag,
    /// A text.
    Valued(&'static str),
    /// A text, and it has to be given.
    Needed(&'static str),
    /// A number from the first of these two to the second; where the words give none, the third.
    Number(&'static str, (u64, u64), u64),
    /// Such a number of 16 bits.
    ShortNumber(&'static str, (u64, u64), u64),
}

impl OptionRow {
    /// The option, as `clap` is told of it.
    pub(crate) fn arg<'a>(&self, alloc: Global) -> Arg<'a>
        ensures rule { rule_of result ≡ rule_of_row self.now }
        ensures local { result.global ≡ false }
    {
        let arg = Arg::new(alloc, self.name).long(self.name).help(self.help);
        match self.kind {
            Kind::Flag => arg.action(ArgAction::SetTrue),
            Kind::Valued(value) => arg.value_name(value),
            Kind::Needed(value) => arg.value_name(value).required(true),
            Kind::Number(value, _, _) => arg.value_name(value).value_parser(value_parser!(u64)),
            Kind::ShortNumber(value, _, _) => {
                arg.value_name(value).value_parser(value_parser!(u16))
            }
        }
    }

    /// The value that it was given, if it was.
    pub(crate) fn value<'a>(&self, found: &ArgMatches<'a>) -> Option<&'a str>
        ensures { option_map (λ value. value.now) result ≡ given self.now found.now }
    {
        found.get_str(self.name)
    }

    /// The value that it was given; it has to be.
    pub(crate) fn needed<'a>(&self, found: &ArgMatches<'a>) -> Result<&'a str, OptionsFault>
        ensures said { IfOk result (λ value. given self.now found.now ≡ Some value.now) }
        ensures refused { IfErr result (λ fault. (fault ≡ options_fault.Range self.now.name)
            × (given self.now found.now ≡ None)) }
    {
        match self.value(found) {
            Some(value) => Ok(value),
            None => Err(OptionsFault::Range(self.name)),
        }
    }

    /// Whether it was given, if it is a flag.
    pub(crate) fn is_given(&self, found: &ArgMatches<'_>) -> bool
        ensures { result ≡ is_given (given self.now found.now) }
    {
        match self.value(found) {
            Some(value) => value == "true",
            None => false,
        }
    }

    /// The least and the greatest number that it takes, and the one where the words give none; for an option that takes no
    /// number, of all.
    fn range(&self) -> (u64, u64, u64)
        ensures { result ≡ range_of self.now.kind }
    {
        match self.kind {
            Kind::Number(_, (least, most), default)
            | Kind::ShortNumber(_, (least, most), default) => (least, most, default),
            Kind::Flag | Kind::Valued(_) | Kind::Needed(_) => (0, u64::MAX, 0),
        }
    }

    /// The number that it was given, or else this one; `None` where its value is no number of 64 bits.
    fn number_or(&self, default: u64, found: &ArgMatches<'_>) -> Option<u64>
        ensures said { IfSome result (SaysOr default (given self.now found.now)) }
        ensures none { IfNone result (IsNoNumber (given self.now found.now)) }
    {
        let Some(value) = self.value(found) else {
            return Some(default);
        };
        match value.parse::<u64>() {
            Ok(number) => Some(number),
            Err(_) => None,
        }
    }

    /// The number that it was given, or its default: one of those that it takes.
    pub(crate) fn number(&self, found: &ArgMatches<'_>) -> Result<u64, OptionsFault>
        ensures said { IfOk result (SaysOr (range_of self.now.kind).2 (given self.now found.now)) }
        ensures least { IfOk result (λ number. (range_of self.now.kind).0 ≤ number) }
        ensures most { IfOk result (λ number. number ≤ (range_of self.now.kind).1) }
        ensures refused { IfErr result (λ fault. (fault ≡ options_fault.Range self.now.name)
            × IsOutside (range_of self.now.kind).2 (range_of self.now.kind).0
            (range_of self.now.kind).1 (given self.now found.now)) }
    {
        let (least, most, default) = self.range();
        match self.number_or(default, found) {
            Some(number) if number >= least && number <= most => Ok(number),
            _ => Err(OptionsFault::Range(self.name)),
        }
    }

    /// The address that it was given, if it was given one.
    pub(crate) fn address(&self, found: &ArgMatches<'_>) -> Result<Option<IpAddr>, OptionsFault>
        ensures said { IfOk result (IsAddress (given self.now found.now)) }
        ensures refused { IfErr result (λ fault. (fault ≡ options_fault.Address)
            × IsNoAddress (given self.now found.now)) }
    {
        let Some(value) = self.value(found) else {
            return Ok(None);
        };
        match value.parse::<IpAddr>() {
            Ok(address) => Ok(Some(address)),
            Err(_) => Err(OptionsFault::Address),
        }
    }
}
