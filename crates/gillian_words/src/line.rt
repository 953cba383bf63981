//! The command line, as clap reads it.
ghost use Rattle.std.specs.Prelude.{◌≡◌, false, IfOk, IfSome, IfNone};
ghost use Rattle.std.specs.Option.{option_map};
ghost use Rattle.clap.specs.Words.{app_of, rule_of};
ghost use Rattle.gillian_words.specs.Asked.{given_by};
ghost use Rattle.gillian_words.specs.Line.{AreTaken, flag, line, required_word, spelled, two_words, with_one_value};
ghost use Rattle.gillian_words.specs.View.{given_view, matched_in};

use clap::error::ErrorKind;
use clap::{Arg, ArgAction, ArgMatches, Command};
use std::alloc::{AllocError, Global};

/// What clap matches to each name of the line.
#[derive(Drop)]
pub struct Given<'a> {
    pub mode: Option<&'a str>,
    pub second: Option<&'a str>,
    pub bound: Option<&'a str>,
    pub entry: Option<&'a str>,
    pub inputs: Option<&'a str>,
    pub json: Option<&'a str>,
}

/// What the words give, and None exactly where clap doesn't take them.
pub fn match_words<'a>(
    alloc: Global,
    words: &'a Vec<String>,
) -> Result<Option<Given<'a>>, AllocError>
    ensures some { IfOk result (λ found. IfSome found (λ g. AreTaken (spelled words.now) × (given_view g ≡ given_by (spelled words.now)))) }
    ensures none { IfOk result (λ found. IfNone found (AreTaken (spelled words.now) → ⊥)) }
{
    let command = command(alloc)?;
    match command.try_get_matches_from(words.as_slice()) {
        Ok(matches) => Ok(Some(values_of(&matches))),
        Err(error) => match error.kind() {
            ErrorKind::OutOfMemory => Err(AllocError),
            _ => Ok(None),
        },
    }
}

/// The first value of each name.
fn values_of<'a>(matches: &ArgMatches<'a>) -> Given<'a>
    ensures { given_view result ≡ matched_in matches.now }
{
    Given {
        mode: matches.get_str("mode"),
        second: matches.get_str("second"),
        bound: matches.get_str("bound"),
        entry: matches.get_str("entry"),
        inputs: matches.get_str("inputs"),
        json: matches.get_str("json"),
    }
}

/// A required word.
fn word_of<'a>(alloc: Global, id: &'a str) -> Arg<'a>
    ensures rule { rule_of result ≡ required_word id.entry.now }
    ensures local { result.global ≡ false }
{
    Arg::new(alloc, id).required(true).action(ArgAction::Set)
}

/// An option with one value.
fn option_of<'a>(alloc: Global, id: &'a str) -> Arg<'a>
    ensures rule { rule_of result ≡ with_one_value id.entry.now }
    ensures local { result.global ≡ false }
{
    Arg::new(alloc, id).long(id).action(ArgAction::Set)
}

/// A flag.
fn flag_of<'a>(alloc: Global, id: &'a str) -> Arg<'a>
    ensures rule { rule_of result ≡ flag id.entry.now }
    ensures local { result.global ≡ false }
{
    Arg::new(alloc, id).long(id).action(ArgAction::SetTrue)
}

/// Two words, three options with a value, and a flag.
fn command<'a>(alloc: Global) -> Result<Command<'a>, AllocError>
    ensures { IfOk result (λ c. app_of c ≡ line) }
{
    let words = words_only(alloc)?;
    let bounded = words.arg(option_of(alloc, "bound"))?;
    let entered = bounded.arg(option_of(alloc, "entry"))?;
    let given = entered.arg(option_of(alloc, "inputs"))?;
    let whole = given.arg(flag_of(alloc, "json"))?;
    Ok(whole)
}

/// The two words alone.
fn words_only<'a>(alloc: Global) -> Result<Command<'a>, AllocError>
    ensures { IfOk result (λ c. app_of c ≡ two_words) }
{
    let moded = Command::new(alloc, "gillian").arg(word_of(alloc, "mode"))?;
    let whole = moded.arg(word_of(alloc, "second"))?;
    Ok(whole)
}
