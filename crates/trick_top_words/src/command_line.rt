// The words, as `clap` reads them.

ghost use Rattle.std.specs.Prelude.{◌≡◌, ◌≢◌, IfOk, MatchOption, map, codes};
ghost use Rattle.std.specs.List.{All, list_all};
ghost use Rattle.std.specs.Str.{IsUtf8};
ghost use Rattle.trick_top_words.specs.Commands.{name_of};
ghost use Rattle.trick_top_words.specs.Plain.{is_plain as is_plain_word};
ghost use Rattle.trick_top_words.specs.Reads.{IsUsage, Reads};

use crate::Kind;
use crate::commands::all;
use clap::ArgMatches;
use clap::error::ErrorKind;
use std::alloc::{AllocError, Global};

/// What `clap` found in these words, or `None` where they are no line of a command.
pub(crate) fn read<'a>(
    alloc: Global,
    words: &'a [&'a str],
) -> Result<Option<ArgMatches<'a>>, AllocError>
    requires texts { All IsUtf8 (map (λ w. w.now) words.now) }
    ensures { IfOk result (λ read. MatchOption read
        (IsUsage (map (λ w. w.now) words.entry.now))
        (Reads (map (λ w. w.now) words.entry.now))) }
{
    if !are_plain(words) {
        return Ok(None);
    }
    match all(alloc)?.try_get_matches_from(words) {
        Ok(matches) => Ok(Some(matches)),
        Err(error) => {
            if error.kind() == ErrorKind::OutOfMemory {
                Err(AllocError)
            } else {
                Ok(None)
            }
        }
    }
}

// The command of this name.
pub(crate) fn kind_of(word: &str) -> Option<Kind>
    ensures { MatchOption result ((kind : Kind) → word.now ≢ name_of kind) (λ kind. word.now ≡ name_of kind) }
{
    match word {
        "serial" => Some(Kind::Serial),
        "run" => Some(Kind::Run),
        "replay" => Some(Kind::Replay),
        "check" => Some(Kind::Check),
        "list" => Some(Kind::List),
        "gen" => Some(Kind::Gen),
        _ => None,
    }
}

// Whether no word is one that `clap` takes and no line has.
fn are_plain(words: &[&str]) -> bool
    ensures { result ≡ list_all is_plain_word (map (λ w. w.now) words.now) }
{
    for word in words {
        if !is_plain(word) {
            return false;
        }
    }
    true
}

// `clap` takes a hyphen alone for a value, lets what follows two of them begin with a hyphen, and takes an option
// whose value after `=` is empty.
fn is_plain(word: &str) -> bool
    ensures { result ≡ is_plain_word word.now }
{
    !(word == "-" || word == "--" || word == "--from=" || word == "--port=")
}
