//! Cases, read from the bytes of standard input.
use super::case::{Case, Way};
use crate::run_failure::{BROKEN_CASE, RunFailure};
use json_values::Items;
use rpc_peer::Picks;
use std::alloc::Global;
use std::str::from_utf8;

/// The case that the bytes begin with, and the bytes behind it. None where the line isn't one of a case, or the stream is
/// shorter than it says.
pub fn read_case(bytes: &[u8]) -> Option<(Case<'_>, &[u8])> {
    let (line, rest) = split_line(bytes)?;
    let (way, words) = read_way(line)?;
    let (sizes, length) = words.split_once(' ')?;
    let length = number(length)? as usize;
    if length > rest.len() {
        return None;
    }
    let (stream, behind) = rest.split_at(length);
    Some((Case { way, sizes, stream }, behind))
}

/// The text before the first LF, and the bytes behind that.
fn split_line(bytes: &[u8]) -> Option<(&str, &[u8])> {
    let end = bytes.iter().position(|byte| *byte == b'\n')?;
    let line = from_utf8(bytes.get(..end)?).ok()?;
    Some((line, bytes.get(end..)?.get(1..)?))
}

/// How a stream is run, and the words behind those that say it.
fn read_way(line: &str) -> Option<(Way<'_>, &str)> {
    let (verb, words) = line.split_once(' ')?;
    let (word, words) = words.split_once(' ')?;
    match verb {
        "play" => {
            let (picks, words) = words.split_once(' ')?;
            let lazy = is_lazy(word)?;
            Some((Way::Play { lazy, picks }, words))
        }
        "serve" => {
            let workers = number(word)?;
            Some((Way::Serve { workers }, words))
        }
        _ => None,
    }
}

fn is_lazy(word: &str) -> Option<bool> {
    match word {
        "eager" => Some(false),
        "lazy" => Some(true),
        _ => None,
    }
}

/// The picks that a word says.
pub fn read_picks(alloc: Global, word: &str) -> Result<Picks, RunFailure> {
    match word {
        "first" => Ok(Picks::First),
        "last" => Ok(Picks::Last),
        places => Ok(Picks::List(Items::from(numbers(alloc, places)?))),
    }
}

/// Numbers between commas, or `-` where there are none.
pub fn numbers(alloc: Global, text: &str) -> Result<Vec<u32>, RunFailure> {
    let mut found = Vec::new(alloc);
    if text == "-" {
        return Ok(found);
    }
    for word in text.split(',') {
        found.push(number(word).ok_or(BROKEN_CASE)?)?;
    }
    Ok(found)
}

fn number(word: &str) -> Option<u32> {
    word.parse::<u32>().ok()
}
