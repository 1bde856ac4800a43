//! Answers lines: calls on maps or sets of numbers in one forest, or bookings of resources.
#![tactic(auto)]

ghost use Rattle.forest_run.specs.Asked.{asked_by, kind_of, numbered_by};
ghost use Rattle.std.specs.Prelude.{map, string_bytes, ◌≡◌};

use bforest_run::{Kind, number, run_text};
use std::io::ErrorKind;
use std::process::ExitCode;
use std::rt::Env;
use std::{env, io};

/// The subject of the lines and the limit on nodes, as the arguments give them.
fn asked(words: &[String]) -> Option<(Kind, u32)>
    ensures { result ≡ asked_by (map string_bytes words.now) }
{
    match words {
        [] => Some((Kind::Map, u32::MAX)),
        [kind] => Some((kind_named(kind)?, u32::MAX)),
        [kind, given] => numbered(kind, number(given)?),
        _ => None,
    }
}

fn kind_named(word: &str) -> Option<Kind>
    ensures { result ≡ kind_of word.now }
{
    match word {
        "map" => Some(Kind::Map),
        "set" => Some(Kind::Set),
        _ => None,
    }
}

/// The subject of the lines, and the number behind it: the number of resources, or the limit on nodes.
fn numbered(kind: &str, number: u32) -> Option<(Kind, u32)>
    ensures { result ≡ numbered_by kind.now number }
{
    match kind {
        "books" => Some((Kind::Books(number), u32::MAX)),
        _ => Some((kind_named(kind)?, number)),
    }
}

/// The arguments, without the program's name.
fn arguments(rt: &(impl Env + AllocGlobal)) -> io::Result<Vec<String>> {
    Ok(env::args(rt)?.skip(1).collect(rt.alloc())?)
}

fn main(rt: HostRuntime) -> ExitCode {
    let asked = match arguments(&rt) {
        Ok(words) => asked(&words),
        Err(error) if error.kind() == ErrorKind::OutOfMemory => return ExitCode::from(3),
        Err(_) => None,
    };
    let Some((kind, limit)) = asked else {
        let _ = eprintln!(rt; "usage: forest_run [map|set [limit]|books count]");
        return ExitCode::from(2);
    };
    let status = run_text(rt.alloc(), kind, limit, &mut rt.stdin(), &mut rt.stdout());
    ExitCode::from(status)
}
