//! Tries operations on trees and on single nodes that standard input names, one per line, and writes where an answer is not the wanted one.
//! docs/RULES.md has the lines.
#![tactic(auto)]

mod any;
mod level;
mod pair;
mod plain;
mod tree;
mod trial;
mod words;

use pair::Pair;
use std::alloc::{AllocError, Global};
use std::io;
use std::process::ExitCode;
use trial::Trial;
use words::{Stop, number};

/// The subject of lines.
#[derive(Drop)]
enum Subject {
    Tree(Trial),
    Nodes(Pair),
}

impl Subject {
    /// Makes the operation of these words, and writes its answer.
    fn make(&mut self, alloc: Global, words: &[&str], out: &mut String) -> Result<(), Stop> {
        match words {
            ["tree", capacity, limit] => {
                *self = Subject::Tree(Trial::new(alloc, number(capacity)?, number(limit)?)?);
                Ok(())
            }
            ["nodes"] => {
                *self = Subject::Nodes(Pair::new(alloc));
                Ok(())
            }
            _ => self.answer(alloc, words, out),
        }
    }

    // Writes the answer of an operation that does not start anew.
    fn answer(&mut self, alloc: Global, words: &[&str], out: &mut String) -> Result<(), Stop> {
        match self {
            Subject::Tree(trial) => trial.answer(alloc, words, out),
            Subject::Nodes(pair) => pair.answer(alloc, words, out),
        }
    }
}

/// The operation of a line, and its wanted answer, if it has one.
fn parts(line: &str) -> (&str, Option<&str>) {
    match line.split_once(" = ") {
        Some((asked, wanted)) => (asked, Some(wanted)),
        None => (line, None),
    }
}

/// Makes the operation of a line, and writes its answer.
fn make_line(
    alloc: Global,
    subject: &mut Subject,
    asked: &str,
    out: &mut String,
) -> Result<(), Stop> {
    let words: Vec<&str> = asked.split_ascii_whitespace().collect(alloc)?;
    subject.make(alloc, &words, out)
}

/// Tries a line, and returns whether all is as wanted. Writes what is wrong, if anything is.
fn try_line(
    alloc: Global,
    subject: &mut Subject,
    line: &str,
    out: &mut String,
) -> Result<bool, Stop> {
    let (asked, wanted) = parts(line);
    if asked.trim().is_empty() || asked.starts_with("#") {
        return Ok(true);
    }
    make_line(alloc, subject, asked, out)?;
    match wanted {
        Some(wanted) if out.trim_start() != wanted => {
            write!(out, ", and not {wanted}")?;
            Ok(false)
        }
        _ => Ok(true),
    }
}

/// Writes what is wrong with a line, if anything is, and returns its exit status.
fn tell(
    tried: Result<bool, Stop>,
    number: u64,
    out: &str,
    report: &mut String,
) -> Result<u8, AllocError> {
    match tried {
        Ok(true) => Ok(0),
        Ok(false) | Err(Stop::Differs) => {
            let wrong = out.trim_start();
            writeln!(report, "line {number}: {wrong}")?;
            Ok(1)
        }
        Err(Stop::Bad) => {
            writeln!(report, "line {number}: bad")?;
            Ok(2)
        }
        Err(Stop::Memory) => Err(AllocError),
    }
}

/// Tries lines up to a bad one, writes which are wrong, and returns the exit status.
fn try_lines(alloc: Global, lines: &str, report: &mut String) -> Result<u8, AllocError> {
    let mut subject = Subject::Nodes(Pair::new(alloc));
    let mut out = String::new(alloc);
    let mut status = 0;
    let mut number = 0u64;
    for line in lines.lines() {
        number = number.saturating_add(1);
        out.clear();
        let tried = try_line(alloc, &mut subject, line, &mut out);
        status = tell(tried, number, &out, report)?.max(status);
        if status > 1 {
            break;
        }
    }
    Ok(status)
}

fn main(rt: HostRuntime) -> io::Result<ExitCode> {
    let lines = io::read_to_string(rt.alloc(), rt.reader())?;
    let mut report = String::new(rt.alloc());
    let status = try_lines(rt.alloc(), &lines, &mut report).unwrap_or(3);
    print!(rt; "{report}")?;
    Ok(ExitCode::from(status))
}
