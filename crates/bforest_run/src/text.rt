//! The run of an input of lines to an output of lines.
ghost use Rattle.bforest_run.specs.Answers.{IsBadForMaps, IsBadForSets, MapTells, SetTells, at_start};
ghost use Rattle.bforest_run.specs.Bookings.{AreNew, BookTells, IsBadForBooks};
ghost use Rattle.bforest_run.specs.Output.{AppendsBeginning, AppendsPart, Grows, ReadsThenWrites};
ghost use Rattle.bforest_run.specs.Session.{Answered, Breaks, IsBad, Outcome, Replies, bad_text};
ghost use Rattle.bforest_run.specs.Statuses.{status_of};
ghost use Rattle.std.specs.Io.KnownBytes.{Appends, IsAtEnd};
ghost use Rattle.std.specs.Prelude.{Err, IfErr, IfOk, IfSome, List, OnErr, OnOk, [], ◌≡◌, ◌≢◌, ◌≤◌, ℕ};

use crate::engine::Engine;
use crate::lines::Lines;
use crate::maps::maps;
use crate::reply::Reply;
use crate::sets::sets;
use crate::stop::Stop;
use crate::word::words_in;
use interval_books::Books;
use std::alloc::{AllocError, Global};
use std::io::{ErrorKind, Read, Write};

/// The subject of the lines.
#[derive(Clone, Copy, Debug, PartialEq, Eq)]
pub enum Kind {
    /// Maps of numbers to numbers.
    Map,
    /// Sets of numbers.
    Set,
    /// Bookings of this number of resources by intervals of time. The limit on nodes does not hold for them.
    Books(u32),
}

/// The number of calls that a read of the whole input, and a write of one line, may take.
const CALLS: u32 = 1048576;

/// The number of bytes that a call of `read` asks for.
const PIECE: usize = 4096;

/// Reads lines, answers each in turn, and returns the status.
///
/// The whole input is read first, in calls that ask for 4096 bytes; then each line that has words is answered by one line of output.
/// docs/RULES.md has the lines and their answers. A call of `read` or `write` that was interrupted is made again.
///
/// # Status
///
/// - 0: every line was answered.
/// - 2: a line was bad. Its answer is `line N: bad`, and no later line is answered.
/// - 3: memory ran out for the input or for an answer. The output is whole lines, the first ones. (An insertion that finds no
///   memory for a node is no status: its answer is `memory`.) Or memory ran out for the handles of books: then nothing is read or written.
/// - 4: a read failed, and nothing was written; or a write failed, and what was written is a beginning of the output. A read
///   also fails where 1048576 calls have not met the end of the input, and a write where it takes no byte or where 1048576 calls
///   have not taken a whole line.
pub fn run_text<R: Read, W: Write>(
    alloc: Global,
    kind: Kind,
    limit: u32,
    input: &mut R,
    output: &mut W,
) -> u8
    ensures status { (result ≤ 4) × (result ≢ 1) }

    // The whole input is read before a line is answered, and the old content of the output stays at its front.
    ensures served { ReadsThenWrites (R.remaining input.new)
        (W.contents output.old) (W.contents output.new) result }

    // The lines are answered in turn up to the first bad one, each call as one step of the machine.
    ensures maps { kind ≡ Kind.Map → IfSome (R.remaining input.old) (λ bytes.
        Outcome MapTells IsBadForMaps (at_start limit) bytes
        (W.contents output.old) (W.contents output.new) result) }
    ensures sets { kind ≡ Kind.Set → IfSome (R.remaining input.old) (λ bytes.
        Outcome SetTells IsBadForSets (at_start limit) bytes
        (W.contents output.old) (W.contents output.new) result) }
    ensures books { (count : _) → kind ≡ Kind.Books count → IfSome (R.remaining input.old) (λ bytes.
        (start : Books) × AreNew count start × Outcome BookTells IsBadForBooks start bytes
        (W.contents output.old) (W.contents output.new) result) }
{
    match kind {
        Kind::Map => status(answer_all(alloc, &mut maps(alloc, limit), input, output)),
        Kind::Set => status(answer_all(alloc, &mut sets(alloc, limit), input, output)),
        Kind::Books(count) => status(answer_books(alloc, count, input, output)),
    }
}

/// The status of a run that ended so.
fn status(run: Result<(), Stop>) -> u8
    ensures { result ≡ status_of run }
{
    match run {
        Ok(()) => 0,
        Err(Stop::BadLine) => 2,
        Err(Stop::Memory) => 3,
        Err(Stop::InputOutput) => 4,
    }
}

/// Answers each line of the input by books of `count` resources.
fn answer_books<R: Read, W: Write>(
    alloc: Global,
    count: u32,
    input: &mut R,
    output: &mut W,
) -> Result<(), Stop>
    ensures served { ReadsThenWrites (R.remaining input.new)
        (W.contents output.old) (W.contents output.new) (status_of result) }
    ensures outcome { IfSome (R.remaining input.old) (λ bytes.
        (start : Books) × AreNew count start × Outcome BookTells IsBadForBooks start bytes
        (W.contents output.old) (W.contents output.new) (status_of result)) }
{
    match Books::new(alloc, count) {
        Ok(mut books) => answer_all(alloc, &mut books, input, output),
        Err(_) => Err(Stop::Memory),
    }
}

/// Answers each line of the input.
fn answer_all<E: Engine, R: Read, W: Write>(
    alloc: Global,
    engine: &mut E,
    input: &mut R,
    output: &mut W,
) -> Result<(), Stop>
    ensures served { ReadsThenWrites (R.remaining input.new)
        (W.contents output.old) (W.contents output.new) (status_of result) }
    ensures outcome { IfSome (R.remaining input.old) (λ bytes.
        Outcome E.tells E.is_bad engine.old bytes
        (W.contents output.old) (W.contents output.new) (status_of result)) }
{
    let bytes = read_all(alloc, input)?;
    answer_lines(alloc, engine, &bytes, output)
}

/// Answers each line of these bytes.
fn answer_lines<E: Engine, W: Write>(
    alloc: Global,
    engine: &mut E,
    bytes: &[u8],
    output: &mut W,
) -> Result<(), Stop>
    ensures grows { Grows (W.contents output.old) (W.contents output.new) }
    ensures outcome { Outcome E.tells E.is_bad engine.old bytes.now
        (W.contents output.old) (W.contents output.new) (status_of result) }
{
    let mut number = 0usize;
    let mut lines = Lines::of(bytes);
    'lines: while let Some(line) = lines.next() {
        number = number.saturating_add(1);
        answer_line(alloc, engine, number, line, output)?;
    }
    Ok(())
}

/// Answers a line. A line without words has no answer.
fn answer_line<E: Engine, W: Write>(
    alloc: Global,
    engine: &mut E,
    number: usize,
    line: &[u8],
    output: &mut W,
) -> Result<(), Stop>
    ensures grows { Grows (W.contents output.old) (W.contents output.new) }
    ensures ok { OnOk result ((text : List ℕ) × Answered E.tells E.is_bad engine.old line.now text engine.new
        × Appends (W.contents output.old) (W.contents output.new) text) }
    ensures bad { result ≡ Err Stop.BadLine → IsBad E.tells E.is_bad line.now
        × Appends (W.contents output.old) (W.contents output.new) (bad_text number) }
    ensures memory { result ≡ Err Stop.Memory → Appends (W.contents output.old) (W.contents output.new) [] }
    ensures failed { result ≡ Err Stop.InputOutput → Breaks E.tells E.is_bad engine.old number line.now
        (W.contents output.old) (W.contents output.new) }
{
    match reply_to(alloc, engine, line)? {
        Reply::Skipped => Ok(()),
        Reply::Told(text) => write_line(output, text.as_bytes()),
        Reply::Bad => {
            let text = format!(in alloc; "line {number}: bad\n")?;
            write_line(output, text.as_bytes())?;
            Err(Stop::BadLine)
        }
    }
}

/// The reply to a line.
fn reply_to<E: Engine>(alloc: Global, engine: &mut E, line: &[u8]) -> Result<Reply, AllocError>
    ensures { IfOk result (λ reply. Replies E.tells E.is_bad engine.old line.now reply engine.new) }
{
    let Ok(text) = std::str::from_utf8(line) else {
        return Ok(Reply::Bad);
    };
    let words = words_in(alloc, text)?;
    if words.is_empty() {
        return Ok(Reply::Skipped);
    }
    match engine.answer(alloc, &words)? {
        Some(answer) => {
            let text = format!(in alloc; "{answer}\n")?;
            Ok(Reply::Told(text))
        }
        None => Ok(Reply::Bad),
    }
}

/// The whole input.
fn read_all<R: Read>(alloc: Global, input: &mut R) -> Result<Vec<u8>, Stop>
    ensures bytes { IfOk result (λ bytes. IfSome (R.remaining input.old) (λ xs. bytes.items ≡ xs)) }
    ensures end { OnOk result (IsAtEnd (R.remaining input.new)) }
    ensures never_bad { result ≢ Err Stop.BadLine }
{
    let mut bytes = Vec::new(alloc);
    let mut piece = [0; PIECE];
    'reads: for _ in 0..CALLS {
        match input.read(&mut piece) {
            Ok(0) => return Ok(bytes),
            Ok(count) => bytes.extend_from_slice(&piece[..count])?,
            Err(error) => {
                if error.kind() != ErrorKind::Interrupted {
                    return Err(Stop::InputOutput);
                }
            }
        }
    }
    Err(Stop::InputOutput)
}

/// Writes all of a line.
fn write_line<W: Write>(output: &mut W, line: &[u8]) -> Result<(), Stop>
    ensures ok { OnOk result (Appends (W.contents output.old) (W.contents output.new) line.now) }
    ensures begins { AppendsBeginning (W.contents output.old) (W.contents output.new) line.now }
    ensures part { OnErr result (AppendsPart (W.contents output.old) (W.contents output.new) line.now) }
    ensures fails { IfErr result (λ why. why ≡ Stop.InputOutput) }
{
    let mut rest = line;
    'writes: for _ in 0..CALLS {
        if rest.is_empty() {
            return Ok(());
        }
        match output.write(rest) {
            Ok(0) => return Err(Stop::InputOutput),
            Ok(count) => rest = &rest[count..],
            Err(error) => {
                if error.kind() != ErrorKind::Interrupted {
                    return Err(Stop::InputOutput);
                }
            }
        }
    }
    if rest.is_empty() {
        Ok(())
    } else {
        Err(Stop::InputOutput)
    }
}
