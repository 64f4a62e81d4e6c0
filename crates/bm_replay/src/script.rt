//! A replay's script, and its lines.

ghost use Rattle.std.specs.Prelude.{◌≡◌, ◌≢◌, ◌≤◌, ◌++◌, ◌∷◌, IfSome, IfNone, IfOk, OnOk, option_map};
ghost use Rattle.std.specs.Prelude.{EachIndex, slice_index, vec_len};
ghost use Rattle.std.specs.Io.KnownBytes.{Consumes, IsAtEnd};
ghost use Rattle.std.specs.Option.{option_copied};
ghost use Rattle.bm_replay.specs.Script.{asked, line_in, line_of, log_in, look_in, name_behind, request_in, text_in, told, word_of, words_in};

use bm_decimal::read_number;
use bm_lines::STDIO;
use memchr::memchr;
use std::alloc::Global;
use std::io;
use std::io::Read;

/// The most bytes of an input that is read whole before its first line counts.
pub const MOST_BYTES: usize = 67_108_864;

/// The most bytes of one read.
const PIECE: usize = 65_536;

/// What a line of a script asks that is neither a message nor a drain.
#[derive(Clone, Copy, PartialEq, Eq)]
pub enum ReplayRequest<'a> {
    /// A connection of the worker begins.
    Up,
    /// The connection is cut, and may be resumed.
    Cut,
    /// The session is given up.
    Down,
    /// A command is ordered.
    Go,
    /// The command with this number is ordered to stop.
    Stop(u64),
    /// So many lines of a log at the most, from the offset on, as viewers see it.
    Look {
        command: u64,
        offset: u64,
        limit: u64,
        name: &'a str,
    },
    /// A log as the session has it, drained or not.
    Log {
        command: u64,
        name: &'a str,
    },
}

/// What a line of a script is.
#[derive(Clone, Copy, PartialEq, Eq)]
pub enum ScriptLine<'a> {
    /// An empty line or a comment.
    Blank,
    /// A message of the worker, as hex digits with spaces among them.
    In(&'a [u8]),
    /// One item goes from the queue into the book.
    Drain,
    Asks(ReplayRequest<'a>),
    /// A line of another form.
    Unknown,
}

/// The bytes up to the input's end, of which there may be `most`. No interrupted read is made
/// again, so that the number of reads is bounded.
///
/// # Errors
///
/// A read that failed, one that was interrupted too; `FileTooLarge` where there are more than
/// `most` bytes; and `OutOfMemory`.
pub fn read_up_to<R: Read>(most: usize, alloc: Global, input: &mut R) -> io::Result<Vec<u8>>
    ensures read { IfOk result (λ script.
        Consumes (R.remaining input.old) (R.remaining input.new) script.items) }
    ensures end { OnOk result (IsAtEnd (R.remaining input.new)) }
    ensures few { IfOk result (λ script. vec_len script ≤ most) }
{
    let mut script = Vec::new(alloc);
    let mut piece = vec![in alloc; 0u8; PIECE]?;
    // Each read but the last gives a byte.
    'reads: for _ in 0..=most {
        let count = input.read(piece.as_mut_slice())?;
        if count == 0 {
            return Ok(script);
        }
        if count > most - script.len() {
            break;
        }
        script.extend_from_slice(&piece[..count])?;
    }
    Err(io::Error::from(io::ErrorKind::FileTooLarge))
}

/// The first line of a text without its line end, and the text behind that, if there is one.
pub fn cut_line(text: &[u8]) -> (&[u8], Option<&[u8]>)
    ensures cut { IfSome result.1 (λ rest. text.now ≡ result.0.now ++ 10 ∷ rest.now) }
    ensures whole { IfNone result.1 (result.0.now ≡ text.now) }
    ensures line { EachIndex result.0.now (λ k. slice_index result.0.now k ≢ 10) }
{
    match memchr(b'\n', text) {
        Some(end) => (&text[..end], Some(&text[end + 1..])),
        None => (text, None),
    }
}

/// Reads one line, without its line end. Words stand apart by exactly one space.
pub fn read_line(line: &[u8]) -> ScriptLine<'_>
    ensures line { told result ≡ line_of line.now }
{
    match line {
        [] | [b'#', ..] => ScriptLine::Blank,
        [b'i', b'n', b' ', digits @ ..] => ScriptLine::In(digits),
        _ => match text_of(line) {
            Some(text) => read_text(text),
            None => ScriptLine::Unknown,
        },
    }
}

/// The bytes as a text. None where they are no UTF-8.
fn text_of(line: &[u8]) -> Option<&str>
    ensures { option_copied result ≡ text_in line.now }
{
    match std::str::from_utf8(line) {
        Ok(text) => Some(text),
        Err(_) => None,
    }
}

/// Reads a line that is neither blank nor a message.
fn read_text(text: &str) -> ScriptLine<'_>
    ensures { told result ≡ line_in text.now }
{
    match text {
        "drain" => ScriptLine::Drain,
        _ => match read_request(text) {
            Some(request) => ScriptLine::Asks(request),
            None => ScriptLine::Unknown,
        },
    }
}

/// Reads what is asked beside messages and drains. None where the text asks for nothing.
fn read_request(text: &str) -> Option<ReplayRequest<'_>>
    ensures { option_map asked result ≡ request_in text.now }
{
    match text {
        "up" => Some(ReplayRequest::Up),
        "cut" => Some(ReplayRequest::Cut),
        "down" => Some(ReplayRequest::Down),
        "go" => Some(ReplayRequest::Go),
        _ => read_words(text),
    }
}

/// Reads a request that has numbers behind its first word.
fn read_words(text: &str) -> Option<ReplayRequest<'_>>
    ensures { option_map asked result ≡ words_in text.now }
{
    let (word, rest) = text.split_once(' ')?;
    match word {
        "stop" => Some(ReplayRequest::Stop(read_number(rest)?)),
        "look" => read_look(rest),
        "log" => read_log(rest),
        _ => None,
    }
}

/// Reads what stands behind `look`.
fn read_look(words: &str) -> Option<ReplayRequest<'_>>
    ensures { option_map asked result ≡ look_in words.now }
{
    let (command, words) = words.split_once(' ')?;
    let (offset, words) = words.split_once(' ')?;
    let (limit, name) = named(words);
    Some(ReplayRequest::Look {
        command: read_number(command)?,
        offset: read_number(offset)?,
        limit: read_number(limit)?,
        name,
    })
}

/// Reads what stands behind `log`.
fn read_log(words: &str) -> Option<ReplayRequest<'_>>
    ensures { option_map asked result ≡ log_in words.now }
{
    let (number, name) = named(words);
    let command = read_number(number)?;
    Some(ReplayRequest::Log { command, name })
}

/// The first word, and the name of a log behind it.
fn named(words: &str) -> (&str, &str)
    ensures word { result.0.now ≡ word_of words.now }
    ensures name { result.1.now ≡ name_behind words.now }
{
    match words.split_once(' ') {
        Some(parts) => parts,
        None => (words, STDIO),
    }
}
