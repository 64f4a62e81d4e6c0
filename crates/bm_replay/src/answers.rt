//! The lines that answer a script's requests.

use bm_lines::Block;
use bm_session::{Reply, Results, Verdict};
use bm_world::Answer;
use std::io;
use std::io::Write;

/// Writes what a lane answered to a step: `silent` where an event was taken that nothing is sent
/// for.
pub fn write_answer<W: Write>(output: &mut W, answer: Answer, silent: &str) -> io::Result<()> {
    match answer {
        Answer::Heard(reply) => write_reply(output, reply, silent),
        Answer::Refused(refusal) => writeln!(output, "refused {refusal}"),
        Answer::Busy => writeln!(output, "busy"),
        Answer::Took => writeln!(output, "took"),
        Answer::Empty => writeln!(output, "empty"),
        Answer::NoLog => writeln!(output, "no log"),
        Answer::Chunk(chunk) => {
            let first_line = chunk.first_line;
            let lines = chunk.lines;
            writeln!(output, "chunk {first_line} {lines}")?;
            output.write_all(chunk.content.as_str().as_bytes())
        }
    }
}

fn write_reply<W: Write>(output: &mut W, reply: Reply, silent: &str) -> io::Result<()> {
    match reply {
        Reply::Silent => writeln!(output, "{silent}"),
        Reply::Answer(number, Verdict::Done) => writeln!(output, "answer {number} nil"),
        Reply::Answer(number, verdict) => {
            writeln!(output, "answer {number} exception {verdict}")
        }
        Reply::Start(number, command) => writeln!(output, "start {number} {command}"),
        Reply::Interrupt(number, command) => writeln!(output, "interrupt {number} {command}"),
    }
}

/// Writes how many lines a command's log has and how the command ended, if it did, and then the
/// lines.
pub fn write_log<W: Write>(
    output: &mut W,
    command: u64,
    log: &Block,
    outcome: Option<Results>,
) -> io::Result<()> {
    let count = log.len();
    match outcome {
        None => writeln!(output, "log {command} {count} open")?,
        Some(result) => writeln!(output, "log {command} {count} {result}")?,
    }
    output.write_all(log.content().as_bytes())
}
