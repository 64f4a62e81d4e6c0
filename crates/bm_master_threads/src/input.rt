//! Standard input: builds that are to be cancelled.

ghost use Rattle.std.specs.Prelude.{◌≡◌, ◌≤◌, true, false, length, IfNone, IfSome};
ghost use Rattle.bm_master_threads.specs.InputLines.{after_byte, asked, is_empty, line_told, no_line, with_byte};
ghost use Rattle.bm_remarks.specs.Refusals.{IsHeard};

use bm_coordinator::{CoordinatorShared, MasterEvent};
use bm_lane::Yard;
use bm_operator::{RateLimit, read_cancel};
use crossbeam_channel::{Receiver, Sender, bounded};
use std::alloc::Global;
use std::io::{ErrorKind, Read};
use std::marker::Model;
use std::sync::Wait;
use std::thread::{Scope, Threads};
use std::time::{Clock, Instant};

/// How many bytes of a line are kept, and nothing of a longer one. A line that asks for something
/// is shorter, unless thousands of zeros stand before its number.
const MOST_LINE: usize = 4096;

/// How many lines that ask for nothing are told in a second. Events have room without a bound, and
/// a file that is no list of lines must not fill the memory.
const MOST_MISREAD: u32 = 10;

/// The line that is being read, without its line end. Contracts see what is kept of it. It has room
/// for all that one may have: else want of memory, later, would lose a cancel.
#[derive(Drop)]
struct InputLine {
    bytes: Vec<u8>,
    is_whole: bool,
}

impl Model for InputLine {
    ghost use Rattle.std.specs.Prelude.{◌≤◌, vec_capacity};
    ghost use Rattle.bm_master_threads.specs.InputLines.{LineView};

    ghost Value = { LineView };

    ghost view = { λ l. record { bytes = l.bytes.items; is_whole = l.is_whole } };

    ghost invariant = { λ l. 4096 ≤ vec_capacity l.bytes };
}

impl InputLine {
    // None where memory is wanting.
    fn new(alloc: Global) -> Option<InputLine>
        ensures { IfSome result (λ line. line ≡ no_line) }
    {
        let bytes = Vec::with_capacity(alloc, MOST_LINE).ok()?;
        Some(InputLine {
            bytes,
            is_whole: true,
        })
    }

    fn push(&mut self, byte: u8)
        ensures { self.new ≡ with_byte byte self.old }
    {
        if self.bytes.len() >= MOST_LINE || self.bytes.push(byte).is_err() {
            self.is_whole = false;
        }
    }

    fn is_empty(&self) -> bool
        ensures { result ≡ is_empty self.now }
    {
        self.is_whole && self.bytes.is_empty()
    }

    // Begins the next line. The number of the build that this line cancels, or None where it asks
    // for nothing.
    fn end(&mut self) -> Option<u64>
        ensures asked { result ≡ asked self.old }
        ensures next { self.new ≡ no_line }
    {
        let cancelled = if self.is_whole {
            read_cancel(self.bytes.as_slice())
        } else {
            None
        };
        self.bytes.clear();
        self.is_whole = true;
        cancelled
    }
}

/// How many lines that ask for nothing are told.
#[derive(Drop)]
struct MisreadLimit {
    limit: RateLimit,
    /// When the reading began. None where the clock failed.
    began: Option<Instant>,
}

impl MisreadLimit {
    // How many whole seconds the reading lasts; none where the clock fails.
    fn second<R: Clock>(&self, rt: &R) -> u64
        ensures { IfNone self.now.began (result ≡ 0) }
    {
        match self.began {
            Some(began) => match began.elapsed(rt) {
                Ok(age) => age.as_secs(),
                Err(_) => 0,
            },
            None => 0,
        }
    }

    // Whether a line is told: each one that cancels a build, and few of the others in a second.
    fn tells<R: Clock>(&mut self, rt: &R, is_build: bool) -> bool
        ensures build { is_build ≡ true → (result ≡ true) × (self.new ≡ self.old) }
        ensures other { is_build ≡ false → IsHeard self.new.limit }
    {
        if is_build {
            return true;
        }
        let second = self.second(rt);
        self.limit.allows(second)
    }
}

/// What the coordinator is told of a line.
#[derive(Clone, Copy)]
enum LineTold {
    Nothing,
    Misread,
    Cancel(u64),
}

// What is told of a line that asked for this. A line that cancels a build which isn't there is told
// as a cancel, since the master's machine answers it.
fn line_told(asked: Option<u64>, is_told: bool) -> LineTold
    ensures { result ≡ line_told is_told asked }
{
    match asked {
        _ if !is_told => LineTold::Nothing,
        Some(number) => LineTold::Cancel(number),
        None => LineTold::Misread,
    }
}

// Tells what a line asks for, and waits until the coordinator is near. A line that cancels no
// build asks for nothing.
fn tell_line<Y, R>(
    shared: &CoordinatorShared<Y, R>,
    misread: &mut MisreadLimit,
    line: &mut InputLine,
)
where
    Y: Yard,
    R: Wait + Clock + Drop,
    ensures line { line.new ≡ no_line }
    ensures limit { IfNone (asked line.old) (IsHeard misread.new.limit) }
{
    let rt = &shared.rt;
    let asked = line.end();
    let is_build = match asked {
        Some(number) => shared.build(number).is_some(),
        None => false,
    };
    match line_told(asked, misread.tells(rt, is_build)) {
        LineTold::Nothing => {}
        LineTold::Misread => shared.events.tell(rt, MasterEvent::Misread),
        LineTold::Cancel(number) => {
            shared.lines.add();
            shared.events.tell(rt, MasterEvent::Cancel(number));
            shared.lines.wait(rt);
        }
    }
}

// Takes a byte of the input.
fn take_byte<Y, R>(
    shared: &CoordinatorShared<Y, R>,
    misread: &mut MisreadLimit,
    line: &mut InputLine,
    byte: u8,
)
where
    Y: Yard,
    R: Wait + Clock + Drop,
    ensures { line.new ≡ after_byte byte line.old }
{
    if byte == b'\n' {
        tell_line(shared, misread, line);
    } else {
        line.push(byte);
    }
}

// Reads a piece of the input: how many bytes it has. None once the input has ended or can't be
// read.
fn read_piece<I: Read>(input: &mut I, piece: &mut [u8]) -> Option<usize>
    ensures { IfSome result (λ count. count ≤ length piece.new) }
{
    match input.read(piece) {
        Ok(0) => None,
        Ok(count) => Some(count),
        Err(error) if error.kind() == ErrorKind::Interrupted => Some(0),
        Err(_) => None,
    }
}

// Tells what each line of the input asks for, until the input ends or can't be read.
fn read_input<I, Y, R>(shared: &CoordinatorShared<Y, R>, input: I, line: InputLine)
where
    I: Read + Drop,
    Y: Yard,
    R: Wait + Clock + Drop,
{
    let rt = &shared.rt;
    let (mut input, mut line) = (input, line);
    let mut piece = [0u8; 512];
    let mut misread = MisreadLimit {
        limit: RateLimit::new(MOST_MISREAD),
        began: Instant::now(rt).ok(),
    };
    for _ in rt.forever() {
        let Some(count) = read_piece(&mut input, &mut piece) else {
            break;
        };
        for byte in &piece[..count] {
            take_byte(shared, &mut misread, &mut line, *byte);
        }
    }
    if !line.is_empty() {
        tell_line(shared, &mut misread, &mut line);
    }
}

// Reads the input once there is a coordinator that hears of it.
fn read_once_heard<I, Y, R>(
    shared: &CoordinatorShared<Y, R>,
    input: I,
    line: InputLine,
    begins: &Receiver<bool, Global>,
)
where
    I: Read + Drop,
    Y: Yard,
    R: Wait + Clock + Drop,
{
    if let Ok(true) = begins.recv(&shared.rt) {
        read_input(shared, input, line);
        shared.events.tell(&shared.rt, MasterEvent::InputEnded);
    }
}

/// Starts the thread that reads the input. It begins once it is told true, and ends at once where
/// it is told anything else. None where it can't be started, or memory is wanting for a line.
pub fn start_input<'s, E, Y, R, I>(
    scope: &Scope<'s, E>,
    shared: &'s CoordinatorShared<Y, R>,
    input: I,
) -> Option<Sender<bool, Global>>
where
    Y: Yard + Send + Sync + 's,
    R: Wait + Clock + Threads + Drop + Send + Sync + 's,
    I: Read + Drop + Send + 's,
{
    let (begin, begins) = bounded(shared.alloc, 1).ok()?;
    let line = InputLine::new(shared.alloc)?;
    scope
        .spawn(move || read_once_heard(shared, input, line, &begins))
        .ok()?;
    Some(begin)
}
