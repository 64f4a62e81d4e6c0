//! A worker's side of a session.

ghost use Rattle.std.specs.Prelude.{◌≡◌, ℕ, ◌≤◌, ◌<◌, ◌^◌, ◌⊎◌, ◌∷◌, [], length, min, not, ◌==◌, ◌-◌, filter, Vec, IfOk, IfErr, OnOk, OnErr, Some, None, if◌then◌else◌};
ghost use Rattle.std.specs.List.{list_any};
ghost use Rattle.std.specs.Option.{option_map};
ghost use Rattle.bm_work.specs.Stream.{text as text_of, sent, stream, stream_from, without_answer};
ghost use Rattle.bm_work.specs.Reports.{reports_of, fault_of};
ghost use Rattle.bm_work.specs.declared.sent.Sent.{Sent as SentRequest};
ghost use Rattle.bm_msg.specs.Meaning.{meaning, asked, request};
ghost use Rattle.bm_work.specs.Core.{bytes_of, heard, heard_request, bad_request, new_core, runs, refusal as refusal_of, next_number, unanswered_requests, with_reports, without_command, freed, awaits, Rise, numbers};

use crate::act::{WorkAct, WorkRefusal};
use crate::hearing::{act, judge, runs, started};
use crate::history::{History, Note};
use crate::reply_cache::ReplyCache;
use crate::sent::{Finish, Sent, copies, ending, said};
use crate::wire::reply;
use crate::worker_answer::WorkerAnswer;
use bm_lines::Letter;
use bm_msg::{Message, NUMBER_LIMIT, Numbered};
use std::alloc::{AllocError, Global};
use std::marker::Model;

/// The most requests without an answer.
const WINDOW: usize = 64;

/// A worker's side of a session: the commands that run, the requests that have no answer yet, and
/// the requests that were heard. What it reported in the session, it keeps in the proofs alone.
#[derive(Drop)]
pub struct Worker {
    running: Vec<u64>,
    next: u64,
    unanswered: Vec<Sent>,
    answers: ReplyCache,
    history: History,
}

impl Model for Worker {
    ghost use Rattle.std.specs.Coded.{codes};
    ghost use Rattle.bm_work.specs.Core.{Core, IsKept};
    ghost use Rattle.bm_work.specs.contracts.reply_cache.ReplyCache as kept_answers;

    ghost Value = { Core };

    ghost coded = { Prim.hlevel (codes, kept_answers.the_row.coded) };

    ghost view = { λ w. record {
      running = w.running.items;
      reports = w.history.reports;
      answered = w.history.answered;
      answers = w.answers;
    } };

    ghost invariant = { λ w. IsKept
        (record {
          running = w.running.items;
          reports = w.history.reports;
          answered = w.history.answered;
          answers = w.answers;
        }) w.next w.unanswered.items };
}

impl Worker {
    /// Nothing runs, nothing was said, nothing was heard.
    pub fn new(alloc: Global) -> Worker
        ensures { result ≡ new_core }
    {
        Worker {
            running: Vec::new(alloc),
            next: 0,
            unanswered: Vec::new(alloc),
            answers: ReplyCache::new(alloc),
            history: History::new(),
        }
    }

    /// Forgets commands, reports, numbers and unanswered requests.
    pub fn lost(&mut self)
        ensures { self.new ≡ new_core }
    {
        let alloc = *self.unanswered.allocator();
        *self = Worker::new(alloc);
    }

    /// What a message asks the worker to do, and the bytes of the response to a request. A repeat,
    /// whatever it carries, has the first one's response and asks nothing. A response has none: it
    /// frees the place of its request.
    ///
    /// # Errors
    ///
    /// `Mem`, with the message. Nothing was changed.
    pub fn hear(
        &mut self,
        message: Message,
    ) -> Result<(WorkAct, Option<Vec<u8>>), (Message, WorkRefusal)>
        ensures act { IfOk result (λ r. r.0 ≡ (heard self.old (meaning message)).act) }
        ensures reply { IfOk result (λ r. option_map (λ v. v.items) r.1
            ≡ (heard self.old (meaning message)).reply) }
        ensures core { OnOk result (self.new ≡ (heard self.old (meaning message)).core) }
        ensures back { IfErr result (λ e. (e.0 ≡ message) × (e.1 ≡ WorkRefusal.Mem)) }
        ensures err { OnErr result (self.new ≡ self.old) }
    {
        match message {
            Message::Response(response) => Ok((self.free(response.seq), None)),
            Message::Request(numbered) => match self.hear_request(numbered) {
                Ok((act, bytes)) => Ok((act, Some(bytes))),
                Err(numbered) => Err((Message::Request(numbered), WorkRefusal::Mem)),
            },
        }
    }

    /// What a request with that number asks whose keys are missing or of another kind: nothing, and
    /// its response.
    ///
    /// # Errors
    ///
    /// `Mem`. Nothing was changed.
    pub fn bad_args(&mut self, seq: u64) -> Result<(WorkAct, Option<Vec<u8>>), WorkRefusal>
        requires { seq < 2 ^ 63 }
        ensures act { IfOk result (λ r. r.0 ≡ (bad_request self.old seq).act) }
        ensures reply { IfOk result (λ r. option_map (λ v. v.items) r.1
            ≡ (bad_request self.old seq).reply) }
        ensures core { OnOk result (self.new ≡ (bad_request self.old seq).core) }
        ensures mem { IfErr result (λ e. e ≡ WorkRefusal.Mem) }
        ensures err { OnErr result (self.new ≡ self.old) }
    {
        let alloc = *self.unanswered.allocator();
        if let Some(first) = self.answers.get(seq) {
            return Ok((WorkAct::Nothing, Some(reply(alloc, seq, first)?)));
        }
        let bytes = reply(alloc, seq, WorkerAnswer::BadArguments)?;
        self.answers.insert(seq, WorkerAnswer::BadArguments)?;
        Ok((WorkAct::Nothing, Some(bytes)))
    }

    /// The request that says a text of the command. It is kept until its answer is heard.
    ///
    /// # Errors
    ///
    /// `NoSuchCommand` exactly where the command doesn't run. Else `Window` exactly where 64
    /// requests have no answer or the numbers below 2^63 are used up. Else `Mem`. They change
    /// nothing.
    pub fn say(&mut self, command: u64, letter: Letter, text: &str) -> Result<Sent, WorkRefusal>
        requires { length text.now ≤ 65536 }
        ensures sent { IfOk result (λ s. s
            ≡ sent (next_number self.old) (text_of command letter text.now)) }
        ensures kept { OnOk result (self.new
            ≡ with_reports (text_of command letter text.now ∷ []) self.old) }
        ensures accepted { OnOk result (refusal_of self.old command 1 ≡ None) }
        ensures refused { IfErr result (λ e. (refusal_of self.old command 1 ≡ Some e)
            ⊎ ((refusal_of self.old command 1 ≡ None) × (e ≡ WorkRefusal.Mem))) }
        ensures err { OnErr result (self.new ≡ self.old) }
    {
        if let Some(refusal) = self.refusal(command, 1) {
            return Err(refusal);
        }
        let alloc = *self.unanswered.allocator();
        let sent = said(alloc, self.next, command, letter, text)?;
        self.unanswered.push(sent.copy()?)?;
        self.next += 1;
        self.history = self.history.with(&Note::Text(command, letter, text));
        Ok(sent)
    }

    /// The requests that tell how the command ended: an update with the exit code and a complete,
    /// or a complete with the fault. They are kept until their answers are heard, and the command
    /// runs no more.
    ///
    /// # Errors
    ///
    /// `NoSuchCommand` exactly where the command doesn't run, else `Window` exactly where the
    /// window or the numbers below 2^63 lack the places, else `Mem`. They change nothing.
    pub fn finish(&mut self, command: u64, finish: Finish) -> Result<Vec<Sent>, WorkRefusal>
        requires { length (fault_of finish) ≤ 65536 }
        ensures sent { IfOk result (λ v. v.items
            ≡ stream_from (next_number self.old) (reports_of command finish)) }
        ensures kept { OnOk result (self.new
            ≡ without_command command (with_reports (reports_of command finish) self.old)) }
        ensures accepted { OnOk result
            (refusal_of self.old command (length (reports_of command finish)) ≡ None) }
        ensures refused { IfErr result
            (λ e. (refusal_of self.old command (length (reports_of command finish)) ≡ Some e)
            ⊎ ((refusal_of self.old command (length (reports_of command finish)) ≡ None)
            × (e ≡ WorkRefusal.Mem))) }
        ensures err { OnErr result (self.new ≡ self.old) }
    {
        let places = places_of(&finish);
        if let Some(refusal) = self.refusal(command, places) {
            return Err(refusal);
        }
        let alloc = *self.unanswered.allocator();
        let history = self.history.with(&Note::End(command, &finish));
        let requests = ending(alloc, self.next, command, finish)?;
        let mut kept = copies(alloc, requests.as_slice())?;
        self.unanswered.append(&mut kept)?;
        self.next += places as u64;
        self.history = history;
        take_out(&mut self.running, command);
        Ok(requests)
    }

    /// Exactly the requests of the stream that have no answer, oldest first, with the bytes that
    /// were sent.
    pub fn resend(&self) -> Result<Vec<Sent>, AllocError>
        ensures unanswered { IfOk result (λ v. v.items
            ≡ without_answer self.now.answered (stream self.now.reports)) }
        ensures oldest_first { Rise 0 (numbers (unanswered_requests self.now))
            (next_number self.now) }
    {
        copies(*self.unanswered.allocator(), self.unanswered.as_slice())
    }

    /// Whether a request of the stream has no answer.
    pub fn has_unanswered(&self) -> bool
        ensures { result ≡ not (length (unanswered_requests self.now) == 0) }
    {
        !self.unanswered.is_empty()
    }

    /// How many bytes the requests of the stream that have no answer have together; 2^64 - 1 where
    /// there are more.
    pub fn unanswered_bytes(&self) -> usize
        ensures { result ≡ min (bytes_of (unanswered_requests self.now)) (2 ^ 64 - 1) }
    {
        total_bytes(self.unanswered.as_slice())
    }

    /// What a request asks, and its response. Want of memory gives it back and changes nothing.
    fn hear_request(&mut self, numbered: Numbered) -> Result<(WorkAct, Vec<u8>), Numbered>
        ensures act { IfOk result (λ r. r.0
            ≡ (heard self.old (request numbered.seq (asked numbered.request))).act) }
        ensures reply { IfOk result (λ r. Some r.1.items
            ≡ (heard self.old (request numbered.seq (asked numbered.request))).reply) }
        ensures core { OnOk result (self.new
            ≡ (heard self.old (request numbered.seq (asked numbered.request))).core) }
        ensures err { IfErr result (λ e. (e ≡ numbered) × (self.new ≡ self.old)) }
    {
        let Some(first) = self.answers.get(numbered.seq) else {
            return self.hear_first(numbered);
        };
        match reply(*self.unanswered.allocator(), numbered.seq, first) {
            Ok(bytes) => Ok((WorkAct::Nothing, bytes)),
            Err(_) => Err(numbered),
        }
    }

    /// What a request that comes for the first time asks, and its response.
    fn hear_first(&mut self, numbered: Numbered) -> Result<(WorkAct, Vec<u8>), Numbered>
        ensures act { IfOk result (λ r. r.0
            ≡ (heard_request self.old numbered.seq (asked numbered.request) None).act) }
        ensures reply { IfOk result (λ r. Some r.1.items
            ≡ (heard_request self.old numbered.seq (asked numbered.request) None).reply) }
        ensures core { OnOk result (self.new
            ≡ (heard_request self.old numbered.seq (asked numbered.request) None).core) }
        ensures err { IfErr result (λ e. (e ≡ numbered) × (self.new ≡ self.old)) }
    {
        let alloc = *self.unanswered.allocator();
        let Ok((answer, argv)) = judge(alloc, self.running.as_slice(), &numbered.request) else {
            return Err(numbered);
        };
        let Ok(bytes) = reply(alloc, numbered.seq, answer) else {
            return Err(numbered);
        };
        if self.running.reserve(1).is_err() {
            return Err(numbered);
        }
        if self.answers.insert(numbered.seq, answer).is_err() {
            return Err(numbered);
        }
        if let Some(command) = started(&numbered.request, answer) {
            let _ = self.running.push(command);
        }
        Ok((act(numbered.request, answer, argv), bytes))
    }

    /// Why so many requests of the command are refused.
    fn refusal(&self, command: u64, places: usize) -> Option<WorkRefusal>
        requires { places ≤ 2 }
        ensures { result ≡ refusal_of self.now command places }
    {
        if !runs(self.running.as_slice(), command) {
            return Some(WorkRefusal::NoSuchCommand);
        }
        if self.unanswered.len() + places > WINDOW || self.next > NUMBER_LIMIT - places as u64 {
            return Some(WorkRefusal::Window);
        }
        None
    }

    /// Frees the place of the request with that number.
    fn free(&mut self, seq: u64) -> WorkAct
        ensures freed { self.new ≡ freed self.old seq }
        ensures act { result
            ≡ (if awaits self.old seq then WorkAct.Answered seq else WorkAct.Nothing) }
    {
        if !contains(self.unanswered.as_slice(), seq) {
            return WorkAct::Nothing;
        }
        take_out_request(&mut self.unanswered, seq);
        self.history = self.history.with(&Note::WorkerAnswer(seq));
        WorkAct::Answered(seq)
    }
}

fn take_out(commands: &mut Vec<u64>, command: u64)
    ensures { commands.new.items ≡ filter (λ j. not (j == command)) commands.old.items }
{
    commands.retain(|&other| other != command);
}

fn take_out_request(requests: &mut Vec<Sent>, seq: u64)
    ensures { requests.new.items
        ≡ filter (λ (s : SentRequest). not (s.seq == seq)) requests.old.items }
{
    requests.retain(|sent| sent.seq != seq);
}

fn contains(requests: &[Sent], seq: u64) -> bool
    ensures { result ≡ list_any (λ (s : SentRequest). s.seq == seq) requests.now }
{
    requests.iter().any(|sent| sent.seq == seq)
}

/// How many bytes requests have together, 2^64 - 1 where there are more.
fn total_bytes(requests: &[Sent]) -> usize
    ensures { result ≡ min (bytes_of requests.now) (2 ^ 64 - 1) }
{
    let mut total = 0usize;
    for request in requests {
        total = total.saturating_add(request.bytes.as_slice().len());
    }
    total
}

/// How many requests tell of the end of a command.
fn places_of(finish: &Finish) -> usize
    ensures places { (command : ℕ) → result ≡ length (reports_of command finish.now) }
    ensures few { result ≤ 2 }
{
    match finish {
        Finish::Rc(_) => 2,
        Finish::Fault(_) => 1,
    }
}
