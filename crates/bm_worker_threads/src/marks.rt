//! By what the processes of a worker's commands are known: a variable of their environment. The
//! toolchain starts no process groups, and few workers may make a control group.

ghost use Rattle.std.specs.Prelude.{◌≡◌, IfOk, IfSome, option_map, string_bytes};
ghost use Rattle.std.specs.Option.{option_copied};
ghost use Rattle.bm_worker_threads.specs.Marks.{AreNew, IsPlace, IsProcess, mark_of, namespace_in, place_text, process_text, text_or, value_of};

use crate::session::new_session;
use std::alloc::{AllocError, AllocGlobal, Global};
use std::marker::Model;
use std::random::RandomSource;
use std::rt::{Env, Files};
use std::{env, fs, io};

/// The variable that each command is given. What the command starts has it as well.
pub(crate) const VARIABLE: &str = "BUILDWORKER_COMMAND";

/// Where the start time of a process stands behind its name in what the system tells of it.
const START_PLACE: usize = 19;

/// The marks of a worker's commands, by which what they left running is found. Each has the
/// worker's process namespace, user, number and start time, 16 random bytes and the number of the
/// command. A number alone is another process's one day, and in a container it is another one's
/// now.
#[derive(Drop)]
pub struct Marks {
    alloc: Global,
    /// The marks of the worker that this one is a command of, in itself or by what started it.
    outer: String,
    /// What the marks of this user's workers in this namespace begin with, where that is known.
    place: Option<String>,
    /// What all marks of this worker begin with.
    worker: String,
}

impl Model for Marks {
    ghost use Rattle.std.specs.Prelude.{option_map, string_bytes};
    ghost use Rattle.bm_worker_threads.specs.Marks.{MarkTexts};

    ghost Value = { MarkTexts };

    ghost view = { λ m. record {
      outer = string_bytes m.outer;
      place = option_map string_bytes m.place;
      worker = string_bytes m.worker;
    } };
}

impl Marks {
    /// The marks of this worker.
    ///
    /// # Errors
    ///
    /// The system gives no random bytes, or memory is wanting.
    pub fn new<R>(rt: &R) -> io::Result<Marks>
    where
        R: Files + Env + RandomSource + AllocGlobal,
        ensures { IfOk result AreNew }
    {
        let alloc = rt.alloc();
        let random = new_session(rt)?;
        let outer = match env::var(rt, VARIABLE) {
            Ok(outer) => outer,
            Err(_) => String::new(alloc),
        };
        let (place, process) = (place_of(rt), process_of(rt));
        let place_text = text_or(&place, "buildworker-0.0.");
        let process_text = text_or(&process, "0.0.");
        let worker = format!(in alloc; "{place_text}{process_text}{random}.")?;
        Ok(Marks {
            alloc,
            outer,
            place,
            worker,
        })
    }

    /// What all marks of this worker begin with. By it all that its commands started is found.
    pub(crate) fn of_worker(&self) -> &str
        ensures { result.now ≡ self.now.worker }
    {
        self.worker.as_str()
    }

    /// The marks of the worker that this one is a command of.
    pub(crate) fn of_outer(&self) -> &str
        ensures { result.now ≡ self.now.outer }
    {
        self.outer.as_str()
    }

    /// What the marks of this user's workers begin with, where that is known.
    pub(crate) fn of_place(&self) -> Option<&str>
        ensures { option_copied result ≡ self.now.place }
    {
        match &self.place {
            Some(place) => Some(place.as_str()),
            None => None,
        }
    }

    /// The mark of the process with this number, by which it is looked for. No other one begins
    /// with it.
    pub(crate) fn of_process(&self, number: u64) -> Result<String, AllocError>
        ensures { IfOk result (λ mark. string_bytes mark ≡ mark_of self.now number) }
    {
        let worker = self.worker.as_str();
        format!(in self.alloc; "{worker}{number}.")
    }

    /// The value of the variable for the process with this number: an outer worker finds it too.
    pub(crate) fn value(&self, number: u64) -> Result<String, AllocError>
        ensures { IfOk result (λ value. string_bytes value ≡ value_of self.now number) }
    {
        let (outer, worker) = (self.outer.as_str(), self.worker.as_str());
        format!(in self.alloc; "{outer}{worker}{number}.")
    }
}

fn text_or<'a>(text: &'a Option<String>, other: &'a str) -> &'a str
    ensures { result.now ≡ text_or (option_map string_bytes text.now) other.now }
{
    match text {
        Some(text) => text.as_str(),
        None => other,
    }
}

/// What the marks of workers of this user in this namespace of processes begin with. None where
/// the system doesn't tell.
fn place_of<R: Files + AllocGlobal>(rt: &R) -> Option<String>
    ensures { IfSome result (λ place. IsPlace (string_bytes place)) }
{
    let link = fs::read_link(rt, "/proc/self/ns/pid").ok()?;
    let namespace = namespace_in(link.as_str())?;
    let status = fs::read_to_string(rt, "/proc/self/status").ok()?;
    let (_, users) = status.as_str().split_once("\nUid:")?;
    let user = users.split_ascii_whitespace().next()?;
    place_text(rt.alloc(), namespace, user)
}

/// The number of a namespace in the text of its link.
fn namespace_in(link: &str) -> Option<&str>
    ensures { IfSome result (λ namespace. namespace.now ≡ namespace_in link.now) }
{
    let (_, namespace) = link.split_once('[')?;
    let (namespace, _) = namespace.split_once(']')?;
    Some(namespace)
}

fn place_text(alloc: Global, namespace: &str, user: &str) -> Option<String>
    ensures { IfSome result (λ text. string_bytes text ≡ place_text namespace.now user.now) }
{
    format!(in alloc; "buildworker-{namespace}.{user}.").ok()
}

/// The number of this process and its start time. None where the system doesn't tell.
fn process_of<R: Files + AllocGlobal>(rt: &R) -> Option<String>
    ensures { IfSome result (λ process. IsProcess (string_bytes process)) }
{
    let stat = fs::read_to_string(rt, "/proc/self/stat").ok()?;
    let (number, _) = stat.as_str().split_once(' ')?;
    // The name stands in brackets, and may have some itself.
    let (_, rest) = stat.as_str().rsplit_once(')')?;
    let start = rest.split_ascii_whitespace().nth(START_PLACE)?;
    process_text(rt.alloc(), number, start)
}

fn process_text(alloc: Global, number: &str, start: &str) -> Option<String>
    ensures { IfSome result (λ text. string_bytes text ≡ process_text number.now start.now) }
{
    format!(in alloc; "{number}.{start}.").ok()
}
