//! How a command is told of that its worker ends.

ghost use Rattle.std.specs.Prelude.{◌≡◌, ◌∷◌, [], IfSome, IsNone, option_map};
ghost use Rattle.bm_outbox.specs.Stopping.{cause_line, leftover_lines, stop_end, stopped_ms, sweep_of};

/// After how many milliseconds that count what its pipes still give isn't told any more. Until then
/// it is: the prompt that a step waited at may be in it.
const LAST_TEXTS_MS: u64 = 200;

/// After how many milliseconds that count a sweep that didn't come back isn't awaited any more. Its
/// rounds bound it: by a shorter time a busy machine would tell of processes that aren't left.
const SWEEP_LIMIT_MS: u64 = 5_000;

/// How many milliseconds count at most between two looks, which lie 4 apart. A look that comes
/// later shows a machine that stood still, or that gave the worker no processor. Then it gave none
/// to the sweep and to the threads of the pipes either.
const LOOK_LIMIT_MS: u64 = 20;

/// Why a worker ends a command.
#[derive(Clone, Copy, PartialEq, Eq)]
pub enum StopCause {
    /// The master asked for its end.
    Interrupted,
    /// Memory is wanting for what it printed.
    NoMemory,
}

impl StopCause {
    /// The line that says it.
    pub fn line(self) -> &'static str
        ensures { result.now ≡ cause_line self }
    {
        match self {
            StopCause::Interrupted => "interrupted\n",
            StopCause::NoMemory => "out of memory\n",
        }
    }
}

/// What is known of the processes of a command that is ended.
#[derive(Clone, Copy, PartialEq, Eq)]
pub enum Sweep {
    /// They are looked for and killed.
    Going,
    /// None is found any more.
    Clean,
    /// The last look still found one.
    Left,
    /// There is nothing to look with.
    NoTools,
    /// No look was possible.
    Failed,
}

impl Sweep {
    /// What the exit code of a sweep says; None is that of a killed one.
    pub fn of_code(code: Option<i32>) -> Sweep
        ensures { result ≡ sweep_of code }
    {
        match code {
            Some(0) => Sweep::Clean,
            Some(3) => Sweep::NoTools,
            Some(4) => Sweep::Left,
            _ => Sweep::Failed,
        }
    }
}

/// What may go on of a command behind its end.
#[derive(Clone, Copy, PartialEq, Eq)]
pub enum Leftover {
    /// Nothing does.
    Nothing,
    /// A process that isn't ended by a kill.
    Process,
    /// What it started, since there is nothing to look with.
    NoTools,
    /// What it started, since no look came back.
    NoLook,
}

impl Leftover {
    /// The line that says it, if there is anything to say.
    pub fn line(self) -> Option<&'static str>
        ensures some { IfSome result (λ line. leftover_lines self ≡ line.now ∷ []) }
        ensures none { IsNone result → leftover_lines self ≡ [] }
    {
        match self {
            Leftover::Nothing => None,
            Leftover::Process => Some("cannot end: a process is left\n"),
            Leftover::NoTools => Some("cannot end: no /bin/sh or grep\n"),
            Leftover::NoLook => Some("cannot end: no look at its processes\n"),
        }
    }
}

/// For how many milliseconds its worker has been ending a command, as they count for [`stop_end`].
/// So many had counted before, and so many have passed since the last look.
pub fn stopped_ms(before_ms: u64, passed_ms: u64) -> u64
    ensures { result ≡ stopped_ms before_ms passed_ms }
{
    before_ms.saturating_add(LOOK_LIMIT_MS.min(passed_ms))
}

/// Whether the end of a command is told that its worker has been ending for so many milliseconds,
/// as they count. The answer is what is said of its processes then. None where it isn't told yet:
/// it stands behind what the pipes still give within 200 milliseconds, and behind the sweep.
pub fn stop_end(sweep: Sweep, stopped_ms: u64, is_silent: bool) -> Option<Leftover>
    ensures { result ≡ stop_end sweep stopped_ms is_silent }
{
    if !is_silent && stopped_ms < LAST_TEXTS_MS {
        return None;
    }
    match sweep {
        Sweep::Going if stopped_ms < SWEEP_LIMIT_MS => None,
        Sweep::Going | Sweep::Failed => Some(Leftover::NoLook),
        Sweep::Clean => Some(Leftover::Nothing),
        Sweep::Left => Some(Leftover::Process),
        Sweep::NoTools => Some(Leftover::NoTools),
    }
}
