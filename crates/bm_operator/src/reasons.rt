//! Why a worker is lost, and why a login, a step or a program is refused.

ghost use Rattle.std.specs.Prelude.{◌≡◌};
ghost use Rattle.bm_operator.specs.Reasons.{limit_text, loss_text, program_text, refusal_text, start_text};

/// Why a worker's connection was cut or its session given up.
#[derive(Clone, Copy, PartialEq, Eq)]
pub enum LossCause {
    /// The connection ended.
    Closed,
    /// Its stream failed.
    Stream,
    /// What came is no message of the protocol.
    BadMessage,
    /// The lane has had as many events as it may, or the numbers of requests are used up.
    Full,
    /// Memory was wanting.
    Memory,
    /// The session was not resumed in time.
    Expired,
    /// The worker was told to shut down.
    Dismissed,
    /// The worker's process ended.
    Ended,
    /// The worker logged in with another session.
    Replaced,
}

impl LossCause {
    /// CAUSE of `worker NAME cut, CAUSE` and of `worker NAME lost, CAUSE`.
    pub fn text(self) -> &'static str
        ensures { result.now ≡ loss_text self }
    {
        match self {
            LossCause::Closed => "closed",
            LossCause::Stream => "stream failed",
            LossCause::BadMessage => "bad message",
            LossCause::Full => "full",
            LossCause::Memory => "out of memory",
            LossCause::Expired => "not resumed in time",
            LossCause::Dismissed => "told to shut down",
            LossCause::Ended => "its process ended",
            LossCause::Replaced => "another session",
        }
    }
}

/// Why a connection isn't taken up as a worker's.
#[derive(Clone, Copy, PartialEq, Eq)]
pub enum LoginRefusal {
    /// The user or the password is wrong.
    BadLogin,
    /// The worker is logged in by another connection.
    AlreadyUp,
    /// The lane's queue had no place for the end of an earlier session.
    Busy,
    /// The lane has had as many events as it may.
    Full,
    /// What came is no login.
    BadMessage,
    /// The connection ended before its login.
    Closed,
    /// Its stream failed before its login.
    Stream,
    /// No login came in time.
    Late,
    /// The most connections that may wait for a login do so already.
    Crowded,
    /// No thread could be started for it.
    NoThread,
    /// Memory was wanting.
    Memory,
    /// The master ends.
    Closing,
}

impl LoginRefusal {
    /// WHY of `login refused, WHY, ..` and of `connection refused, WHY, ..`.
    pub fn text(self) -> &'static str
        ensures { result.now ≡ refusal_text self }
    {
        match self {
            LoginRefusal::BadLogin => "bad login",
            LoginRefusal::AlreadyUp => "already up",
            LoginRefusal::Busy => "busy",
            LoginRefusal::Full => "full",
            LoginRefusal::BadMessage => "bad message",
            LoginRefusal::Closed => "closed",
            LoginRefusal::Stream => "stream failed",
            LoginRefusal::Late => "no login in time",
            LoginRefusal::Crowded => "too many connections",
            LoginRefusal::NoThread => "no thread",
            LoginRefusal::Memory => "out of memory",
            LoginRefusal::Closing => "the master ends",
        }
    }
}

/// Why a step wasn't started.
#[derive(Clone, Copy, PartialEq, Eq)]
pub enum StartRefusal {
    /// Its build was cancelled before.
    Cancelled,
    /// Its worker's session was given up.
    Lost,
    /// The lane has had as many events as it may.
    Full,
    /// Its command has more words, or longer ones, than one request carries. Told as `Full` it
    /// would speak of the lane, of which nothing is full.
    TooLong,
    /// Memory was wanting.
    Memory,
}

impl StartRefusal {
    /// WHY of `build I step not started, WHY: STEP`.
    pub fn text(self) -> &'static str
        ensures { result.now ≡ start_text self }
    {
        match self {
            StartRefusal::Cancelled => "cancelled",
            StartRefusal::Lost => "worker lost",
            StartRefusal::Full => "full",
            StartRefusal::TooLong => "command too long",
            StartRefusal::Memory => "out of memory",
        }
    }
}

/// Which limit a step has reached.
#[derive(Clone, Copy, PartialEq, Eq)]
pub enum StepLimit {
    /// Its updates carried as many bytes as they may.
    Bytes,
    /// It has run for as many ticks as it may.
    Ticks,
    /// Its updates have carried nothing for as many ticks as they may.
    Silence,
}

impl StepLimit {
    /// LIMIT of `build I step stopped, LIMIT, log ID: STEP`.
    pub fn text(self) -> &'static str
        ensures { result.now ≡ limit_text self }
    {
        match self {
            StepLimit::Bytes => "max_bytes",
            StepLimit::Ticks => "timeout_ticks",
            StepLimit::Silence => "silent_ticks",
        }
    }
}

/// Why the program of a worker wasn't started.
#[derive(Clone, Copy, PartialEq, Eq)]
pub enum ProgramRefusal {
    /// There is no such file.
    NotFound,
    /// It may not be run.
    Denied,
    /// Memory was wanting.
    Memory,
    /// The system refused it for another reason.
    System,
}

impl ProgramRefusal {
    /// WHY of `program of NAME not started, WHY`.
    pub fn text(self) -> &'static str
        ensures { result.now ≡ program_text self }
    {
        match self {
            ProgramRefusal::NotFound => "no such file",
            ProgramRefusal::Denied => "permission denied",
            ProgramRefusal::Memory => "out of memory",
            ProgramRefusal::System => "refused by the system",
        }
    }
}
