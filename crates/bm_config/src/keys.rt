//! The keys of a configuration.

ghost use Rattle.std.specs.Prelude.{◌≡◌};
ghost use Rattle.bm_config.specs.Keys.{name_of};

/// A key of a configuration, by the last part of its name.
#[derive(Clone, Copy, Debug, PartialEq, Eq)]
pub enum Key {
    Listen,
    Web,
    Address,
    Capacity,
    Writers,
    Remarks,
    Worker,
    Name,
    Password,
    Slots,
    Latent,
    IdleTicks,
    ResumeTicks,
    Lock,
    Max,
    Build,
    Locks,
    Mode,
    Step,
    Command,
    HaltOnFailure,
    FlunkOnFailure,
    AlwaysRun,
    MaxBytes,
    TimeoutTicks,
    SilentTicks,
}

impl Key {
    /// Its name in a configuration.
    pub fn name(self) -> &'static str
        ensures { result.now ≡ name_of self }
    {
        match self {
            Key::Listen => "listen",
            Key::Web => "web",
            Key::Address => "address",
            Key::Capacity => "capacity",
            Key::Writers => "writers",
            Key::Remarks => "remarks",
            Key::Worker => "worker",
            Key::Name => "name",
            Key::Password => "password",
            Key::Slots => "slots",
            Key::Latent => "latent",
            Key::IdleTicks => "idle_ticks",
            Key::ResumeTicks => "resume_ticks",
            Key::Lock => "lock",
            Key::Max => "max",
            Key::Build => "build",
            Key::Locks => "locks",
            Key::Mode => "mode",
            Key::Step => "step",
            Key::Command => "command",
            Key::HaltOnFailure => "haltOnFailure",
            Key::FlunkOnFailure => "flunkOnFailure",
            Key::AlwaysRun => "alwaysRun",
            Key::MaxBytes => "max_bytes",
            Key::TimeoutTicks => "timeout_ticks",
            Key::SilentTicks => "silent_ticks",
        }
    }
}
