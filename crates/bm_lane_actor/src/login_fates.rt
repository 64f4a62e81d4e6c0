//! What becomes of a login at a lane whose worker may be connected already.

ghost use Rattle.std.specs.Prelude.{◌≡◌};
ghost use Rattle.bm_lane_actor.specs.LoginFates.{login_fate, waiting_fate};

/// What becomes of a link that has logged in.
#[derive(Clone, Copy)]
pub enum LoginFate {
    /// It takes the lane up, or is told why not.
    Admit,
    /// It waits until the worker of the lane's link gave a sign of life, or is taken for dead.
    Wait,
    /// It waits in the place of the link that did so before. That one is told why not, unless it is
    /// of the same worker, which has left it.
    TakePlace,
}

/// What becomes of a link that waits.
#[derive(Clone, Copy)]
pub enum WaitingFate {
    /// It takes the lane up, or is told why not.
    Admit,
    /// It goes on waiting.
    Wait,
    /// It is let go without an answer: nobody hears it.
    Drop,
}

/// What becomes of a login where the lane is up or not, and another one waits or not. `is_own`: it
/// names the session that the lane has, so the lane's own worker has come by another connection.
pub fn login_fate(is_up: bool, waits: bool, is_own: bool) -> LoginFate
    ensures { result ≡ login_fate is_up waits is_own }
{
    match (is_up, waits, is_own) {
        (false, _, _) => LoginFate::Admit,
        (true, false, _) => LoginFate::Wait,
        (true, true, true) => LoginFate::TakePlace,
        (true, true, false) => LoginFate::Admit,
    }
}

/// What becomes of a login that has waited. `is_awaited`: the worker of the lane's link hasn't
/// given a sign of life yet, and isn't taken for dead. `has_left`: the peer has closed its
/// connection.
pub fn waiting_fate(is_awaited: bool, has_left: bool) -> WaitingFate
    ensures { result ≡ waiting_fate is_awaited has_left }
{
    match (has_left, is_awaited) {
        (true, _) => WaitingFate::Drop,
        (false, true) => WaitingFate::Wait,
        (false, false) => WaitingFate::Admit,
    }
}
