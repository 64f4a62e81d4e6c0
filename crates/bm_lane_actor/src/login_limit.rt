//! How many connections may wait for their login at once, and which of them makes room for another.

ghost use Rattle.std.specs.Prelude.{◌≡◌, ◌≢◌, ◌<◌, ◌⊎◌, ◌++◌, ◌∷◌, [], length, IfErr, IfSome, OnOk, OnErr, position};
ghost use Rattle.bm_lane_actor.specs.LoginLimits.{entered, entry_of, left, longer};
ghost use Rattle.bm_lane_actor.specs.PendingTable.{LeavesAt, has_number};

use crate::pending_login::PendingLogin;
use bm_operator::LoginRefusal;
use std::alloc::{AllocError, Global};
use std::marker::Model;
use std::sync::atomic::AtomicU64;
use std::sync::{Arc, Mutex, Wait};

/// The most connections at once that have a place and have not logged in. So many more may be on
/// their way out. Without that bound strangers that come again could start threads without an end.
pub const MOST_PENDING_LOGINS: u64 = 256;

/// How one more connection comes in.
#[derive(Clone, Copy)]
pub(crate) enum LoginEntry {
    /// There is a place for it.
    Room,
    /// It takes the place of the one that has been silent longest, which is put out. The oldest
    /// could be a worker in the midst of its login.
    InPlace,
    /// It doesn't: as many as may were put out and have not ended yet.
    Crowded,
}

/// How many connections have not logged in: those with a place, and those that were put out and
/// have not ended yet.
#[derive(Drop)]
struct LoginCount {
    inside: u64,
    leaving: u64,
}

impl Model for LoginCount {
    ghost use Rattle.std.specs.Prelude.{◌≤◌};
    ghost use Rattle.bm_lane_actor.specs.LoginLimits.{CountView, most_pending_logins};

    ghost Value = { CountView };

    ghost view = { λ c. record { inside = c.inside; leaving = c.leaving } };

    ghost invariant = { λ c. (c.inside ≤ most_pending_logins) × (c.leaving ≤ most_pending_logins) };
}

impl LoginCount {
    /// One more connection comes, and is counted where it may come in.
    fn enter(&mut self) -> LoginEntry
        ensures entry { result ≡ entry_of self.old }
        ensures count { self.new ≡ entered self.old }
    {
        if self.inside < MOST_PENDING_LOGINS {
            self.inside += 1;
            return LoginEntry::Room;
        }
        if self.leaving < MOST_PENDING_LOGINS {
            self.leaving += 1;
            return LoginEntry::InPlace;
        }
        LoginEntry::Crowded
    }

    /// A connection that came in has logged in or ended.
    fn leave(&mut self, was_put_out: bool)
        ensures { self.new ≡ left was_put_out self.old }
    {
        if was_put_out {
            self.leaving = self.leaving.saturating_sub(1);
        } else {
            self.inside = self.inside.saturating_sub(1);
        }
    }
}

/// Which connection spoke longest ago, of those that were looked at: its place, and the number of
/// what it said last.
#[derive(Drop)]
struct LongestSilence {
    place: Option<usize>,
    heard: u64,
}

impl Model for LongestSilence {
    ghost use Rattle.bm_lane_actor.specs.LoginLimits.{SilenceView};

    ghost Value = { SilenceView };

    ghost view = { λ s. record { place = s.place; heard = s.heard } };
}

impl LongestSilence {
    /// Looks at the connection of this place.
    fn look(&mut self, place: usize, heard: u64)
        ensures { self.new ≡ longer place heard self.old }
    {
        if self.place.is_some() && heard >= self.heard {
            return;
        }
        self.place = Some(place);
        self.heard = heard;
    }
}

/// The place of the connection that has been silent longest, of those that were not put out.
fn longest_silence(logins: &[Arc<PendingLogin, Global>]) -> Option<usize>
    ensures { IfSome result (λ place. place < length logins.now) }
{
    let mut longest = LongestSilence {
        place: None,
        heard: 0,
    };
    for (place, login) in logins.iter().enumerate() {
        if !login.is_put_out() {
            longest.look(place, login.heard());
        }
    }
    longest.place
}

/// Whether it is the connection of this number.
fn has_number(number: u64, login: &Arc<PendingLogin, Global>) -> bool
    ensures { result ≡ has_number number login.now }
{
    login.number() == number
}

/// The place of the connection of this number.
fn place_of(logins: &[Arc<PendingLogin, Global>], number: u64) -> Option<usize>
    ensures found { result ≡ position (has_number number) logins.now }
    ensures bound { IfSome result (λ place. place < length logins.now) }
{
    logins.iter().position(|login| has_number(number, login))
}

/// The connections that have not logged in.
#[derive(Drop)]
struct PendingLogins {
    count: LoginCount,
    logins: Vec<Arc<PendingLogin, Global>>,
}

impl PendingLogins {
    /// Nobody has connected.
    fn new(alloc: Global) -> PendingLogins
        ensures nobody { result.logins.items ≡ [] }
        ensures count { result.count ≡ record { inside = 0; leaving = 0 } }
    {
        PendingLogins {
            count: LoginCount {
                inside: 0,
                leaving: 0,
            },
            logins: Vec::new(alloc),
        }
    }

    /// A connection comes in, or is told why not.
    fn enter(&mut self, login: Arc<PendingLogin, Global>) -> Result<(), LoginRefusal>
        ensures logins { OnOk result (self.new.logins.items
            ≡ self.old.logins.items ++ login ∷ []) }
        ensures count { OnOk result (self.new.count ≡ entered self.old.count) }
        ensures place { OnOk result (entry_of self.old.count ≢ LoginEntry.Crowded) }
        ensures kept { OnErr result (self.new.logins.items ≡ self.old.logins.items) }
        ensures uncounted { OnErr result (self.new.count ≡ self.old.count) }
        ensures why { IfErr result (λ why. (why ≡ LoginRefusal.Memory)
            ⊎ ((why ≡ LoginRefusal.Crowded) × (entry_of self.old.count ≡ LoginEntry.Crowded))) }
    {
        if self.logins.reserve(1).is_err() {
            return Err(LoginRefusal::Memory);
        }
        match self.count.enter() {
            LoginEntry::Crowded => return Err(LoginRefusal::Crowded),
            LoginEntry::InPlace => self.put_out(),
            LoginEntry::Room => {}
        }
        self.logins.push_reserved(login);
        Ok(())
    }

    /// Puts out the connection that has been silent longest.
    fn put_out(&self) {
        if let Some(place) = longest_silence(self.logins.as_slice()) {
            if let Some(login) = self.logins.get(place) {
                login.put_out();
            }
        }
    }

    /// The connection of this number has logged in or ended.
    fn leave(&mut self, number: u64)
        ensures { LeavesAt (position (has_number number) self.old.logins.items)
            self.old.logins.items self.old.count self.new.logins.items self.new.count }
    {
        let Some(place) = place_of(self.logins.as_slice(), number) else {
            return;
        };
        let login = self.logins.swap_remove(place);
        self.count.leave(login.is_put_out());
    }
}

/// The connections that have not logged in: as many as may be there at once.
#[derive(Drop)]
pub struct LoginLimit {
    pending: Mutex<PendingLogins>,
    /// How much was said by all of them.
    said: Arc<AtomicU64, Global>,
}

impl LoginLimit {
    /// Nobody has connected.
    ///
    /// # Errors
    ///
    /// Want of memory.
    pub fn new(alloc: Global) -> Result<LoginLimit, AllocError> {
        Ok(LoginLimit {
            pending: Mutex::new(PendingLogins::new(alloc)),
            said: Arc::new(alloc, AtomicU64::new(0))?,
        })
    }

    /// One more connection comes in, and is counted until it leaves. Where all places are taken the
    /// one that has been silent longest is put out for it.
    ///
    /// # Errors
    ///
    /// `Crowded` where as many as may were put out and have not ended yet, and `Memory`. Nothing is
    /// counted then.
    pub fn enter<R: Wait>(
        &self,
        rt: &R,
        alloc: Global,
    ) -> Result<Arc<PendingLogin, Global>, LoginRefusal>
        ensures { IfErr result (λ why. (why ≡ LoginRefusal.Memory)
            ⊎ (why ≡ LoginRefusal.Crowded)) }
    {
        let login = PendingLogin::new(alloc, &self.said);
        let Ok(login) = login else {
            return Err(LoginRefusal::Memory);
        };
        let Ok(own) = Arc::try_clone(&login) else {
            return Err(LoginRefusal::Memory);
        };
        self.pending.lock(rt).enter(own)?;
        Ok(login)
    }

    /// The connection of this number has logged in or ended.
    pub fn leave<R: Wait>(&self, rt: &R, number: u64) {
        self.pending.lock(rt).leave(number);
    }
}
