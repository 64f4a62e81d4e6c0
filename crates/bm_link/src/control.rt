//! What a master's link sends beside messages: a ping, a close frame, and the answer to a login
//! whose lane can't be asked. Also whose login it is.

ghost use Rattle.std.specs.Prelude.{◌≡◌};
ghost use Rattle.bm_link.specs.Control.{ClosesFor, PingsFor, PutsOff, names_kept};

use crate::ending::Stage;
use crate::fault::LinkFault;
use crate::frames::{send_close, send_ping};
use crate::master::MasterLink;
use crate::resume_state::ResumeState;
use crate::telling::refuse;
use bm_lane::HearRefusal;
use std::alloc::Global;
use std::io::{Read, Write};

impl<S: Read + Write + Drop> MasterLink<S> {
    /// Asks the worker for a sign of life. That is no request of the session: a peer that is there
    /// answers with a pong, which a `turn` passes over.
    ///
    /// # Errors
    ///
    /// `Closed` where no lane is up by the link. After any fault the link has failed, and the next
    /// `turn` cuts the lane or takes it down.
    pub fn ping(&mut self, resume_state: &ResumeState) -> Result<(), LinkFault>
        ensures pinged { PingsFor S.contents self.old.stage self.old resume_state.now result self.new }
        ensures login { self.new.login ≡ self.old.login }
        ensures refused { self.new.refused ≡ self.old.refused }
    {
        let Stage::Up = self.stage else {
            return Err(LinkFault::Closed);
        };
        match send_ping(&mut self.socket) {
            Ok(()) => Ok(()),
            Err(fault) => {
                self.kept = None;
                self.stage = Stage::Falling {
                    may_cut: resume_state.may_cut(&fault),
                };
                Err(fault)
            }
        }
    }

    /// Ends the link by a close frame. Nothing is heard any more: the next `turn` takes the lane
    /// down.
    ///
    /// # Errors
    ///
    /// `Closed` where no lane is up by the link, which then is as before. After any other fault no
    /// more than a beginning of the frame left, and the next `turn` takes the lane down as well.
    pub fn close(&mut self) -> Result<(), LinkFault>
        ensures closed { ClosesFor S.contents self.old.stage self.old result self.new }
        ensures login { self.new.login ≡ self.old.login }
        ensures refused { self.new.refused ≡ self.old.refused }
    {
        let Stage::Up = self.stage else {
            return Err(LinkFault::Closed);
        };
        let answer = send_close(&mut self.socket);
        self.kept = None;
        self.stage = Stage::Falling { may_cut: false };
        answer
    }

    /// Whether the login that waits names the session that is kept there. So its worker is the one
    /// that has that session. False where no login waits.
    pub fn names_kept(&self, resume_state: &ResumeState) -> bool
        ensures { result ≡ names_kept resume_state.now self.now.login }
    {
        match &self.login {
            Some(login) => resume_state.is(&login.session),
            None => false,
        }
    }

    /// Answers the login that waits by `busy`, where its lane can't be asked just now. The result
    /// is the link's fault, and the link has failed: `Closed` where no login waits.
    pub fn put_off(&mut self, alloc: Global) -> LinkFault
        ensures put_off { PutsOff S.contents self.old.login self.old result self.new }
        ensures kept { self.new.kept ≡ self.old.kept }
        ensures refused { self.new.refused ≡ self.old.refused }
    {
        let Some(login) = self.login.take() else {
            return LinkFault::Closed;
        };
        self.stage = Stage::Failed;
        refuse(alloc, &mut self.socket, login.seq, HearRefusal::Busy)
    }
}
