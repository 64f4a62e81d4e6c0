//! Laws as contracts: what a lane carries, what a fault leaves behind it, and that short texts fit
//! into a frame. A session which nobody heard of is not resumed.

ghost use Rattle.bm_link.specs.Laws.{WorkersEventsKeep, OrdersAreAdded, SessionsBeginAnew};
ghost use Rattle.bm_link.specs.LawsOfFaults.{AnswersOnlyWhatWasTaken, CutsWhereAllowed, LaneRefusesByItsTrace, TellsOnlyTheRefusal};
ghost use Rattle.bm_link.specs.LawsOfSessions.{AnswersNew, NewIsAnother, StaysAnother, UnsentIsAnother};
ghost use Rattle.bm_link.specs.LawsOfTexts.{AsksFit, LoginsFit, OrdersFit};

use std::io::Write;

/// The orders that are kept for the next link are those of the lane's trace that have no answer, in
/// order, by their numbers. It holds of a new lane and what is new, and still after each event.
/// After an event of the worker, a cut, a giving up or an `Up` that resumes, it holds of what is
/// then kept. After an order it holds with that order appended, and after an `Up` that resumes
/// nothing with what a session begins with.
pub fn carried_orders_are_pending()
    ensures events { WorkersEventsKeep }
    ensures orders { OrdersAreAdded }
    ensures sessions { SessionsBeginAnew }
{}

/// After a fault nothing has left but what its call was to send. Of an event that is only the
/// answer to it, where the lane took it. Of a refused login it is only the exception that says so.
/// A link that fails for its lane tells what the lane's trace refuses. Its lane is cut wherever it
/// may be and its trace takes that.
pub fn faults_leave_no_more<S: Write>()
    ensures answers { AnswersOnlyWhatWasTaken S.contents }
    ensures refusals { TellsOnlyTheRefusal S.contents }
    ensures lanes { LaneRefusesByItsTrace }
    ensures cuts { CutsWhereAllowed }
{}

/// A message with the short texts of its caller fits into a frame of its reader. It is an order,
/// any other request of a master, or a login whose session's text a master keeps.
pub fn short_texts_fit()
    ensures orders { OrdersFit }
    ensures asks { AsksFit }
    ensures logins { LoginsFit }
{}

/// A worker asks to resume one text, and names a fresh one in each login. Say it misses the answer
/// `new`, or that was not sent. Then the lane keeps no session of the text that it asks for, and
/// comes to none by its logins. So each of them is answered `new`, until it hears one: the session
/// that nobody heard of is never resumed.
pub fn unheard_sessions_end<S: Write>()
    ensures new { NewIsAnother S.contents }
    ensures unsent { UnsentIsAnother S.contents }
    ensures stays { StaysAnother S.contents }
    ensures answers { AnswersNew S.contents }
{}
