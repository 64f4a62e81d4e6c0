//! Laws of a lane and a worker over a connection.

ghost use Rattle.bm_wired.specs.Laws.{WiredIsSchedule, WiredIsLogged};
ghost use Rattle.bm_wired.specs.Cuts.{CutsAreSchedules, CutsAreLogged, AllIsLogged};
ghost use Rattle.bm_wired.specs.Bytes.{BytesAreMessages, BytesAreLogged, AllBytesAreLogged};
ghost use Rattle.bm_wired.specs.Service.{ServiceIsLogged, AllOfServiceIsSeen};
ghost use Rattle.bm_wired.specs.ServiceAsBytes.{ServiceIsOverBytes, OverBytesIsService};
ghost use Rattle.bm_wired.specs.Frames.{MessagesHaveFrames, FramesAreRead, PartsAreNotRead};
ghost use Rattle.bm_wired.specs.Frames.{FramesAreApart};
ghost use Rattle.bm_wired.specs.CutExample.{CutsShowLines};
ghost use Rattle.bm_wired.specs.BytesExample.{BytesShowLines};
ghost use Rattle.bm_wired.specs.ServiceExample.{ServiceShowsLines};
ghost use Rattle.bm_wired.specs.Example.{RunsShowLines};
ghost use Rattle.bm_wired.specs.ReadBack.{StartsAreRead, RunsAreMeant, StartsAreRun, NewWorkersRun};
ghost use Rattle.bm_wired.specs.ReadBack.{EmptyStartsAreRefused, InterruptsAreRead, AsksAreRead};
ghost use Rattle.bm_wired.specs.ReadBack.{ReportsAreRead, ResponsesAreRead};
ghost use Rattle.bm_wired.specs.ReadBack.{AnswersAreRead, VerdictsAreRead};
ghost use Rattle.bm_wired.specs.CanBeHeard.{OrdersCanBeHeard, AsksCanBeHeard, AnswersCanBeHeard};
ghost use Rattle.bm_wired.specs.ReadLogins.{LoginsAreRead, LoginAnswersAreRead};
ghost use Rattle.bm_wired.specs.ReadLogins.{LoginRefusalsAreRead};

/// Whatever a lane, its link and a worker do over a connection from a session's begin on, some
/// schedule does it too. It reaches the same trace, the same number of shown items and the same
/// reports. So each log is a beginning of what the worker reported of its command.
pub fn wired_is_schedule()
    ensures schedule { WiredIsSchedule }
    ensures logged { WiredIsLogged }
{}

/// The same holds over connections that are cut at any moment, with whatever is under way. It holds
/// over sessions that are resumed, given up, and begun anew. Whatever the two ends do, some
/// schedule reaches the same trace and the same number of shown items, and reports the same. So
/// each log is a beginning of what was reported of its command, over all sessions. Viewers see all
/// that was reported of a command of the lane's session under three premises. That is the session
/// of the worker's core, nothing is unanswered, and all is shown.
pub fn cuts_are_logged()
    ensures schedule { CutsAreSchedules }
    ensures prefix { CutsAreLogged }
    ensures whole { AllIsLogged }
{}

/// The same holds where the connections carry bytes, as they do. Each message goes in a frame of a
/// WebSocket, and a turn of either link reads one only once the whole frame is there. A cut leaves
/// any number of bytes, so it may fall inside a frame. Each run over bytes leads where some run
/// over messages does. So what is said of the logs over cuts holds over bytes too.
pub fn bytes_are_logged()
    ensures messages { BytesAreMessages }
    ensures prefix { BytesAreLogged }
    ensures whole { AllBytesAreLogged }
{}

/// The law from socket to socket, which `Service.antt` says alone. It has a lane with its link, a
/// worker, and the bytes under way between them, over connections that are cut anywhere. Each log
/// is a prefix of what was reported of its command. Viewers see all of that of a command of the
/// lane's session, under three premises. That is the session of the worker's core, nothing is
/// unanswered, and all is shown.
pub fn service_is_logged()
    ensures prefix { ServiceIsLogged }
    ensures whole { AllOfServiceIsSeen }
{}

/// Runs from socket to socket reach exactly the states that runs over bytes reach. So the one law
/// says no less than the layers, and the runs that show something are runs of it too.
pub fn service_is_over_bytes()
    ensures bytes { ServiceIsOverBytes }
    ensures back { OverBytesIsService }
{}

/// Each message has a frame, and no two frames begin the same bytes. The reader of WebSockets that
/// both ends have gives the message of the frame at the front, and takes that frame alone. Of a
/// part of a frame it gives nothing, and waits. So a turn over bytes reads as this reader does,
/// where it is between two messages and its limits let the message pass.
pub fn frames_are_read()
    ensures have { MessagesHaveFrames }
    ensures read { FramesAreRead }
    ensures part { PartsAreNotRead }
    ensures apart { FramesAreApart }
{}

/// There is a run over one connection in which a line comes from a command to a viewer. The command
/// is ordered and run, what it writes is told, taken and answered, and a look shows it. So the law
/// speaks of something.
pub fn runs_show_lines()
    ensures { RunsShowLines }
{}

/// There is a run over a cut in which an update's answer is lost. The session is resumed, the
/// update is sent again and taken as a repeat, and viewers see its line once.
pub fn cuts_show_lines()
    ensures { CutsShowLines }
{}

/// There is a run over bytes in which a cut leaves one byte of that answer's frame. The worker
/// reads nothing in it. The session is resumed, and viewers see the line once.
pub fn bytes_show_lines()
    ensures { BytesShowLines }
{}

/// That run goes from socket to socket too, and all premises of the law hold at its end.
pub fn service_shows_lines()
    ensures { ServiceShowsLines }
{}

/// Messages are read back as they were meant. The bytes of each are decoded and are a message, and
/// nobody reads another one in them. A worker runs exactly the command that an order starts, with
/// exactly its words, and under the number of the order. It interrupts the command that it is told
/// to, and does what else is asked. It hears the answer to its own request as that request's. A
/// lane reads a worker's report as the event that it reports, and a response as that response.
pub fn messages_are_read_back()
    ensures start { StartsAreRead }
    ensures runs { RunsAreMeant }
    ensures first { StartsAreRun }
    ensures new { NewWorkersRun }
    ensures empty { EmptyStartsAreRefused }
    ensures interrupt { InterruptsAreRead }
    ensures ask { AsksAreRead }
    ensures report { ReportsAreRead }
    ensures response { ResponsesAreRead }
    ensures answer { AnswersAreRead }
    ensures verdict { VerdictsAreRead }
{}

/// A worker can hear what its master sends. So what it does on whatever it hears in these bytes is
/// said of something.
pub fn messages_can_be_heard()
    ensures order { OrdersCanBeHeard }
    ensures ask { AsksCanBeHeard }
    ensures answer { AnswersCanBeHeard }
{}

/// Logins are read back as they were meant too, and so is what a master answers to them. It reads
/// the name, the password, the session and the next session that the worker gave, and no others.
/// The worker reads how its lane was taken up, or that it was refused.
pub fn logins_are_read_back()
    ensures login { LoginsAreRead }
    ensures taken { LoginAnswersAreRead }
    ensures refused { LoginRefusalsAreRead }
{}
