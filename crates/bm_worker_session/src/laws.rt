//! What a link was handed, over a whole connection, as contracts.

ghost use Rattle.bm_worker_session.specs.Laws.{BeginsAnewInStep, BeginsInStep, HearsInStep, SendsInStep, TellsKeep};

use std::io::{Read, Write};

/// A link was handed requests so far, and may have others still to send again. Together they are
/// what had no answer when the link came to be, and then all requests since, in order. A link
/// begins so. Each call that sends without a fault keeps it so, and so does each turn. What is told
/// has no answer then, whether the link failed or not. The law is over steps, which a caller
/// chains: a history inside the session would take proofs by hand.
pub fn sent_requests_are_the_stream<S: Read + Write>()
    ensures begins { BeginsInStep S.contents }
    ensures anew { BeginsAnewInStep S.contents }
    ensures sends { SendsInStep S.contents }
    ensures hears { HearsInStep S.remaining S.contents }
    ensures kept { TellsKeep }
{}
