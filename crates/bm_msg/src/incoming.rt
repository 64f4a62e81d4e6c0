//! What a value says to the end that hears it.

ghost use Rattle.std.specs.Prelude.{◌≢◌, IfOk, IfErr, IsErrOf};
ghost use Rattle.bm_value.specs.View.{tree};
ghost use Rattle.bm_msg.specs.declared.fault.MsgError.{MsgError};
ghost use Rattle.bm_msg.specs.Incoming.{Said, said, Says, SaysNothing, Hears};

use crate::fault::MsgError;
use crate::message::Message;
use crate::reading::read;
use bm_value::Value;
use std::alloc::{Allocator, Global};

/// What a value says: a message, or a request whose arguments are bad.
#[derive(Drop)]
pub enum Incoming {
    Message(Message),
    /// A request with this number whose further keys are missing or of another kind. It's answered
    /// with an exception, and is no fault of the connection.
    BadArgs(u64),
}

impl Incoming {
    /// What the value says.
    ///
    /// Texts and values are copied, so the tree may be dropped afterwards.
    ///
    /// # Errors
    ///
    /// The first reason why the value says nothing, whatever memory there is: `NotMap`, `NoSeq` or
    /// `NoOp`. `Mem` where it is a message and memory ran out.
    pub fn read<A: Allocator>(alloc: Global, value: &Value<A>) -> Result<Incoming, MsgError>
        // What is answered is what the value says.
        ensures found { IfOk result (λ i. Says (tree value.now) (said i)) }
        // What it says is answered; where that is a message memory may run out.
        ensures only { (s : Said) → Says (tree value.now) s → Hears result s }
        // A fault that is told is the first reason.
        ensures fault { IfErr result (λ e. e ≢ MsgError.Mem → SaysNothing (tree value.now) e) }
        // The first reason is told, whatever memory there is.
        ensures refused { (f : MsgError) → SaysNothing (tree value.now) f → IsErrOf result f }
    {
        match read(alloc, value) {
            Ok(message) => Ok(Incoming::Message(message)),
            Err(MsgError::NotMap) => Err(MsgError::NotMap),
            Err(MsgError::NoSeq) => Err(MsgError::NoSeq),
            Err(MsgError::NoOp) => Err(MsgError::NoOp),
            Err(MsgError::BadArgs(seq)) => Ok(Incoming::BadArgs(seq)),
            Err(MsgError::Mem) => Err(MsgError::Mem),
        }
    }
}
