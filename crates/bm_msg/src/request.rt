//! What a request asks.

ghost use Rattle.std.specs.Prelude.{◌≡◌, IfOk};
ghost use Rattle.bm_msg.specs.Meaning.{asked};

use crate::field::Fields;
use bm_lines::Text;
use bm_value::Value;
use std::alloc::{AllocError, Global};

/// What one end asks of the other: each variant is one value of the key `op` (docs/PROTOCOL.md).
#[derive(Drop)]
pub enum Request {
    /// A worker names itself, and the session that it would resume (the session is this
    /// project's profile).
    Auth {
        username: Text,
        password: Text,
        session: Option<Text>,
    },
    Print {
        message: Text,
    },
    Keepalive,
    GetWorkerInfo,
    StartCommand {
        command: u64,
        name: Text,
        args: Value<Global>,
    },
    InterruptCommand {
        command: u64,
        why: Text,
    },
    Shutdown,
    /// A running command tells what it wrote.
    Update {
        command: u64,
        fields: Fields,
    },
    /// A command has ended, where it went wrong with a text that names the fault.
    Complete {
        command: u64,
        fault: Option<Text>,
    },
    /// An operation that the protocol doesn't have.
    Unknown {
        op: Text,
    },
}

fn option_copied(text: &Option<Text>) -> Result<Option<Text>, AllocError>
    ensures { IfOk result (λ t. t ≡ text.now) }
{
    match text {
        Some(text) => Ok(Some(text.copy()?)),
        None => Ok(None),
    }
}

impl Request {
    /// An equal request. The table of cases is one function: a part of it would need a condition
    /// that says which requests come to it.
    pub fn copy(&self, alloc: Global) -> Result<Request, AllocError>
        ensures { IfOk result (λ r. asked r ≡ asked self.now) }
    {
        match self {
            Request::Auth {
                username,
                password,
                session,
            } => Ok(Request::Auth {
                username: username.copy()?,
                password: password.copy()?,
                session: option_copied(session)?,
            }),
            Request::Print { message } => Ok(Request::Print {
                message: message.copy()?,
            }),
            Request::Keepalive => Ok(Request::Keepalive),
            Request::GetWorkerInfo => Ok(Request::GetWorkerInfo),
            Request::StartCommand {
                command,
                name,
                args,
            } => Ok(Request::StartCommand {
                command: *command,
                name: name.copy()?,
                args: args.copy_into(alloc)?,
            }),
            Request::InterruptCommand { command, why } => Ok(Request::InterruptCommand {
                command: *command,
                why: why.copy()?,
            }),
            Request::Shutdown => Ok(Request::Shutdown),
            Request::Update { command, fields } => Ok(Request::Update {
                command: *command,
                fields: fields.copy()?,
            }),
            Request::Complete { command, fault } => Ok(Request::Complete {
                command: *command,
                fault: option_copied(fault)?,
            }),
            Request::Unknown { op } => Ok(Request::Unknown { op: op.copy()? }),
        }
    }
}
