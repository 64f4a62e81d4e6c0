//! Laws of messages, as contracts.

ghost use Rattle.bm_msg.specs.Laws.{FirstLoginsStay, LoginsAreRead, ToldOnce, WrittenIsMessage, WrittenIsRead};

/// No tree is two messages.
pub fn told_once()
    ensures { ToldOnce }
{}

/// The tree that a message is written as is that message, under these conditions. Its number and
/// its command's are below 2^63, an unknown operation is none of the protocol, and a session has 1
/// to 64 bytes. An exception's result is a str, and a log's name has 1 to 255 bytes.
pub fn written_is_message()
    ensures { WrittenIsMessage }
{}

/// Whatever tree the bytes of a message spell is that message, under the same conditions. The calls
/// that write a message answer that its bytes are read back.
pub fn written_is_read()
    ensures { WrittenIsRead }
{}

/// A login without a next session is written as its `auth` alone. Whatever tree the bytes of a
/// login spell is its `auth`. It names the next session that the login named: each has 1 to 64
/// bytes.
pub fn logins_are_read()
    ensures first { FirstLoginsStay }
    ensures read { LoginsAreRead }
{}
