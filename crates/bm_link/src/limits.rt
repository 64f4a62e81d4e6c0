//! How long messages may be.

ghost use Rattle.bm_link.specs.Accepting.{IsLimited};

use tungstenite::WebSocketConfig;

/// The most bytes of a message, and of a frame.
const MOST_BYTES: usize = 1_048_576;

/// The most bytes that wait to be sent, with the message that is sent. Above it a message is not
/// sent, for want of memory, and no ping is read.
const MOST_WAITING: usize = 2 * MOST_BYTES;

/// A configuration with those limits.
pub(crate) fn limits() -> WebSocketConfig
    ensures { IsLimited result }
{
    WebSocketConfig::default()
        .max_message_size(Some(MOST_BYTES))
        .max_frame_size(Some(MOST_BYTES))
        .max_write_buffer_size(MOST_WAITING)
}
