use crate::camera::Camera;
use crate::message::{HEAD, MAX_PAYLOAD, message_of};
use crate::reply_buffer::ReplyBuffer;
use std::io;
use std::io::{BufRead, ErrorKind, Read, Write};
use thiserror::Error;

// The errno of bytes that are no message, EPROTO.
const NO_MESSAGE: u32 = 71;

/// Why messages aren't read any more.
#[derive(Clone, Copy, Debug, Error)]
pub enum ServeFault {
    /// A message has a length that none has.
    #[error("a message of a wrong length")]
    Length,
    /// The messages end within one.
    #[error("the messages end within one")]
    Cut,
    /// They can't be read.
    #[error("the messages can't be read")]
    Read,
    /// A reply can't be written.
    #[error("a reply can't be written")]
    Write,
}

/// Answers messages, each by one reply, until they end between two of them. Bytes that are no message are answered with EPROTO (71).
///
/// - `reader`: gives the messages: of each how many bytes there are behind this number, which has 32 bits, the lowest first; then the four numbers of `Message`, and the payload, 16,368 bytes at most.
/// - `writer`: is given each reply whole: how many bytes there are behind this number, the errno, x, y and z, and the payload.
/// - `reply`: where replies are put together.
///
/// The error is that a message has a length that none has, that the messages end within one, or that one can't be read, or a reply written. What came before it was answered.
pub fn serve<R: BufRead, W: Write>(
    camera: &mut Camera,
    reader: &mut R,
    writer: &mut W,
    reply: &mut ReplyBuffer,
) -> Result<(), ServeFault> {
    let mut room = [0u8; HEAD + MAX_PAYLOAD];
    for _ in 0..u64::MAX {
        let Some(length) = read_length(reader)? else {
            return Ok(());
        };
        if length < HEAD || length > room.len() {
            return Err(ServeFault::Length);
        }
        let bytes = &mut room[..length];
        read_whole(reader, bytes)?;
        match message_of(bytes) {
            Some(message) => camera.answer(&message, reply),
            None => reply.refuse(NO_MESSAGE),
        }
        if writer.write_all(reply.finish()).is_err() {
            return Err(ServeFault::Write);
        }
    }
    Ok(())
}

// The length of the next message; none where the messages end.
fn read_length<R: BufRead>(reader: &mut R) -> Result<Option<usize>, ServeFault> {
    if is_at_end(reader)? {
        return Ok(None);
    }
    let mut length = [0; 4];
    read_whole(reader, &mut length)?;
    Ok(Some(u32::from_le_bytes(length) as usize))
}

fn is_at_end<R: BufRead>(reader: &mut R) -> Result<bool, ServeFault> {
    for _ in 0..u64::MAX {
        match reader.fill_buf() {
            Ok(bytes) => return Ok(bytes.is_empty()),
            Err(error) => {
                if error.kind() != ErrorKind::Interrupted {
                    return Err(ServeFault::Read);
                }
            }
        }
    }
    Err(ServeFault::Read)
}

fn read_whole<R: Read>(reader: &mut R, bytes: &mut [u8]) -> Result<(), ServeFault> {
    reader.read_exact(bytes).map_err(fault_of)
}

fn fault_of(error: io::Error) -> ServeFault {
    match error.kind() {
        ErrorKind::UnexpectedEof => ServeFault::Cut,
        _ => ServeFault::Read,
    }
}
