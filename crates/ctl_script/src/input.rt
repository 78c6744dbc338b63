ghost use Rattle.std.specs.Prelude.{◌≡◌, ◌<◌, ◌≤◌, length, vec_len, IfOk, IfSome, OnOk, Err};
ghost use Rattle.std.specs.Io.KnownBytes.{Consumes, IsAtEnd};

use crate::fault::InputFault;
use std::alloc::Global;
use std::io::{ErrorKind, Read};

/// How many bytes an input may have.
pub const MAX_INPUT: usize = 1_048_576;

/// How many reads an input may take, the one that shows its end included.
pub const MAX_READS: u32 = 2_097_152;

const CHUNK: usize = 4096;

/// Reads an input whole. A read that was interrupted counts, and is made again.
pub fn read_input<R: Read>(alloc: Global, reader: &mut R) -> Result<Vec<u8>, InputFault>
    ensures whole { IfOk result (λ text. Consumes (R.remaining reader.old) (R.remaining reader.new) text.items) }
    ensures end { OnOk result (IsAtEnd (R.remaining reader.new)) }
    ensures within { IfOk result (λ text. vec_len text ≤ 1048576) }
    ensures too_long { result ≡ Err InputFault.TooLong → IfSome (R.remaining reader.old) (λ bytes. 1048576 < length bytes) }
{
    let mut text = Vec::new(alloc);
    let mut chunk = [0u8; CHUNK];
    for _ in 0..MAX_READS {
        // one byte past the limit shows that the input is too long
        let room = CHUNK.min(MAX_INPUT + 1 - text.len());
        match reader.read(&mut chunk[..room]) {
            Ok(0) => return Ok(text),
            Ok(count) if count > MAX_INPUT - text.len() => return Err(InputFault::TooLong),
            Ok(count) => {
                if text.extend_from_slice(&chunk[..count]).is_err() {
                    return Err(InputFault::Memory);
                }
            }
            Err(error) => {
                if error.kind() != ErrorKind::Interrupted {
                    return Err(InputFault::Reader);
                }
            }
        }
    }
    Err(InputFault::Reader)
}
