//! Reading a whole file.

ghost use Rattle.std.specs.Prelude.{IfOk, IsErrOf};
ghost use Rattle.ca_report.specs.Reading.{ReadsAll, GivesTooMany, GivesSome, TakesFile};

use crate::fault::InputFault;
use ca_plane::Dev;
use std::alloc::Global;
use std::io::Read;

/// How many bytes a file may have.
pub const MAX_FILE: usize = 67_108_864;

const PIECE: usize = 8192;

/// All bytes that the reader gives up to its end. A read that fails ends the call, and nothing is tried
/// again.
///
/// Each read but the last gives a byte or more, and the call ends once more bytes came than a file may have.
/// The last read asks for one byte more than a file may still have, so at most one byte too many is taken.
/// Their number is judged before room is made for them, so that memory runs out only over bytes that a file
/// may have.
pub fn read_all<R: Read>(alloc: Global, device: &mut Dev<R>) -> Result<Vec<u8>, InputFault>
    ensures found { IfOk result (λ v.
        ReadsAll (R.remaining device.old.inner) (R.remaining device.new.inner) v.items) }
    ensures too_long { IsErrOf result InputFault.TooLong
        → GivesTooMany (R.remaining device.old.inner) (R.remaining device.new.inner) }
    ensures memory { IsErrOf result InputFault.Memory
        → GivesSome (R.remaining device.old.inner) (R.remaining device.new.inner) }
    // A failed read is counted, and nothing else is.
    ensures takes { TakesFile R.remaining device.old device.new InputFault.Read result }
{
    let mut bytes = Vec::new(alloc);
    let mut buffer = [0u8; PIECE];
    'reads: loop {
        let room = MAX_FILE - bytes.len();
        let piece = &mut buffer[..PIECE.min(room + 1)];
        let Ok(count) = device.read(piece) else {
            return Err(InputFault::Read);
        };
        if count == 0 {
            return Ok(bytes);
        }
        if count > room {
            return Err(InputFault::TooLong);
        }
        if bytes.extend_from_slice(&piece[..count]).is_err() {
            return Err(InputFault::Memory);
        }
    }
}
