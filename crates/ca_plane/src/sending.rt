//! Whole texts sent to a writer.

ghost use Rattle.std.specs.Prelude.{◌≡◌, [], IsOk, OnOk, OnErr, IfErr};
ghost use Rattle.std.specs.Io.KnownBytes.{Appends};
ghost use Rattle.ca_plane.specs.Device.{Rises, AppendsPrefix};

use crate::device::Dev;
use crate::memory::WriteFault;
use std::io::Write;

/// Writes all of the bytes.
///
/// It takes no memory. It ends with the last byte, and writes no empty rest after it. After a failure nothing
/// is tried again, and some first part of the bytes was written, but not all.
pub fn send<W: Write>(device: &mut Dev<W>, bytes: &[u8]) -> Result<(), WriteFault>
    ensures all { OnOk result (Appends (W.contents device.old.inner)
        (W.contents device.new.inner) bytes.now) }
    ensures kept { OnOk result (device.new.failures ≡ device.old.failures) }
    ensures nothing { bytes.now ≡ [] → IsOk result }
    ensures fault { IfErr result (λ e. e ≡ WriteFault.Write) }
    ensures counted { OnErr result (Rises device.old.failures device.new.failures) }
    ensures front { OnErr result (AppendsPrefix (W.contents device.old.inner)
        (W.contents device.new.inner) bytes.now) }
{
    let mut unsent = bytes;
    'pieces: while !unsent.is_empty() {
        let Ok(count) = device.write(unsent) else {
            return Err(WriteFault::Write);
        };
        unsent = &unsent[count..];
    }
    Ok(())
}
