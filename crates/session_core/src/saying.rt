//! Writing bytes on a link.
ghost use Rattle.session_core.specs.Saying.{SaysBytes};

use link_core::{Failed, Link};

/// A write of the link failed. At most a prefix of the bytes was written.
#[derive(Clone, Copy, Debug, PartialEq, Eq)]
pub struct WriteFault;

/// Writes all of the bytes, in as few writes as the link takes. It takes no memory.
///
/// # Errors
/// Returns `WriteFault` only if the link's number of faults rose during this call. Then a prefix was written.
pub fn say<L: Link>(link: &mut L, bytes: &[u8]) -> Result<(), WriteFault>
    ensures { SaysBytes (L.state link.old) (L.state link.new) bytes.now result }
{
    let mut said = 0;
    while said < bytes.len() {
        match link.write(&bytes[said..]) {
            Ok(count) => said += count,
            Err(Failed) => return Err(WriteFault),
        }
    }
    Ok(())
}
