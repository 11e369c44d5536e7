ghost use Rattle.gdi_io.specs.Whole.{ReadsAll, WritesAll};

use crate::{Failed, ReadRefused, Shelf, Sink};
use gdi_kinds::Bytes;
use std::alloc::{AllocError, Global};

const LONGEST_FILE: usize = 67_108_864;

// So many bytes are asked for at a time.
const PIECE: usize = 65_536;

/// The whole file of a name.
///
/// `Failed` comes only where the shelf failed, and leaves it halted at this name. `TooLong` comes exactly where byte
/// 67,108,865 was read.
pub fn read_all<F: Shelf>(alloc: Global, shelf: &mut F, name: &str) -> Result<Bytes, ReadRefused>
    ensures { ReadsAll (F.told shelf.old) (F.told shelf.new) name.now result }
{
    match shelf.select(name) {
        Ok(()) => {}
        Err(Failed) => return Err(ReadRefused::Failed),
    }
    let Ok(mut buffer) = vec![in alloc; 0u8; PIECE] else {
        return Err(ReadRefused::NoMemory);
    };
    let piece = buffer.as_mut_slice();
    let mut bytes = Vec::new(alloc);
    'pieces: loop {
        let count = match shelf.read(piece) {
            Ok(count) => count,
            Err(Failed) => return Err(ReadRefused::Failed),
        };
        if count == 0 {
            return Ok(Bytes::from_vec(bytes));
        }
        if count > LONGEST_FILE - bytes.len() {
            return Err(ReadRefused::TooLong);
        }
        match bytes.extend_from_slice(&piece[..count]) {
            Ok(()) => {}
            Err(AllocError) => return Err(ReadRefused::NoMemory),
        }
    }
}

/// Writes all of the bytes. It takes no memory. `Failed` comes only where the sink failed; what was taken is then a
/// part from the front.
pub fn write_all<K: Sink>(out: &mut K, bytes: &[u8]) -> Result<(), Failed>
    ensures { WritesAll (K.taken out.old) (K.taken out.new) bytes.now result }
{
    let mut taken = 0;
    while taken < bytes.len() {
        taken += out.write(&bytes[taken..])?;
    }
    Ok(())
}
