// Reads, tried again where a signal interrupted them.
ghost use Rattle.std.specs.Prelude.{◌≤◌, IfOk, length};

use crate::fault::Fault;
use crate::named;
use std::alloc::Global;
use std::io;
use std::io::{ErrorKind, Read};

// One read: how many bytes it brought, 0 at the end. A proved loop has to end, and nothing says that a file does, so it
// counts its turns up to a number that no run uses up.
pub fn read_some<R: io::Read>(from: &mut R, buf: &mut [u8]) -> io::Result<usize>
    ensures { IfOk result (λ n. n ≤ length buf.new) }
{
    for _ in 0..u64::MAX {
        match from.read(buf) {
            Err(e) if e.kind() == ErrorKind::Interrupted => {}
            done => return done,
        }
    }
    Err(io::Error::from(ErrorKind::Interrupted))
}

// So many bytes, and no more, are read into room for all.
const AT_ONCE: u64 = 65536;

// Room for the largest packet of a pipe.
const PACKET: usize = 4096;

// All that reads bring, by no more than a packet at a time. Not inlined, so that its room is off the stack of others.
#[inline(never)]
fn read_by_packets<R: io::Read>(alloc: Global, from: &mut R) -> io::Result<Vec<u8>> {
    let mut all = Vec::with_capacity(alloc, PACKET)?;
    let mut room = [0u8; PACKET];
    for _ in 0..u64::MAX {
        let n = read_some(from, &mut room)?;
        if n == 0 {
            return Ok(all);
        }
        all.extend_from_slice(&room[..n])?;
    }
    Err(io::Error::from(ErrorKind::Interrupted))
}

// There is room from the first read on, for all or for a packet at a time: what a read of some pipes has no room for is
// lost. A file need not be as long as the most that is wanted, for which memory may not have room.
fn read_to_end(rt: &HostRuntime, name: &[u8], most: u64) -> io::Result<Vec<u8>> {
    if AT_ONCE < most {
        let mut file = named::open_read(rt, name)?.take(most);
        return read_by_packets(rt.alloc(), &mut file);
    }
    let mut all = Vec::with_capacity(rt.alloc(), most as usize)?;
    named::open_read(rt, name)?
        .take(most)
        .read_to_end(&mut all)?;
    Ok(all)
}

// A file to its end, or as many of its bytes as are wanted at the most.
pub fn read_file(rt: &HostRuntime, name: &[u8], most: u64) -> Result<Vec<u8>, Fault> {
    read_to_end(rt, name, most).map_err(|e| Fault::of_file(rt.alloc(), name, e))
}

#[cfg(test)]
mod tests {
    use super::*;
    use std::test::Fail;

    #[test]
    fn reads_the_most_that_is_wanted(rt: HostRuntime) -> Result<(), Fail> {
        let zeros = read_file(&rt, b"/dev/zero", 3)?;
        assert_eq!(rt; zeros.as_slice(), [0, 0, 0].as_slice());
        Ok(())
    }

    // However many bytes are wanted at the most: no memory has room for the most of all.
    #[test]
    fn reads_to_the_end(rt: HostRuntime) -> Result<(), Fail> {
        let few = read_file(&rt, b"/proc/self/cmdline", 4096)?;
        assert!(rt; !few.is_empty());
        let all = read_file(&rt, b"/proc/self/cmdline", u64::MAX)?;
        assert_eq!(rt; all.as_slice(), few.as_slice());
        let zeros = read_file(&rt, b"/dev/zero", 70000)?;
        assert_eq!(rt; zeros.len(), 70000);
        Ok(())
    }
}
