//! How often a reader is asked, which no clause can count.
use crate::disks::{THREE, new_server};
use crate::expecting::expect;
use mot_base::Refusal;
use mot_session::{ServeEnd, serve};
use std::alloc::Global;
use std::io;
use std::io::Read;

/// Gives the same byte without end, and keeps the count of its reads and the longest of them.
#[derive(Drop)]
struct EndlessReader {
    byte: u8,
    reads: usize,
    longest: usize,
}

impl Read for EndlessReader {
    fn read(&mut self, buf: &mut [u8]) -> io::Result<usize> {
        self.reads = self.reads.wrapping_add(1);
        self.longest = self.longest.max(buf.len());
        for place in buf.iter_mut() {
            *place = self.byte;
        }
        Ok(buf.len())
    }
}

/// How serving ends on such a reader within three reads, how many there were, and the longest of
/// them.
fn end_of_endless(alloc: Global, byte: u8) -> Result<(ServeEnd, usize, usize), Refusal> {
    let mut reader = EndlessReader {
        byte,
        reads: 0,
        longest: 0,
    };
    let mut written = Vec::new(alloc);
    let mut server = new_server(alloc, &THREE)?;
    let end = serve(alloc, &mut reader, &mut written, &mut server, 3);
    Ok((end, reader.reads, reader.longest))
}

#[test]
fn no_more_reads_than_are_given(rt: HostRuntime) {
    let fault = Some(Refusal::ReadFault);
    for (byte, lines) in [(b'x', 0), (b'\n', 3 * 4_096)] {
        let wanted = (ServeEnd { lines, fault }, 3, 4_096);
        expect(&rt, end_of_endless(rt.alloc(), byte), Ok(wanted));
    }
}
