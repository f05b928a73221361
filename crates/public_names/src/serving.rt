//! How many lines are answered.
use crate::disks::{SHORT, new_server};
use crate::expecting::expect;
use mot_base::Refusal;
use mot_server::{ServeEnd, serve};
use std::alloc::Global;
use std::io;
use std::io::Write;

/// Takes so many bytes, and then none.
#[derive(Drop)]
struct FullWriter {
    room: usize,
}

impl Write for FullWriter {
    fn write(&mut self, bytes: &[u8]) -> io::Result<usize> {
        let taken = bytes.len().min(self.room);
        self.room -= taken;
        Ok(taken)
    }

    fn flush(&mut self) -> io::Result<()> {
        Ok(())
    }
}

// How serving these lines ends where so many bytes of the replies are taken.
fn served(alloc: Global, input: &str, room: usize) -> Result<ServeEnd, Refusal> {
    let mut server = new_server(alloc, &SHORT)?;
    let mut reader = input.as_bytes();
    let mut writer = FullWriter { room };
    Ok(serve(alloc, &mut reader, &mut writer, &mut server, 100))
}

// The reply to `list` has 17 bytes, and that to an empty line 18.
#[test]
fn lines_are_counted_that_are_answered_whole(rt: HostRuntime) {
    let full = Some(Refusal::WriteFault);
    let rows = [
        ("", 99, 0, None),
        ("list\n", 99, 1, None),
        ("list", 99, 1, None),
        ("\n", 99, 1, None),
        ("list\n\nperiod 7\nlist", 99, 4, None),
        ("list\n\n", 16, 0, full),
        ("list\n\n", 17, 1, full),
        ("list\n\n", 34, 1, full),
        ("list\n\n", 35, 2, None),
    ];
    for (input, room, lines, fault) in rows {
        expect(
            &rt,
            (input, room, served(rt.alloc(), input, room)),
            (input, room, Ok(ServeEnd { lines, fault })),
        );
    }
}
