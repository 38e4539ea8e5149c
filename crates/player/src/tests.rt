// Whether a whole tape's play tells of a write that fails.
use super::{Detail, play_whole, play_whole_or_stop};
use std::alloc::Allocator;
use std::cell::Cell;
use std::fmt::Display;
use std::io;
use std::io::{BufRead, Error, ErrorKind, Input, Lines};

// A runtime whose standard output takes so many writes, and is full then; how many were tried?
#[derive(Drop)]
struct Narrow<'a, R> {
    rt: &'a R,
    room: u32,
    tried: Cell<u32>,
}

impl<'a, R> Narrow<'a, R> {
    fn new(rt: &'a R, room: u32) -> Narrow<'a, R> {
        Narrow {
            rt,
            room,
            tried: Cell::new(0),
        }
    }

    fn write(&self) -> io::Result<()> {
        let tried = self.tried.get();
        self.tried.set(tried.saturating_add(1));
        if self.room <= tried {
            return Err(Error::from(ErrorKind::StorageFull));
        }
        Ok(())
    }
}

impl<R: Print> Print for Narrow<'_, R> {
    fn print<D: Display + Drop>(&self, value: D) -> io::Result<()> {
        self.write()?;
        self.rt.print(value)
    }

    fn println<D: Display + Drop>(&self, value: D) -> io::Result<()> {
        self.write()?;
        self.rt.println(value)
    }

    fn write_all(&self, bytes: &[u8]) -> io::Result<()> {
        self.write()?;
        self.rt.write_all(bytes)
    }
}

// Whoever reads standard input finds a byte more there. A whole tape is not read from it.
impl<R> Input for Narrow<'_, R> {
    type Reader = &'static [u8];

    fn read_line<A: Allocator + Clone>(&self, buf: &mut String<A>) -> io::Result<usize> {
        self.reader().read_line(buf)
    }

    fn lines<A: Allocator>(&self, alloc: A) -> Lines<&'static [u8], A> {
        self.reader().lines(alloc)
    }

    fn reader(&self) -> &'static [u8] {
        b"\0"
    }
}

// An opening, a call, and a field whose last byte is behind the tape's end, and so bad. Each line is a write, and so are the
// call's event and the client.
#[test]
fn tells_of_a_full_output(rt: HostRuntime) {
    let tape = *b"\x01\0\x01a\x02\0\x01b\x03\0\x01\0\x14\0\0\x14\0\0";
    for (detail, needed) in [(Detail::Lines, 3), (Detail::Calls, 5)] {
        for writes in 0..8u32 {
            let tried = needed.min(writes.saturating_add(1));
            let error = (writes < needed).then_some(ErrorKind::StorageFull);
            let mut room = tape;
            let narrow = Narrow::new(&rt, writes);
            let played = play_whole(&narrow, detail, &mut room, 17);
            assert_eq!(rt;
                played.err().map(|e| e.kind()),
                error,
                "{writes} writes of {needed}"
            );
            assert_eq!(rt; narrow.tried.get(), tried, "{writes} writes of {needed}");
            let mut room = tape;
            let narrow = Narrow::new(&rt, writes);
            play_whole_or_stop(&narrow, detail, &mut room, 17);
            assert_eq!(rt; narrow.tried.get(), tried, "{writes} writes of {needed}");
        }
    }
}
