// A digest of a message that comes in parts, for any digest of the family.
ghost use Rattle.std.specs.Prelude.{◌≡◌, ℕ, List};
ghost use Rattle.digest.specs.Bytes.{ordered};
ghost use Rattle.digest.specs.Digest.{Digest, digest, result as «result_of»};
ghost use Rattle.digest.specs.Running.{fresh, fed, finished};
ghost use Rattle.digest.specs.View.{view};

use crate::{laid, last_block};
use std::marker::PhantomData;

// What makes a digest of the family: its step, on the words W.
pub trait Compression<W> {
    // Its result, an array of bytes.
    type Output;

    // The digest that it is.
    ghost parameters: { Digest };

    ghost words: { W → List ℕ };

    ghost bytes: { Self.Output → List ℕ };

    // Does a number have its high byte first?
    fn is_big() -> bool
        ensures { ordered result ≡ parameters.order };

    // Before the first block.
    fn start() -> W
        ensures { words result ≡ parameters.start };

    // After one more block.
    fn step(h: W, block: &[u8; 64]) -> W
        ensures { words result ≡ parameters.step (words h) block.now };

    // The words as bytes.
    fn result(h: W) -> Self::Output
        ensures { bytes result ≡ «result_of» parameters (words h) };

    ghost blocks_of_64: { parameters.block ≡ 64 };
}

// The words after the whole blocks so far, how many bytes came, modulo 2^64, and the bytes that wait
// for their block to be full, with zeros after them.
#[derive(Clone, Copy)]
pub struct Hasher<C, W> {
    pub words: W,
    pub count: u64,
    pub tail: [u8; 64],
    pub of: PhantomData<C>,
}

impl<W: Copy, C: Compression<W>> Hasher<C, W> {
    // Before the first part.
    pub fn new() -> Self
        ensures { view C.words result ≡ fresh C.parameters }
    {
        Self {
            words: C::start(),
            count: 0,
            tail: [0; 64],
            of: PhantomData,
        }
    }

    // One more part of the message.
    pub fn update(self, part: &[u8]) -> Self
        ensures { view C.words result ≡ fed C.parameters (view C.words self) part.now }
    {
        let at = (self.count % 64) as usize;
        let room = 64 - at;
        let count = self.count.wrapping_add(part.len() as u64);
        if part.len() < room {
            let tail = laid(self.tail, at, part);
            return Self {
                words: self.words,
                count,
                tail,
                of: PhantomData,
            };
        }
        let (front, behind) = part.split_at(room);
        let first = laid(self.tail, at, front);
        let mut words = C::step(self.words, &first);
        let (blocks, rest) = behind.as_chunks::<64>();
        for block in blocks {
            let next = C::step(words, block);
            words = next;
        }
        let tail = laid([0; 64], 0, rest);
        Self {
            words,
            count,
            tail,
            of: PhantomData,
        }
    }

    // The digest of all that came.
    pub fn finish(self) -> C::Output
        ensures { C.bytes result ≡ finished C.parameters (view C.words self) }
    {
        let at = (self.count % 64) as usize;
        let marked = laid(self.tail, at, &[0x80]);
        let fits = at < 56;
        if fits {
            let last = last_block(marked, self.count, C::is_big());
            return C::result(C::step(self.words, &last));
        }
        let words = C::step(self.words, &marked);
        let last = last_block([0; 64], self.count, C::is_big());
        C::result(C::step(words, &last))
    }

    // The digest of a message in one part.
    pub fn digest(m: &[u8]) -> C::Output
        ensures { C.bytes result ≡ digest C.parameters m.now }
    {
        Self::new().update(m).finish()
    }
}
