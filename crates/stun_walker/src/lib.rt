// The attribute walker: a struct that holds a message and a place in it, and thin functions over it. What stands at a
// place is said by `step_at`, which takes a plain slice and a number. The functions are no methods: docs/PROMISES.md names `walk`, `next`,
// `moved`, `first_step` and `step_at`, and their contracts stay.
#![tactic(auto)]

ghost use Rattle.std.specs.Prelude.{◌≡◌};
ghost use Rattle.stun_walker.specs.Source.{step_of};

// What stands at a place. An enum and no Option: at `Past` a caller stops for another reason than at `Done`.
#[derive(Clone, Copy, PartialEq, Eq)]
pub enum Step {
    // Its type, its value (`len` bytes from `start` on), and the place after it and its padding.
    Attribute {
        typ: u16,
        start: usize,
        len: usize,
        next: usize,
    },
    // Its value passes the buffer's end.
    Past,
    // No attribute begins here: the end of what the length field counts, or of the buffer.
    Done,
}

#[derive(Clone, Copy)]
pub struct Walker<'a> {
    pub message: &'a [u8],
    pub at: usize,
}

// What stands at a place of a message.
#[tactic(auto, unfolding(crate::specs::Source::step_of))]
pub fn step_at(buf: &[u8], at: usize) -> Step
    ensures { result ≡ step_of buf.now at }
{
    if buf.len() < 4 {
        return Step::Done;
    }
    if buf.len() - 4 < at {
        return Step::Done;
    }
    let end = 20 + usize::from(u16::from_be_bytes([buf[2], buf[3]]));
    if end < at + 4 {
        return Step::Done;
    }
    let len = usize::from(u16::from_be_bytes([buf[at + 2], buf[at + 3]]));
    if buf.len() - (at + 4) < len {
        return Step::Past;
    }
    Step::Attribute {
        typ: u16::from_be_bytes([buf[at], buf[at + 1]]),
        start: at + 4,
        len,
        next: at + 4 + len.div_ceil(4) * 4,
    }
}

// A walker at the first attribute's place, after the header of 20 bytes.
pub fn walk<'a>(message: &'a [u8]) -> Walker<'a>
    ensures { (result.message ≡ message.entry) × (result.at ≡ 20) }
{
    Walker { message, at: 20 }
}

// What stands at the walker's place.
pub fn next<'a>(w: Walker<'a>) -> Step
    ensures { result ≡ step_of w.entry.message.now w.entry.at }
{
    step_at(w.message, w.at)
}

// The same message, at another place: that of the next attribute, as a step says it.
pub fn moved<'a>(w: Walker<'a>, at: usize) -> Walker<'a>
    ensures { (result.message ≡ w.entry.message) × (result.at ≡ at) }
{
    Walker {
        message: w.message,
        at,
    }
}

// The first step of a message. Its parameter is a plain slice, so a caller needs no walker to begin with.
pub fn first_step(message: &[u8]) -> Step
    ensures { result ≡ step_of message.now 20 }
{
    next(walk(message))
}
