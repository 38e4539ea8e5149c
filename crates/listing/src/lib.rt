// The lines of a replay listing as document 01 has them: what each prints, its newline too, and the same as bytes (`held`).
#![tactic(auto)]

mod held;

ghost use Rattle.std.specs.Prelude.{Some};
ghost use Rattle.listing.specs.Listing.{name, due, text};

pub use held::Held;
use std::fmt;

#[derive(Clone, Copy)]
pub enum Call {
    Start,
    Data,
    Send,
    Poll,
    Lost,
    Close,
}

// What a line says. First: the name of the listing and its version. Called: a call. Bad: the place of a field of another shape,
// which ends the listing. Refused: the number of a refused opening.
#[derive(Clone, Copy)]
pub enum Line {
    First,
    Called {
        number: u64,
        call: Call,
        refusal: u32,
        events: usize,
        packets: usize,
        bytes: usize,
        deadline: Option<u64>,
    },
    Bad(u64),
    Refused(u32),
}

#[derive(Clone, Copy)]
struct Due(Option<u64>);

impl fmt::Display for Call {
    ghost output = { λ call. Some (name call) };

    fn fmt<W: fmt::Write>(&self, f: &mut fmt::Formatter<W>) -> fmt::Result {
        match self {
            Call::Start => write!(f, "start"),
            Call::Data => write!(f, "data"),
            Call::Send => write!(f, "send"),
            Call::Poll => write!(f, "poll"),
            Call::Lost => write!(f, "lost"),
            Call::Close => write!(f, "close"),
        }
    }
}

#[tactic(auto, using(crate::proofs::Numbers::decimal_is))]
impl fmt::Display for Due {
    ghost output = { λ d. Some (due d.0) };

    fn fmt<W: fmt::Write>(&self, f: &mut fmt::Formatter<W>) -> fmt::Result {
        match self.0 {
            Some(time) => write!(f, "{time}"),
            None => write!(f, "-"),
        }
    }
}

#[tactic(auto, using(crate::proofs::Numbers::decimal_is), unfolding(crate::specs::Listing::decimal))]
impl fmt::Display for Line {
    ghost output = { λ line. Some (text line) };

    fn fmt<W: fmt::Write>(&self, f: &mut fmt::Formatter<W>) -> fmt::Result {
        match *self {
            Line::First => write!(f, "turn-replay 1\n"),
            Line::Called {
                number,
                call,
                refusal,
                events,
                packets,
                bytes,
                deadline,
            } => {
                let due = Due(deadline);
                write!(
                    f,
                    "{number} {call} {refusal} {events} {packets} {bytes} {due}\n"
                )
            }
            Line::Bad(place) => write!(f, "bad {place}\n"),
            Line::Refused(number) => write!(f, "0 open {number} 0 0 0 -\n"),
        }
    }
}
