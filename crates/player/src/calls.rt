// A call of the client from a piece of a tape, and what is listed below its line: its packets and its events.
use super::shown::{Hex, OrDash, Place};
use listing::Call;
use std::{fmt, io};
use tape::Piece;
use turn_state::{Answer, Client, Event, Reason, Refusal};

// What a call comes to. No other piece comes here than those of calls. Each call's answer is the function's own, with no room
// beside it: a function zeroes its locals when it is entered, and an answer holds a client.
pub fn made(
    client: Client,
    piece: Piece,
    body: &[u8],
    ids: &[u8],
    out: &mut [u8],
) -> Result<Answer, Refusal> {
    match piece {
        Piece::Start(now) => turn_poll::start(client, now, ids, out),
        Piece::Datagram(now) => turn_handle::handle(client, now, body, ids, out),
        Piece::Send(now, peer) => turn_send::send(client, now, peer, body, ids, out),
        Piece::Poll(now) => turn_poll::poll(client, now, ids, out),
        Piece::Close => turn_close::close(client, ids, out),
        _ => Ok(turn_open::lost(client)),
    }
}

// Which call it is.
pub fn call_of(piece: Piece) -> Call {
    match piece {
        Piece::Start(_) => Call::Start,
        Piece::Datagram(_) => Call::Data,
        Piece::Send(_, _) => Call::Send,
        Piece::Poll(_) => Call::Poll,
        Piece::Close => Call::Close,
        _ => Call::Lost,
    }
}

// What the caller is told.
#[derive(Clone, Copy)]
struct Told(Event);

impl fmt::Display for Told {
    fn fmt<W: fmt::Write>(&self, f: &mut fmt::Formatter<W>) -> fmt::Result {
        match self.0 {
            Event::Allocated(relayed, mapped) => {
                let relayed = Place(relayed);
                let mapped = OrDash(mapped.map(Place));
                write!(f, "allocated {relayed} mapped {mapped}")
            }
            Event::Failed(Reason::Code(code)) => write!(f, "failed code {code}"),
            Event::Failed(Reason::Timeout) => write!(f, "failed timeout"),
            Event::Failed(Reason::NoRelayedAddress) => write!(f, "failed no-relayed-address"),
            Event::Failed(Reason::Lost) => write!(f, "failed lost"),
            Event::Data(from, start, len) => {
                let from = Place(from);
                write!(f, "data {from} {start} {len}")
            }
        }
    }
}

// The packets' bytes without the three of each head.
pub fn bare(a: &Answer) -> usize {
    a.len.saturating_sub(a.packets.saturating_mul(3))
}

// The packets, each behind its head in the output, and the events: of several all are the first.
pub fn below(rt: &impl Print, a: &Answer, out: &[u8]) -> io::Result<()> {
    let mut rest = out;
    for _ in 0..a.packets {
        let Some((head, after)) = rest.split_first_chunk::<3>() else {
            break;
        };
        let len = usize::from(u16::from_be_bytes([head[1], head[2]]));
        if after.len() < len {
            break;
        }
        let packet = Hex(&after[..len]);
        println!(rt; "  packet {packet}")?;
        rest = &after[len..];
    }
    if let Some(event) = a.event {
        let told = Told(event);
        for _ in 0..a.events {
            println!(rt; "  event {told}")?;
        }
    }
    Ok(())
}
