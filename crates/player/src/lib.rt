// What `replay`, `trace` and `turn_talks` share: a tape is played against the client, and its listing printed.
#![tactic(auto)]

mod calls;
mod shown;
mod state;
#[cfg(test)]
mod tests;

ghost use Rattle.std.specs.Prelude.{◌≤◌, length};

use listing::{Call, Line};
use std::io;
use std::io::{Input, Read};
use tape::{Front, Piece, Stage};
use turn_state::{Answer, Client, Refusal};

// What is listed besides the lines: nothing; below each call's line its packets and events, and the client at the end; or the
// client below each line too.
#[derive(Clone, Copy, PartialEq, Eq)]
pub enum Detail {
    Lines,
    Calls,
    Clients,
}

// The bytes that a field carries. Fixed memory, as in the client: a play cannot run short of it.
#[derive(Clone, Copy)]
struct Carried {
    bytes: [u8; 4096],
    len: usize,
}

impl Carried {
    fn none() -> Carried {
        Carried {
            bytes: [0; 4096],
            len: 0,
        }
    }

    // As many as fit.
    fn set(&mut self, bytes: &[u8]) {
        let len = bytes.len().min(4096);
        self.bytes[..len].copy_from_slice(&bytes[..len]);
        self.len = len;
    }

    fn as_slice(&self) -> &[u8] {
        &self.bytes[..self.len.min(4096)]
    }
}

// What a tape has come to: the client, the stage of the tape, or none once the opening was refused, the last call's number, and
// what was lent: the opening's texts and the ids for the next call.
#[derive(Drop)]
struct Session {
    client: Client,
    stage: Option<Stage>,
    number: u64,
    username: Carried,
    password: Carried,
    ids: Carried,
    detail: Detail,
}

impl Session {
    fn new(detail: Detail) -> Session {
        Session {
            client: turn_open::unopened(),
            stage: Some(Stage::NeedsUsername),
            number: 0,
            username: Carried::none(),
            password: Carried::none(),
            ids: Carried::none(),
            detail,
        }
    }

    // Plays a piece at a stage, whose bytes are the body.
    fn play(&mut self, rt: &impl Print, stage: Stage, piece: Piece, body: &[u8]) -> io::Result<()> {
        self.stage = Some(stage.later());
        match piece {
            Piece::Username => self.username.set(body),
            Piece::Password => self.password.set(body),
            Piece::Ids => self.ids.set(body),
            Piece::Transport(reliable) => return self.open(rt, reliable),
            _ => return self.call(rt, piece, body),
        }
        Ok(())
    }

    fn open(&mut self, rt: &impl Print, reliable: bool) -> io::Result<()> {
        match turn_open::open(self.username.as_slice(), self.password.as_slice(), reliable) {
            Ok(client) => self.client = client,
            Err(refusal) => {
                self.stage = None;
                print(rt, Line::Refused(u32::from(refusal)))?;
                if self.detail != Detail::Lines {
                    self.list(rt)?;
                }
            }
        }
        Ok(())
    }

    // Makes the call that a piece asks for. The room for its packets is here, so that the other pieces do not pay for it.
    fn call(&mut self, rt: &impl Print, piece: Piece, body: &[u8]) -> io::Result<()> {
        let mut out = [0u8; 65536];
        let made = calls::made(self.client, piece, body, self.ids.as_slice(), &mut out);
        self.called(rt, calls::call_of(piece), &made, &out)
    }

    // Lists a call, and what is seen of it. A refused call has told and written nothing, and leaves the client.
    fn called(
        &mut self,
        rt: &impl Print,
        call: Call,
        made: &Result<Answer, Refusal>,
        out: &[u8],
    ) -> io::Result<()> {
        let (refusal, events, packets, bytes) = match made {
            Ok(answer) => {
                self.client = answer.client;
                (0, answer.events, answer.packets, calls::bare(answer))
            }
            Err(refusal) => (u32::from(*refusal), 0, 0, 0),
        };
        self.ids.len = 0;
        self.number = self.number.wrapping_add(1);
        let line = Line::Called {
            number: self.number,
            call,
            refusal,
            events,
            packets,
            bytes,
            deadline: turn_deadline::next_deadline(self.client),
        };
        print(rt, line)?;
        if let Ok(answer) = made
            && self.detail != Detail::Lines
        {
            calls::below(rt, answer, out)?;
        }
        if self.detail == Detail::Clients {
            self.list(rt)?;
        }
        Ok(())
    }

    fn list(&self, rt: &impl Print) -> io::Result<()> {
        let lines = state::Lines(&self.client);
        print!(rt; "{lines}")
    }
}

// Writes a line by the bytes that `listing` proves whole. Of `print!` a contract says nothing where the formatting ends early.
fn print(rt: &impl Print, line: Line) -> io::Result<()> {
    rt.write_all(line.held().as_slice())
}

// Plays the tape on standard input as it comes. Where standard output cannot be written, no more is played.
pub fn play(rt: &(impl Input + Print), detail: Detail) {
    let mut window = [0u8; 8192];
    let _ = run(rt, detail, &mut window, 0, false);
}

// Plays a whole tape, the first `len` bytes of the room. The error is that of standard output; no more is played after it.
pub fn play_whole(
    rt: &(impl Input + Print),
    detail: Detail,
    room: &mut [u8],
    len: usize,
) -> io::Result<()> {
    run(rt, detail, room, len, true)
}

// Plays a whole tape likewise, for who goes on in either case: it cannot fail, and does not tell whether it stopped early.
pub fn play_whole_or_stop(rt: &(impl Input + Print), detail: Detail, room: &mut [u8], len: usize) {
    let _ = run(rt, detail, room, len, true);
}

// Plays the tape of which the window holds the first `have` bytes; unless that is all, standard input brings more. Nothing is
// read before the first line is printed.
fn run(
    rt: &(impl Input + Print),
    detail: Detail,
    window: &mut [u8],
    have: usize,
    all: bool,
) -> io::Result<()> {
    print(rt, Line::First)?;
    let mut session = Session::new(detail);
    let bad = fields(rt, &mut session, window, have, all)?;
    if detail == Detail::Calls && 0 < session.number {
        session.list(rt)?;
    }
    if let Some(place) = bad {
        print(rt, Line::Bad(place))?;
    }
    Ok(())
}

// Plays the fields; the answer is the place of a bad one. A proved loop has to end: this one goes up to a number that no input
// reaches.
fn fields(
    rt: &(impl Input + Print),
    session: &mut Session,
    window: &mut [u8],
    have: usize,
    all: bool,
) -> io::Result<Option<u64>> {
    let mut ended = all;
    let mut from = 0;
    let mut to = have.min(window.len());
    let mut place: u64 = 0;
    for _turn in 0..u64::MAX {
        let Some(stage) = session.stage else {
            break;
        };
        let hand = &window[from..to];
        match tape::next(stage, hand, ended) {
            // What a field carries ends with it.
            Front::Field {
                piece,
                size,
                start,
                ..
            } => {
                session.play(rt, stage, piece, &hand[start..size])?;
                from += size;
                place = place.wrapping_add(size as u64);
            }
            Front::More => {
                let left = to - from;
                to = refilled(rt, window, from, to);
                from = 0;
                ended = to <= left;
            }
            Front::End => break,
            Front::Bad => return Ok(Some(place)),
        }
    }
    Ok(None)
}

// Moves the bytes from `from` to `to` to the window's front and reads once behind them; the answer is where the bytes end. A read
// that fails is the end of the input.
fn refilled(rt: &impl Input, window: &mut [u8], from: usize, to: usize) -> usize
    requires { (from ≤ to) × (to ≤ length window.old) }
    ensures { result ≤ length window.new }
{
    window.copy_within(from..to, 0);
    let left = to - from;
    left + rt.reader().read(&mut window[left..]).unwrap_or(0)
}
