// Plays tapes against the client and prints what it answers. Standard input has the tapes one after another, each behind its length
// as four bytes; a tape that is cut, or longer than 65,536 bytes, ends the run. For each tape: `tape N`, then `trace`'s listing, but
// that the client's state stands below the last call only. The file `stdout` is what the Rust original answers to the same tapes.
#![tactic(auto)]

use player::Detail;
use std::io;
use std::io::{Input, Read};

// Reads a tape into the room and plays it; was there one?
fn next_tape(rt: &(impl Input + Print), number: u64, room: &mut [u8]) -> io::Result<bool> {
    let mut head = [0u8; 4];
    if rt.reader().read_exact(&mut head).is_err() {
        return Ok(false);
    }
    let len = u32::from_be_bytes(head) as usize;
    if room.len() < len {
        return Ok(false);
    }
    if rt.reader().read_exact(&mut room[..len]).is_err() {
        return Ok(false);
    }
    println!(rt; "tape {number}")?;
    player::play_whole_or_stop(rt, Detail::Calls, room, len);
    Ok(true)
}

// A proved loop has to end: this one counts the tapes up to a number that no input reaches.
fn main(rt: HostRuntime) -> io::Result<()> {
    let mut room = [0u8; 65536];
    for number in 1..u64::MAX {
        if !next_tape(&rt, number, &mut room)? {
            break;
        }
    }
    Ok(())
}
