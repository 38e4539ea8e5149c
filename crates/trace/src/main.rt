// Plays the tape on standard input against the client and prints `replay`'s listing with, below each call's line, its packets,
// its events and the client's state.
#![tactic(auto)]

use player::Detail;

fn main(rt: HostRuntime) {
    player::play(&rt, Detail::Clients);
}
