// Plays the tape on standard input against the client and prints the listing of document 01.
#![tactic(auto)]

use player::Detail;

fn main(rt: HostRuntime) {
    player::play(&rt, Detail::Lines);
}
