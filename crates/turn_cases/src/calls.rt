// Starts, polls and losses of the transport, without a relay.
use super::{build, lines};
use std::io;
use turn_state::Client;

// Case 11.
pub fn rooms(rt: &impl Print) -> io::Result<()> {
    let c = build::opened(false);
    lines::start(rt, "start-63", c, 0, b"aaaaaaaaaaaa", 63)?;
    lines::start(rt, "start-62", c, 0, b"aaaaaaaaaaaa", 62)?;
    lines::start(rt, "start-60", c, 0, b"aaaaaaaaaaaa", 60)?;
    lines::start(rt, "start-0", c, 0, b"aaaaaaaaaaaa", 0)?;
    lines::start(rt, "start-64", c, 0, b"aaaaaaaaaaaa", 64)?;
    Ok(())
}

// With a realm, a nonce and a key, or without some of them.
pub fn signed(rt: &impl Print) -> io::Result<()> {
    let c = build::opened(false);
    let all = build::signing(c, true, true, true);
    lines::start(rt, "signed-103", all, 0, b"aaaaaaaaaaaa", 103)?;
    lines::start(rt, "signed-102", all, 0, b"aaaaaaaaaaaa", 102)?;
    lines::start(
        rt,
        "signed-no-nonce",
        build::signing(c, true, false, true),
        0,
        b"aaaaaaaaaaaa",
        4096,
    )?;
    lines::start(
        rt,
        "signed-no-realm",
        build::signing(c, false, true, false),
        0,
        b"aaaaaaaaaaaa",
        4096,
    )?;
    lines::start(
        rt,
        "signed-no-key",
        build::signing(c, true, true, false),
        0,
        b"aaaaaaaaaaaa",
        4096,
    )?;
    Ok(())
}

pub fn start_times(rt: &impl Print) -> io::Result<()> {
    let c = build::opened(false);
    let last = 9007199254740991;
    lines::start(rt, "start-last", c, last, b"aaaaaaaaaaaa", 4096)?;
    lines::start(rt, "start-after", c, last + 1, b"aaaaaaaaaaaa", 4096)?;
    lines::start(
        rt,
        "start-greatest",
        c,
        18446744073709551615,
        b"aaaaaaaaaaaa",
        4096,
    )?;
    lines::start(
        rt,
        "start-last-reliable",
        build::opened(true),
        last,
        b"aaaaaaaaaaaa",
        4096,
    )?;
    Ok(())
}

pub fn poll_times(rt: &impl Print) -> io::Result<()> {
    let c = build::opened(false);
    let last = 9007199254740991;
    lines::poll(rt, "poll-idle-last", c, last, b"", 0)?;
    lines::poll(rt, "poll-idle-after", c, last + 1, b"", 0)?;
    let s = lines::start(rt, "poll-start", c, 0, b"aaaaaaaaaaaa", 4096)?;
    lines::poll(rt, "poll-last", s, last, b"", 4096)?;
    lines::poll(rt, "poll-after", s, last + 1, b"", 4096)?;
    let t = lines::start(rt, "poll-start-last", c, last, b"aaaaaaaaaaaa", 4096)?;
    lines::poll(rt, "poll-not-due", t, last, b"", 4096)?;
    lines::poll(rt, "poll-due-after", t, last + 500, b"", 4096)?;
    Ok(())
}

// How many bytes of ids are lent where one is needed.
pub fn lent(rt: &impl Print) -> io::Result<()> {
    let c = build::opened(false);
    lines::start(rt, "ids-0", c, 0, b"", 4096)?;
    lines::start(rt, "ids-11", c, 0, b"aaaaaaaaaaa", 4096)?;
    lines::start(rt, "ids-12", c, 0, b"aaaaaaaaaaaa", 4096)?;
    lines::start(rt, "ids-13", c, 0, b"aaaaaaaaaaaab", 4096)?;
    lines::start(rt, "ids-23", c, 0, b"aaaaaaaaaaaabbbbbbbbbbb", 4096)?;
    lines::start(rt, "ids-24", c, 0, b"aaaaaaaaaaaabbbbbbbbbbbb", 4096)?;
    lines::start(rt, "ids-24-equal", c, 0, b"aaaaaaaaaaaaaaaaaaaaaaaa", 4096)?;
    Ok(())
}

// An id that is pending, lent and used, or lent and not used.
pub fn clashes(rt: &impl Print) -> io::Result<()> {
    let c = build::opened(false);
    let s = lines::start(rt, "id-a", c, 0, b"aaaaaaaaaaaa", 4096)?;
    lines::start(rt, "id-a-again", s, 0, b"aaaaaaaaaaaa", 4096)?;
    lines::start(
        rt,
        "id-a-again-spare",
        s,
        0,
        b"aaaaaaaaaaaabbbbbbbbbbbb",
        4096,
    )?;
    let t = lines::start(rt, "id-b", s, 100, b"bbbbbbbbbbbbaaaaaaaaaaaa", 4096)?;
    lines::start(rt, "id-b-again", t, 100, b"bbbbbbbbbbbb", 4096)?;
    lines::start(rt, "id-last-byte", t, 100, b"bbbbbbbbbbba", 4096)?;
    lines::poll(rt, "id-poll-unused", t, 400, b"aaaaaaaaaaaabbbbbbbbbbbb", 0)?;
    lines::poll(
        rt,
        "id-poll-repeat",
        t,
        500,
        b"aaaaaaaaaaaabbbbbbbbbbbb",
        63,
    )?;
    Ok(())
}

// An id that is no longer pending.
pub fn used_again(rt: &impl Print) -> io::Result<()> {
    let s = build::started(build::opened(true), 1, 0);
    lines::start(rt, "again-pending", s, 1, &[0; 12], 4096)?;
    let t = lines::poll(rt, "again-timeout", s, 39500, &[0; 12], 4096)?;
    let u = lines::start(rt, "again-after-timeout", t, 39500, &[0; 12], 4096)?;
    let v = lines::lost(rt, "again-lost", u)?;
    lines::start(rt, "again-after-lost", v, 40000, &[0; 12], 4096)?;
    Ok(())
}

// Two reasons at once: the lower number.
pub fn lower_number(rt: &impl Print) -> io::Result<()> {
    let c = build::opened(false);
    let after = 9007199254740992;
    let s = build::started(c, 1, 0);
    lines::start(rt, "both-1-6", c, after, b"", 4096)?;
    lines::start(rt, "both-1-7", s, after, &[0; 12], 4096)?;
    lines::start(rt, "both-1-8", c, after, b"aaaaaaaaaaaa", 62)?;
    lines::poll(rt, "both-1-8-poll", s, after, b"", 62)?;
    lines::start(rt, "both-6-8", c, 0, b"aaaaaaaaaaa", 62)?;
    lines::start(rt, "both-7-8", s, 0, &[0; 12], 62)?;
    lines::start(rt, "all-1-6-8", c, after, b"", 0)?;
    Ok(())
}

// 63 requests, then 64.
pub fn full(rt: &impl Print) -> io::Result<()> {
    let c = build::started(build::opened(false), 63, 0);
    let s = lines::start(rt, "full-64", c, 100, b"aaaaaaaaaaaa", 4096)?;
    lines::start(rt, "full-65", s, 200, b"bbbbbbbbbbbb", 4096)?;
    lines::start(rt, "full-first", s, 200, &[0; 12], 4096)?;
    lines::start(rt, "full-last", s, 200, b"aaaaaaaaaaaa", 4096)?;
    lines::start(rt, "full-5-6", s, 200, b"", 4096)?;
    lines::start(rt, "full-5-8", s, 200, b"bbbbbbbbbbbb", 0)?;
    lines::start(rt, "full-7-8", s, 200, b"aaaaaaaaaaaa", 0)?;
    lines::start(rt, "full-1-5", s, 9007199254740992, b"bbbbbbbbbbbb", 4096)?;
    Ok(())
}

// 64 repeats, 64 failures, and room again.
pub fn full_polled(rt: &impl Print) -> io::Result<()> {
    let c = build::started(build::opened(false), 64, 0);
    lines::poll(rt, "full-poll-4031", c, 500, b"", 4031)?;
    let s = lines::poll(rt, "full-poll-4032", c, 500, b"", 4032)?;
    lines::start(rt, "full-still", s, 500, b"aaaaaaaaaaaa", 4096)?;
    let r = build::started(build::opened(true), 64, 0);
    let t = lines::poll(rt, "full-timeout", r, 39500, b"", 0)?;
    lines::start(rt, "full-room-again", t, 39500, &[0; 12], 4096)?;
    Ok(())
}

// Case 8.
pub fn unanswered(rt: &impl Print) -> io::Result<()> {
    let c = build::started(build::opened(false), 1, 0);
    let d = lines::poll(rt, "udp-499", c, 499, b"", 4096)?;
    let e = lines::poll(rt, "udp-500", d, 500, b"", 4096)?;
    let f = lines::poll(rt, "udp-1499", e, 1499, b"", 4096)?;
    let g = lines::poll(rt, "udp-1500", f, 1500, b"", 4096)?;
    let h = lines::poll(rt, "udp-3499", g, 3499, b"", 4096)?;
    let i = lines::poll(rt, "udp-3500", h, 3500, b"", 4096)?;
    let j = lines::poll(rt, "udp-7499", i, 7499, b"", 4096)?;
    let k = lines::poll(rt, "udp-7500", j, 7500, b"", 4096)?;
    failing(rt, k)
}

fn failing(rt: &impl Print, c: Client) -> io::Result<()> {
    let d = lines::poll(rt, "udp-11499", c, 11499, b"", 4096)?;
    let e = lines::poll(rt, "udp-11500", d, 11500, b"", 4096)?;
    let f = lines::poll(rt, "udp-15499", e, 15499, b"", 4096)?;
    let g = lines::poll(rt, "udp-15500", f, 15500, b"", 0)?;
    lines::poll(rt, "udp-15501", g, 15501, b"", 4096)?;
    Ok(())
}

// After a failure: `start` looks at nothing.
pub fn failed(rt: &impl Print) -> io::Result<()> {
    let c = build::started(build::opened(true), 2, 0);
    let d = lines::poll(rt, "failed-two", c, 39500, b"", 0)?;
    let e = lines::start(rt, "failed-start", d, 39500, b"aaaaaaaaaaaa", 4096)?;
    lines::lost(rt, "failed-lost", e)?;
    Ok(())
}

pub fn reliable(rt: &impl Print) -> io::Result<()> {
    let c = lines::start(
        rt,
        "stream-start",
        build::opened(true),
        0,
        b"aaaaaaaaaaaa",
        4096,
    )?;
    let d = lines::poll(rt, "stream-500", c, 500, b"", 4096)?;
    let e = lines::poll(rt, "stream-39499", d, 39499, b"", 4096)?;
    let f = lines::poll(rt, "stream-39500", e, 39500, b"", 0)?;
    lines::poll(rt, "stream-39501", f, 39501, b"", 4096)?;
    Ok(())
}

// A repeated request goes last, and that order decides the next packets.
pub fn order(rt: &impl Print) -> io::Result<()> {
    let c = lines::start(
        rt,
        "order-a",
        build::opened(false),
        0,
        b"aaaaaaaaaaaa",
        4096,
    )?;
    let d = lines::start(rt, "order-b", c, 100, b"bbbbbbbbbbbb", 4096)?;
    let e = lines::poll(rt, "order-500", d, 500, b"", 4096)?;
    lines::poll(rt, "order-1500-125", e, 1500, b"", 125)?;
    let f = lines::poll(rt, "order-1500", e, 1500, b"", 126)?;
    lines::poll(rt, "order-3500", f, 3500, b"", 4096)?;
    Ok(())
}

// A late poll sends once, and the wait counts from it; a time may go back.
pub fn late(rt: &impl Print) -> io::Result<()> {
    let c = build::started(build::opened(false), 1, 1000);
    let d = lines::poll(rt, "late-back", c, 0, b"", 4096)?;
    let e = lines::poll(rt, "late-90000", d, 90000, b"", 4096)?;
    let f = lines::poll(rt, "late-91000", e, 91000, b"", 4096)?;
    lines::start(rt, "late-start-back", f, 10, b"aaaaaaaaaaaa", 4096)?;
    Ok(())
}

// A repeat is written with what is held then.
pub fn afresh(rt: &impl Print) -> io::Result<()> {
    let c = build::started(build::opened(false), 1, 0);
    let d = build::signing(c, true, true, true);
    lines::poll(rt, "afresh-102", d, 500, b"", 102)?;
    lines::poll(rt, "afresh-103", d, 500, b"", 103)?;
    Ok(())
}

// Document 01's example.
pub fn listing(rt: &impl Print) -> io::Result<()> {
    let mut out = [0u8; 4096];
    let c = build::opened(false);
    let d = lines::listed(
        rt,
        "1 start",
        c,
        turn_poll::start(c, 1000, &[0; 12], &mut out),
    )?;
    let e = lines::listed(rt, "2 poll", d, turn_poll::poll(d, 1499, b"", &mut out))?;
    let f = lines::listed(rt, "3 poll", e, turn_poll::poll(e, 1500, b"", &mut out))?;
    lines::listed(rt, "4 lost", f, Ok(turn_open::lost(f)))?;
    Ok(())
}

// Without a relay, an event each time, also where there never was a start; what is pending goes.
pub fn lost(rt: &impl Print) -> io::Result<()> {
    let c = build::opened(false);
    let d = lines::lost(rt, "lost-unstarted", c)?;
    lines::lost(rt, "lost-unstarted-again", d)?;
    let e = lines::lost(rt, "lost-started", build::started(c, 2, 0))?;
    let f = lines::lost(rt, "lost-started-again", e)?;
    let g = lines::start(rt, "lost-start", f, 1000, &[0; 12], 4096)?;
    lines::poll(rt, "lost-poll", g, 1500, b"", 4096)?;
    Ok(())
}

// With a relay, no event; what was to be renewed is no longer.
pub fn lost_relayed(rt: &impl Print) -> io::Result<()> {
    let c = build::refreshing(build::started(build::opened(false), 2, 0), 540000);
    let d = lines::lost(rt, "lost-relayed", c)?;
    let e = lines::lost(rt, "lost-relayed-again", d)?;
    lines::poll(rt, "lost-relayed-poll", e, 600000, b"", 0)?;
    Ok(())
}
