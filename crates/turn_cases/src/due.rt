// Polls of a client with a relay: what falls due, in what order, and which number a poll is refused with that has much to ask for.
ghost use Rattle.std.specs.Prelude.{◌≤◌};

use super::{build, lines};
use std::io;
use stun_address::Ip;
use turn_state::{Client, Kind};

fn first_host() -> Ip {
    Ip::V4(0xC0000201)
}

// A Refresh and two channels at 540,000, three permissions at 240,000.
fn six(reliable: bool) -> Client {
    let c = build::refreshing(build::opened(reliable), 540000);
    let d = build::permitted(c, first_host(), true, 240000);
    let e = build::permitted(d, build::v6(1), true, 240000);
    let f = build::permitted(e, Ip::V4(0xC0000202), true, 240000);
    let g = build::bound(f, build::place(first_host(), 5000), 0x4000, true, 540000);
    build::bound(g, build::place(build::v6(1), 5001), 0x4001, true, 540000)
}

// A poll that is lent some of the ids.
fn lending(
    rt: &impl Print,
    label: &str,
    client: Client,
    time: u64,
    from: usize,
    to: usize,
    room: usize,
) -> io::Result<Client>
    requires { (from ≤ to) × (to ≤ 780) × (room ≤ 4096) }
{
    let ids = build::ids();
    lines::poll(rt, label, client, time, &ids[from..to], room)
}

// Refresh, permissions, channels, each under the next id; then all of them again.
pub fn renewed(rt: &impl Print) -> io::Result<()> {
    let c = six(false);
    let d = lending(rt, "six", c, 540000, 0, 72, 4096)?;
    let e = lines::poll(rt, "six-499", d, 540499, b"", 0)?;
    let f = lines::poll(rt, "six-500", e, 540500, b"", 4096)?;
    let g = lines::lost(rt, "six-lost", f)?;
    lines::poll(rt, "six-lost-poll", g, 9000000, b"", 0)?;
    Ok(())
}

pub fn renewal_ids(rt: &impl Print) -> io::Result<()> {
    let c = six(false);
    lending(rt, "six-ids-60", c, 540000, 0, 60, 4096)?;
    lending(rt, "six-ids-71", c, 540000, 0, 71, 4096)?;
    lending(rt, "six-ids-73", c, 540000, 0, 73, 4096)?;
    lines::poll(rt, "six-ids-none", c, 540000, b"", 0)?;
    lines::poll(rt, "six-ids-equal", c, 540000, &[7; 72], 4096)?;
    lines::poll(rt, "six-ids-equal-few", c, 540000, &[7; 60], 4096)?;
    lines::poll(rt, "six-ids-equal-8", c, 540000, &[7; 72], 0)?;
    Ok(())
}

pub fn renewal_rooms(rt: &impl Print) -> io::Result<()> {
    let c = six(false);
    lending(rt, "six-room-294", c, 540000, 0, 72, 294)?;
    lending(rt, "six-room-293", c, 540000, 0, 72, 293)?;
    lending(rt, "six-room-6-8", c, 540000, 0, 60, 293)?;
    lending(rt, "six-room-1-8", c, 9007199254740992, 0, 72, 293)?;
    Ok(())
}

// Permissions alone are due earlier.
pub fn renewal_times(rt: &impl Print) -> io::Result<()> {
    let c = six(false);
    lines::poll(rt, "six-239999", c, 239999, b"", 0)?;
    let d = lending(rt, "six-240000", c, 240000, 0, 36, 4096)?;
    lending(rt, "six-240000-35", c, 240000, 0, 35, 4096)?;
    lines::poll(rt, "six-539999", d, 539999, b"", 4096)?;
    lending(rt, "six-later", d, 540000, 36, 72, 4096)?;
    lending(rt, "six-later-7", d, 540000, 24, 60, 4096)?;
    Ok(())
}

pub fn renewals_by_transport(rt: &impl Print) -> io::Result<()> {
    let d = lending(rt, "six-stream", six(true), 540000, 0, 72, 4096)?;
    let e = lines::poll(rt, "six-stream-39499", d, 579499, b"", 0)?;
    let f = lines::poll(rt, "six-stream-39500", e, 579500, b"", 0)?;
    lending(
        rt,
        "six-signed",
        build::signing(six(false), true, true, true),
        540000,
        0,
        72,
        4096,
    )?;
    lines::poll(rt, "six-none-left", f, 1079999, b"", 0)?;
    Ok(())
}

// A request that is repeated comes before what is renewed; one that is not due is neither.
pub fn after_repeats(rt: &impl Print) -> io::Result<()> {
    let c = build::pending(six(false), b'a', Kind::Allocate, 1, 540000);
    let d = build::pending(c, b'b', Kind::Allocate, 1, 540001);
    let e = build::pending(d, b'c', Kind::Allocate, 6, 540000);
    lending(rt, "repeats-first", e, 540000, 0, 72, 4096)?;
    lines::poll(
        rt,
        "repeats-clash",
        e,
        540000,
        b"ddddddddddddeeeeeeeeeeeeffffffffffffgggggggggggghhhhhhhhhhhhcccccccccccc",
        4096,
    )?;
    Ok(())
}

// Closing: repeats and failures, and nothing that is renewed.
pub fn closing(rt: &impl Print) -> io::Result<()> {
    let c = build::closing(six(false));
    let d = lines::poll(rt, "closing", c, 540000, b"", 0)?;
    let e = build::pending(d, b'a', Kind::Allocate, 1, 540000);
    let f = build::pending(e, b'c', Kind::Allocate, 6, 540000);
    let g = lines::poll(rt, "closing-repeat", f, 540000, b"", 63)?;
    lines::start(rt, "closing-start", g, 540000, b"bbbbbbbbbbbb", 63)?;
    Ok(())
}

// A permission that is asked for and a channel that is not bound are not renewed, whatever time they have.
pub fn not_due(rt: &impl Print) -> io::Result<()> {
    let c = build::permitted(build::relayed(build::opened(false)), first_host(), false, 0);
    let d = build::bound(c, build::place(first_host(), 5000), 0x4000, false, 0);
    let e = lines::poll(rt, "not-due", d, 1000, b"", 0)?;
    let f = build::permitted(e, build::v6(1), true, 2000);
    lines::poll(rt, "not-due-1999", f, 1999, b"", 0)?;
    lines::poll(rt, "due-2000", f, 2000, b"aaaaaaaaaaaa", 55)?;
    lines::poll(rt, "due-2000-54", f, 2000, b"aaaaaaaaaaaa", 54)?;
    Ok(())
}

// A permission or a channel that a timeout removes is not renewed in that poll.
pub fn failures_first(rt: &impl Print) -> io::Result<()> {
    let host = first_host();
    let to = build::place(host, 5000);
    let c = build::permitted(build::relayed(build::opened(false)), host, true, 1000);
    let d = build::bound(c, to, 0x4000, true, 1000);
    lines::poll(
        rt,
        "failures-none",
        d,
        1000,
        b"aaaaaaaaaaaabbbbbbbbbbbb",
        4096,
    )?;
    let e = build::pending(d, b'p', Kind::Permission(host), 6, 1000);
    lines::poll(rt, "failures-permission", e, 1000, b"aaaaaaaaaaaa", 4096)?;
    let f = build::pending(e, b'q', Kind::ChannelBind(to, 0x4000), 6, 1000);
    lines::poll(rt, "failures-both", f, 1000, b"", 0)?;
    let g = build::pending(f, b'r', Kind::Refresh(600), 6, 1000);
    lines::poll(rt, "failures-refresh", g, 1000, b"", 0)?;
    Ok(())
}

// A Refresh and a permission due at 100, over so many requests that are not due before 500.
fn two_over(n: u8) -> Client {
    let c = build::refreshing(build::started(build::opened(false), n, 0), 100);
    build::permitted(c, first_host(), true, 100)
}

// The 63rd and 64th request, and the 64th and 65th.
pub fn last_place(rt: &impl Print) -> io::Result<()> {
    let c = two_over(62);
    lines::poll(rt, "over-62", c, 100, b"aaaaaaaaaaaabbbbbbbbbbbb", 4096)?;
    lines::poll(rt, "over-62-one-id", c, 100, b"aaaaaaaaaaaa", 4096)?;
    lines::poll(rt, "over-62-clash", c, 100, &[1; 24], 4096)?;
    let d = two_over(63);
    lines::poll(rt, "over-63", d, 100, b"aaaaaaaaaaaabbbbbbbbbbbb", 4096)?;
    lines::poll(rt, "over-63-no-id", d, 100, b"", 4096)?;
    lines::poll(rt, "over-63-one-id", d, 100, b"aaaaaaaaaaaa", 4096)?;
    lines::poll(
        rt,
        "over-63-no-room",
        d,
        100,
        b"aaaaaaaaaaaabbbbbbbbbbbb",
        0,
    )?;
    Ok(())
}

// An id that is there adds no record: 7 and not 5, unless a later one is too many; 6 before 7.
pub fn equal_at_the_end(rt: &impl Print) -> io::Result<()> {
    let d = two_over(63);
    lines::poll(rt, "equal-new", d, 100, b"aaaaaaaaaaaaaaaaaaaaaaaa", 4096)?;
    lines::poll(
        rt,
        "equal-pending",
        d,
        100,
        b"\x01\x01\x01\x01\x01\x01\x01\x01\x01\x01\x01\x01aaaaaaaaaaaa",
        4096,
    )?;
    lines::poll(rt, "equal-pending-only", d, 100, &[1; 12], 4096)?;
    let e = build::permitted(d, build::v6(1), true, 100);
    lines::poll(
        rt,
        "equal-then-full",
        e,
        100,
        b"\x01\x01\x01\x01\x01\x01\x01\x01\x01\x01\x01\x01aaaaaaaaaaaabbbbbbbbbbbb",
        4096,
    )?;
    lines::poll(rt, "equal-all", e, 100, &[1; 36], 4096)?;
    Ok(())
}

// 64 requests and a Refresh: refused, also where the requests are repeated in that poll; but a failure makes room.
pub fn full_refresh(rt: &impl Print) -> io::Result<()> {
    let c = build::refreshing(build::started(build::opened(false), 64, 0), 100);
    lines::poll(rt, "refresh-99", c, 99, b"", 0)?;
    lines::poll(rt, "refresh-100", c, 100, b"aaaaaaaaaaaa", 4096)?;
    lines::poll(rt, "refresh-500", c, 500, b"aaaaaaaaaaaa", 4096)?;
    let d = build::refreshing(build::started(build::opened(false), 63, 0), 100);
    let e = build::pending(d, b'a', Kind::Allocate, 6, 500);
    lines::poll(rt, "refresh-400-failing", e, 400, b"bbbbbbbbbbbb", 4096)?;
    lines::poll(rt, "refresh-500-failing", e, 500, b"bbbbbbbbbbbb", 4096)?;
    lines::poll(rt, "refresh-500-clash", e, 500, b"aaaaaaaaaaaa", 4096)?;
    Ok(())
}

// 32 permissions, 32 channels, and a Refresh or none.
pub fn sixty_five(rt: &impl Print) -> io::Result<()> {
    let c = build::channels(
        build::permissions(build::refreshing(build::opened(false), 1000), 32, 1000),
        32,
        1000,
    );
    lines::poll(rt, "renewals-65-999", c, 999, b"", 0)?;
    lending(rt, "renewals-65", c, 1000, 0, 780, 4096)?;
    lending(rt, "renewals-65-few", c, 1000, 0, 12, 4096)?;
    lines::poll(rt, "renewals-65-equal", c, 1000, &[7; 780], 4096)?;
    lending(rt, "renewals-65-no-room", c, 1000, 0, 780, 0)?;
    lending(rt, "renewals-65-later", c, 9007199254740991, 0, 780, 4096)?;
    lending(rt, "renewals-65-after", c, 9007199254740992, 0, 780, 4096)?;
    Ok(())
}

pub fn sixty_four(rt: &impl Print) -> io::Result<()> {
    let c = build::channels(
        build::permissions(build::relayed(build::opened(false)), 32, 1000),
        32,
        1000,
    );
    lending(rt, "renewals-64-ids-63", c, 1000, 0, 767, 4096)?;
    lending(rt, "renewals-64-room-3007", c, 1000, 0, 768, 3007)?;
    let d = lending(rt, "renewals-64", c, 1000, 0, 768, 3008)?;
    lines::start(rt, "renewals-64-start", d, 1000, &[64; 12], 4096)?;
    lines::poll(rt, "renewals-64-again", d, 1500, b"", 3008)?;
    Ok(())
}

// A close: nothing without a relay; else its id, its room, and that it is done once.
pub fn closed(rt: &impl Print) -> io::Result<()> {
    lines::close(rt, "close-unrelayed", build::opened(false), b"", 0)?;
    let c = build::started(build::relayed(build::opened(false)), 1, 1000);
    lines::close(rt, "close-no-id", c, b"", 4096)?;
    lines::close(rt, "close-11", c, &[0x61; 11], 4096)?;
    lines::close(rt, "close-pending", c, &[0; 12], 4096)?;
    lines::close(rt, "close-38", c, &[0x61; 12], 38)?;
    lines::close(rt, "close-6-8", c, b"", 38)?;
    lines::close(rt, "close-7-8", c, &[0; 12], 38)?;
    Ok(())
}

pub fn closed_once(rt: &impl Print) -> io::Result<()> {
    let c = build::started(build::relayed(build::opened(false)), 1, 1000);
    let d = lines::close(rt, "close-39", c, &[0x61; 12], 39)?;
    lines::close(rt, "close-twice", d, b"", 0)?;
    lines::start(rt, "close-start", d, 2000, &[0; 12], 4096)?;
    lines::poll(rt, "close-poll", d, 9007199254740991, b"", 0)?;
    lines::lost(rt, "close-lost", d)?;
    let e = build::signing(c, true, true, true);
    lines::close(rt, "close-signed-78", e, &[0x61; 12], 78)?;
    lines::close(rt, "close-signed", e, &[0x61; 12], 79)?;
    Ok(())
}
