// Opening: how long the texts may be, whether they are well-formed, and what client a refused opening hands back.
use super::{build, lines};
use std::io;

pub fn texts(rt: &impl Print) -> io::Result<()> {
    let a = [b'a'; 509];
    let b = [b'b'; 257];
    lines::open(rt, "open-508", &a[0..508], b"b", false)?;
    lines::open(rt, "open-509", &a[0..509], b"b", false)?;
    lines::open(rt, "open-256", b"a", &b[0..256], false)?;
    lines::open(rt, "open-257", b"a", &b[0..257], false)?;
    lines::open(rt, "open-508-256", &a[0..508], &b[0..256], true)?;
    lines::open(rt, "open-509-257", &a[0..509], &b[0..257], true)?;
    lines::open(rt, "open-empty", b"", b"", false)?;
    Ok(())
}

pub fn ill_formed(rt: &impl Print) -> io::Result<()> {
    lines::open(rt, "open-name-c3", &[0xC3], b"b", false)?;
    lines::open(rt, "open-word-c3", b"a", &[0xC3], false)?;
    lines::open(rt, "open-both-c3", &[0xC3], &[0xC3], false)?;
    lines::open(rt, "open-name-c3-a9", &[0xC3, 0xA9], b"b", false)?;
    lines::open(rt, "open-word-c3-a9", b"a", &[0xC3, 0xA9], false)?;
    Ok(())
}

pub fn two_before_three(rt: &impl Print) -> io::Result<()> {
    let a = [0xC3u8; 509];
    let b = [0xC3u8; 257];
    lines::open(rt, "open-508-c3", &a[0..508], b"b", false)?;
    lines::open(rt, "open-509-c3", &a[0..509], b"b", false)?;
    lines::open(rt, "open-256-c3", b"a", &b[0..256], false)?;
    lines::open(rt, "open-257-c3", b"a", &b[0..257], false)?;
    lines::open(rt, "open-c3-257-c3", &[0xC3], &b[0..257], false)?;
    lines::open(rt, "open-509-c3-c3", &a[0..509], &[0xC3], false)?;
    Ok(())
}

// Refused with 2 or with 3, and not: asked for over a reliable transport.
pub fn refused(rt: &impl Print) -> io::Result<()> {
    let a = [b'a'; 509];
    let two = lines::open(rt, "open-refused-2", &a[0..509], b"b", true)?;
    lines::start(rt, "start-refused-2", two, 0, b"aaaaaaaaaaaa", 4096)?;
    let three = lines::open(rt, "open-refused-3", b"a", &[0xC3], true)?;
    lines::start(rt, "start-refused-3", three, 0, b"aaaaaaaaaaaa", 4096)?;
    let none = lines::open(rt, "open-reliable", &a[0..508], b"b", true)?;
    lines::start(rt, "start-reliable", none, 0, b"aaaaaaaaaaaa", 4096)?;
    Ok(())
}

// The same, once a realm and a nonce are held, so that the username is sent.
pub fn named(rt: &impl Print) -> io::Result<()> {
    let a = [b'a'; 509];
    let two = lines::open(rt, "open-named-2", &a[0..509], b"b", true)?;
    lines::start(
        rt,
        "start-named-2",
        build::signing(two, true, true, false),
        0,
        b"aaaaaaaaaaaa",
        4096,
    )?;
    let none = lines::open(rt, "open-named-0", &a[0..508], b"b", true)?;
    lines::start(
        rt,
        "start-named-0",
        build::signing(none, true, true, false),
        0,
        b"aaaaaaaaaaaa",
        4096,
    )?;
    Ok(())
}
