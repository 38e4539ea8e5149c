// How values stand in a listing.
use std::fmt;
use stun_address::{Address, Ip};

// Bytes in hexadecimal.
#[derive(Clone, Copy)]
pub struct Hex<'a>(pub &'a [u8]);

// A value, or a dash.
#[derive(Clone, Copy)]
pub struct OrDash<T>(pub Option<T>);

// FAMILY IP.
#[derive(Clone, Copy)]
pub struct Host(pub Ip);

// FAMILY IP PORT.
#[derive(Clone, Copy)]
pub struct Place(pub Address);

impl fmt::Display for Hex<'_> {
    fn fmt<W: fmt::Write>(&self, f: &mut fmt::Formatter<W>) -> fmt::Result {
        for byte in self.0 {
            write!(f, "{byte:02x}")?;
        }
        Ok(())
    }
}

impl<T: fmt::Display> fmt::Display for OrDash<T> {
    fn fmt<W: fmt::Write>(&self, f: &mut fmt::Formatter<W>) -> fmt::Result {
        match &self.0 {
            Some(value) => write!(f, "{value}"),
            None => write!(f, "-"),
        }
    }
}

impl fmt::Display for Host {
    fn fmt<W: fmt::Write>(&self, f: &mut fmt::Formatter<W>) -> fmt::Result {
        match self.0 {
            Ip::V4(number) => write!(f, "1 {number:08x}"),
            Ip::V6(high, low) => write!(f, "2 {high:016x}{low:016x}"),
        }
    }
}

impl fmt::Display for Place {
    fn fmt<W: fmt::Write>(&self, f: &mut fmt::Formatter<W>) -> fmt::Result {
        let host = Host(self.0.ip);
        let port = self.0.port;
        write!(f, "{host} {port}")
    }
}
