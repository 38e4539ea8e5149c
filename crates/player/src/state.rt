// The lines about a client: what it holds, and its tables in their order.
use super::shown::{Hex, Host, OrDash, Place};
use std::fmt;
use stun_address::{Address, Ip};
use turn_state::{Channels, Client, Credentials, Kind, Permissions, Request, Requests};

// A client, line by line.
#[derive(Clone, Copy)]
pub struct Lines<'a>(pub &'a Client);

impl fmt::Display for Lines<'_> {
    fn fmt<W: fmt::Write>(&self, f: &mut fmt::Formatter<W>) -> fmt::Result {
        let client = self.0;
        let held = &client.credentials;
        let username = Words(held.username.as_slice());
        let password = Words(client.password.as_slice());
        let reliable = u8::from(client.reliable);
        write!(
            f,
            "  username {username}\n  password {password}\n  reliable {reliable}\n"
        )?;
        let realm = OrDash(held.has_realm.then_some(Words(held.realm.as_slice())));
        let nonce = OrDash(held.has_nonce.then_some(Words(held.nonce.as_slice())));
        let key = OrDash(held.has_key.then_some(Hex(&held.key)));
        write!(f, "  realm {realm}\n  nonce {nonce}\n  key {key}\n")?;
        let relay = OrDash(
            client
                .has_relay
                .then_some(Place(Address::from(client.relay))),
        );
        let done = u8::from(client.done);
        let closing = u8::from(client.closing);
        write!(f, "  relay {relay}\n  done {done}\n  closing {closing}\n")?;
        let refresh = OrDash(client.has_refresh.then_some(client.refresh_at));
        let number = client.next_num;
        write!(f, "  refresh {refresh}\n  next-number {number}\n")?;
        let requests = Waiting(&client.requests, held);
        let permissions = Granted(&client.permissions);
        let channels = Bound(&client.channels);
        write!(f, "{requests}{permissions}{channels}")
    }
}

// The bytes of a text.
#[derive(Clone, Copy)]
struct Words<'a>(&'a [u8]);

impl fmt::Display for Words<'_> {
    fn fmt<W: fmt::Write>(&self, f: &mut fmt::Formatter<W>) -> fmt::Result {
        let bytes = Hex(self.0);
        write!(f, "={bytes}")
    }
}

// The pending requests, and what their packets are signed with.
#[derive(Clone, Copy)]
struct Waiting<'a>(&'a Requests, &'a Credentials);

impl fmt::Display for Waiting<'_> {
    fn fmt<W: fmt::Write>(&self, f: &mut fmt::Formatter<W>) -> fmt::Result {
        for row in &self.0.rows[..self.0.len.min(64)] {
            let id = Hex(&row.id);
            let wanted = Wanted(Kind::from(row.asked));
            let tries = row.tries;
            let next = row.next;
            let retried = u8::from(row.retried);
            let own = Own(row, self.1);
            write!(
                f,
                "  request {id} {wanted} tries {tries} next {next} retried {retried} attrs {own}\n"
            )?;
        }
        Ok(())
    }
}

// What a request asks for.
#[derive(Clone, Copy)]
struct Wanted(Kind);

impl fmt::Display for Wanted {
    fn fmt<W: fmt::Write>(&self, f: &mut fmt::Formatter<W>) -> fmt::Result {
        match self.0 {
            Kind::Allocate => write!(f, "allocate"),
            Kind::Refresh(lifetime) => write!(f, "refresh {lifetime}"),
            Kind::Permission(ip) => {
                let host = Host(ip);
                write!(f, "permission {host}")
            }
            Kind::ChannelBind(peer, number) => {
                let place = Place(peer);
                write!(f, "bind {place} {number}")
            }
        }
    }
}

// The request's own attributes: those of its packet without credentials.
#[derive(Clone, Copy)]
struct Own<'a>(&'a Request, &'a Credentials);

impl fmt::Display for Own<'_> {
    fn fmt<W: fmt::Write>(&self, f: &mut fmt::Formatter<W>) -> fmt::Result {
        let row = self.0;
        let mut bare = *self.1;
        bare.has_realm = false;
        bare.has_key = false;
        let mut out = [0u8; 128];
        let written = turn_packet::write_packet(&mut out, 0, bare, row.asked, row.id, row.under);
        let packet = written.map_or(None, |end| out.get(..end));
        let attributes = Attributes(packet.unwrap_or(&[]));
        write!(f, "{attributes}")
    }
}

// TYPE=HEX of each attribute of a packet, behind its head and the message's header, up to FINGERPRINT.
#[derive(Clone, Copy)]
struct Attributes<'a>(&'a [u8]);

impl fmt::Display for Attributes<'_> {
    fn fmt<W: fmt::Write>(&self, f: &mut fmt::Formatter<W>) -> fmt::Result {
        let mut rest = self.0.get(23..).unwrap_or(&[]);
        let mut comma = "";
        while 8 < rest.len() {
            let Some((head, after)) = rest.split_first_chunk::<4>() else {
                break;
            };
            let [high, low, long, short] = *head;
            let typ = u16::from_be_bytes([high, low]);
            let len = usize::from(u16::from_be_bytes([long, short]));
            if after.len() < len {
                break;
            }
            let value = Hex(&after[..len]);
            write!(f, "{comma}{typ:04x}={value}")?;
            comma = ",";
            rest = after.get(len.next_multiple_of(4)..).unwrap_or(&[]);
        }
        Ok(())
    }
}

#[derive(Clone, Copy)]
struct Granted<'a>(&'a Permissions);

impl fmt::Display for Granted<'_> {
    fn fmt<W: fmt::Write>(&self, f: &mut fmt::Formatter<W>) -> fmt::Result {
        for row in &self.0.rows[..self.0.len.min(32)] {
            let host = Host(Ip::from(row.host));
            let time = OrDash(row.granted.then_some(row.at));
            write!(f, "  permission {host} {time}\n")?;
        }
        Ok(())
    }
}

#[derive(Clone, Copy)]
struct Bound<'a>(&'a Channels);

impl fmt::Display for Bound<'_> {
    fn fmt<W: fmt::Write>(&self, f: &mut fmt::Formatter<W>) -> fmt::Result {
        for row in &self.0.rows[..self.0.len.min(32)] {
            let place = Place(Address::from(row.peer));
            let number = row.number;
            let bound = u8::from(row.bound);
            let time = row.at;
            write!(
                f,
                "  channel {place} {number} bound {bound} refresh {time}\n"
            )?;
        }
        Ok(())
    }
}
