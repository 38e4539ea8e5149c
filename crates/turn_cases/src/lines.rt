// A call and the line about it: LABEL REFUSAL EVENTS PACKETS BYTES DEADLINE, then what is told, whether the lent output after the
// packets is as it was, that a refused call leaves the client with its caller, and the CRC-32 of what was written. Below it, the first
// twenty bytes of each packet, where there are at most eight.
ghost use Rattle.std.specs.Prelude.{◌≤◌};

use std::{fmt, io};
use turn_state::{Answer, Client, Event, Reason, Refusal};

// The deadline of a client, or a dash.
#[derive(Clone, Copy)]
struct Due(Option<u64>);

impl fmt::Display for Due {
    fn fmt<W: fmt::Write>(&self, f: &mut fmt::Formatter<W>) -> fmt::Result {
        match self.0 {
            Some(time) => write!(f, "{time}"),
            None => write!(f, "-"),
        }
    }
}

fn deadline_of(client: Client) -> Due {
    Due(turn_deadline::next_deadline(client))
}

// A blank and a word for what is told, if anything is.
#[derive(Clone, Copy)]
struct Told(Option<Event>);

impl fmt::Display for Told {
    fn fmt<W: fmt::Write>(&self, f: &mut fmt::Formatter<W>) -> fmt::Result {
        match self.0 {
            None => Ok(()),
            Some(Event::Failed(Reason::Timeout)) => write!(f, " timeout"),
            Some(Event::Failed(Reason::Lost)) => write!(f, " lost"),
            Some(Event::Failed(Reason::Code(_))) => write!(f, " code"),
            Some(Event::Failed(Reason::NoRelayedAddress)) => write!(f, " no-address"),
            Some(Event::Allocated(_, _)) => write!(f, " allocated"),
            Some(Event::Data(_, _, _)) => write!(f, " data"),
        }
    }
}

// The number of a call, and its answer: of a refused one nothing, and the client as it was.
fn numbered(client: Client, outcome: Result<Answer, Refusal>) -> (u32, Answer) {
    match outcome {
        Ok(answer) => (0, answer),
        Err(refusal) => (u32::from(refusal), Answer::quiet(client)),
    }
}

// The line as document 01 has it, without its end.
fn print_answer(rt: &impl Print, label: &str, number: u32, answer: &Answer) -> io::Result<()> {
    let events = answer.events;
    let packets = answer.packets;
    let bytes = answer.len.saturating_sub(packets.saturating_mul(3));
    let due = deadline_of(answer.client);
    print!(rt; "{label} {number} {events} {packets} {bytes} {due}")
}

// The line as document 01 has it.
pub fn listed(
    rt: &impl Print,
    label: &str,
    client: Client,
    outcome: Result<Answer, Refusal>,
) -> io::Result<Client> {
    let (number, answer) = numbered(client, outcome);
    print_answer(rt, label, number, &answer)?;
    println!(rt; "")?;
    Ok(answer.client)
}

// The headers of the packets.
fn print_heads(rt: &impl Print, out: &[u8], packets: usize) -> io::Result<()> {
    if 8 < packets {
        return Ok(());
    }
    let mut rest = out;
    for _ in 0..packets {
        let Some((head, after)) = rest.split_first_chunk::<3>() else {
            break;
        };
        let Some(header) = after.get(..20) else {
            break;
        };
        vectors::print_named(rt, b" ", header)?;
        let len = usize::from(u16::from_be_bytes([head[1], head[2]]));
        if after.len() < len {
            break;
        }
        rest = &after[len..];
    }
    Ok(())
}

// Makes a call that is lent so much output, and prints what is seen of it.
fn made<F: FnOnce(&mut [u8]) -> Result<Answer, Refusal>>(
    rt: &impl Print,
    label: &str,
    client: Client,
    room: usize,
    call: F,
) -> io::Result<Client>
    requires callable { F.IsAlwaysCallable call }
    requires room_in { room ≤ 4096 }
{
    let mut out = [0xAA; 4096];
    let outcome = call(&mut out[..room]);
    let (number, answer) = numbered(client, outcome);
    print_answer(rt, label, number, &answer)?;
    let told = Told(answer.event);
    let kept = if out.iter().skip(answer.len).all(|byte| *byte == 0xAA) {
        "kept"
    } else {
        "spoilt"
    };
    print!(rt; "{told} {kept}")?;
    if number != 0 {
        print!(rt; " same")?;
    }
    match out.get(..answer.len) {
        None | Some([]) => {}
        Some(written) => {
            let sum = crc32::digest(written);
            print!(rt; " {sum:08x}")?;
        }
    }
    println!(rt; "")?;
    print_heads(rt, &out, answer.packets)?;
    Ok(answer.client)
}

pub fn start(
    rt: &impl Print,
    label: &str,
    client: Client,
    time: u64,
    ids: &[u8],
    room: usize,
) -> io::Result<Client>
    requires { room ≤ 4096 }
{
    made(
        rt,
        label,
        client,
        room,
        |out| turn_poll::start(client, time, ids, out),
    )
}

pub fn poll(
    rt: &impl Print,
    label: &str,
    client: Client,
    time: u64,
    ids: &[u8],
    room: usize,
) -> io::Result<Client>
    requires { room ≤ 4096 }
{
    made(
        rt,
        label,
        client,
        room,
        |out| turn_poll::poll(client, time, ids, out),
    )
}

pub fn close(
    rt: &impl Print,
    label: &str,
    client: Client,
    ids: &[u8],
    room: usize,
) -> io::Result<Client>
    requires { room ≤ 4096 }
{
    made(
        rt,
        label,
        client,
        room,
        |out| turn_close::close(client, ids, out),
    )
}

pub fn lost(rt: &impl Print, label: &str, client: Client) -> io::Result<Client> {
    let answer = turn_open::lost(client);
    print_answer(rt, label, 0, &answer)?;
    let told = Told(answer.event);
    println!(rt; "{told}")?;
    Ok(answer.client)
}

// LABEL REFUSAL, how long the held username and password are, and the deadline.
pub fn open(
    rt: &impl Print,
    label: &str,
    username: &[u8],
    password: &[u8],
    reliable: bool,
) -> io::Result<Client> {
    let (number, client) = match turn_open::open(username, password, reliable) {
        Ok(client) => (0, client),
        Err(refusal) => (u32::from(refusal), turn_open::unopened()),
    };
    let first = client.credentials.username.len;
    let second = client.password.len;
    let due = deadline_of(client);
    println!(rt; "{label} {number} {first} {second} {due}")?;
    Ok(client)
}
