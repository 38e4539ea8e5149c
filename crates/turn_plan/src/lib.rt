// What a poll comes to, from the tables alone, before an id is drawn and a byte written: `poll` of turn.rs without its packets. Due
// requests are sent again or fail, in the order in which they stood at entry; then, unless the client is closing, the allocation,
// permissions and channels that fall due are to be asked for again. And what a permission's success comes to: every unbound channel
// of its IP is to be bound.
#![tactic(auto)]

ghost use Rattle.std.specs.Prelude.{◌≡◌, map, length, cond, ◌+◌, ◌-◌, ◌*◌, ◌^◌, ◌≤◌, ◌<◌, min};
ghost use Rattle.turn_state.specs.Maps.{each};
ghost use Rattle.turn_state.specs.Source.{RTO};
ghost use Rattle.turn_state.specs.View.{view, ip_in, address_in, txn_in, TidyRequest};
ghost use Rattle.turn_plan.specs.Plan.{failed, sent_again, plan_due, asking, plan_refresh, plan_perm, plan_chan, planned_from, plan_bind, plan_binds, entry};
ghost use Rattle.turn_plan.specs.Draft.{inserted, plan_in, id_bytes as «bytes_of», Drafts, From, Begins, Plans, Binds};

use stun_address::{Address, Ip};
use turn_open::no_requests;
use turn_state::{
    Asked, Asks, Channels, Client, Host, Kind, Permission, Permissions, Place, Request, Requests,
};
use turn_tables::{
    Id, due_channels, due_permissions, due_requests, find_channel, find_permission, find_request,
    push_request, put_channel, put_permission, put_request, remove_channel, remove_permission,
    remove_request, waiting_channels,
};

// The tables as the call leaves them but for what is still to be asked for; the requests that are sent again, in order; what is to be
// asked for; how many allocations timed out; when the allocation is to be refreshed; and whether the first allocation has been
// answered.
#[derive(Clone, Copy)]
pub struct Draft {
    pub requests: Requests,
    pub permissions: Permissions,
    pub channels: Channels,
    pub sends: Requests,
    pub asks: Asks,
    pub timeouts: usize,
    pub refresh: Option<u64>,
    pub done: bool,
}

// A request under its id: over the one that is there, or last.
#[tactic(auto, unfolding(crate::specs::Draft::inserted))]
pub fn insert_request(t: Requests, row: Request) -> Requests
    ensures { result ≡ inserted t row }
{
    match find_request(t, row.id) {
        Some(i) => put_request(t, i, row),
        None => push_request(t, row),
    }
}

// When a request that is made now is due. No sum wraps: a time that no call has stops at the greatest number.
pub fn first_next(now: u64, reliable: bool) -> u64
    ensures value { result ≡ min (now + cond reliable 39500 500) 18446744073709551615 }
    ensures of_a_call { now ≤ 9007199254740991 → result ≡ now + cond reliable 39500 500 }
{
    now.saturating_add(if reliable { 39500 } else { 500 })
}

// The latest time of a call.
pub const LATEST: u64 = 9007199254740991;

const LONGEST_WAIT: u64 = 4000;

// How long to wait after a request that had been sent `tries` times was sent again: 1, 2 and 4 seconds, then 4 again.
fn wait(tries: u32) -> u64
    ensures { (result ≡ RTO * min (2 ^ (tries + 1 - 1)) 8) × (result ≤ 4000) }
{
    match tries {
        0 => 500,
        1 => 1000,
        2 => 2000,
        _ => LONGEST_WAIT,
    }
}

// The plan of a poll. A time above the limit plans nothing.
#[tactic(auto, using(crate::proofs::Drafting::plans_nothing, crate::proofs::Drafting::plans_all))]
pub fn plan(client: &Client, now: u64) -> Draft
    ensures { Plans client.now now result }
{
    let draft = Draft::of(client);
    if LATEST < now {
        return draft;
    }
    draft.run(now, client.reliable, client.closing)
}

// By value: behind a `&mut` a proof does not know the lengths of the tables' arrays.
impl Draft {
    // What a start comes to: nothing but what is to be asked for.
    #[tactic(auto, using(crate::proofs::Drafting::asked_first))]
    pub fn asking(client: &Client, kind: Kind) -> Draft
        ensures { From client.now (asking kind (entry (view client.now))) 0 1 result }
    {
        Draft::of(client).ask(kind)
    }

    // What a permission's success comes to, from the tables in which its request is gone and it is granted: every unbound channel of
    // its IP is to be bound.
    #[tactic(auto, using(crate::proofs::Drafting::binds_given))]
    pub fn binding(client: &Client, requests: Requests, permissions: Permissions, ip: Ip) -> Draft
        ensures { Binds client.now requests permissions ip result }
    {
        let draft = Draft {
            requests,
            permissions,
            ..Draft::of(client)
        };
        draft.bind_waiting(ip)
    }

    // What a call begins with: the client's tables, and nothing to do.
    fn of(client: &Client) -> Draft
        ensures begins { Begins client.now result }
        ensures channels { result.channels ≡ client.now.channels }
    {
        Draft {
            requests: client.requests,
            permissions: client.permissions,
            channels: client.channels,
            sends: no_requests(),
            asks: Asks {
                rows: [Asked::from(Kind::Allocate); 65],
                len: 0,
            },
            timeouts: 0,
            refresh: client.has_refresh.then_some(client.refresh_at),
            done: client.done,
        }
    }

    // Something to be asked for, last.
    fn ask(mut self, kind: Kind) -> Draft
        requires { self.asks.len < 65 }
        ensures { Drafts (Unit {0}) 0 1 self (asking kind (plan_in self)) result }
    {
        self.asks.rows[self.asks.len] = Asked::from(kind);
        self.asks.len += 1;
        self
    }

    // A request that timed out: what `on_failure` does.
    fn fail(self, kind: Kind) -> Draft
        requires { self.timeouts ≤ 64 }
        ensures { Drafts (Unit {0}) 1 0 self (failed kind (plan_in self)) result }
    {
        match kind {
            Kind::Allocate => Draft {
                done: true,
                timeouts: self.timeouts + 1,
                ..self
            },
            Kind::Refresh(_) => self,
            Kind::Permission(ip) => match find_permission(self.permissions, ip) {
                Some(i) => Draft {
                    permissions: remove_permission(self.permissions, i),
                    ..self
                },
                None => self,
            },
            Kind::ChannelBind(peer, _) => match find_channel(self.channels, peer) {
                Some(i) => Draft {
                    channels: remove_channel(self.channels, i),
                    ..self
                },
                None => self,
            },
        }
    }

    // A request that is sent again, once it is out of its table: it goes last.
    fn again(self, row: Request, now: u64) -> Draft
        requires { (self.requests.len < 64) × (self.sends.len < 64) × (row.tries < 6) × (now ≤ 9007199254740991) }
        ensures { Drafts (TidyRequest row) 1 0 self (sent_again now (txn_in row) (plan_in self)) result }
    {
        let later = Request {
            tries: row.tries + 1,
            next: now + wait(row.tries),
            ..row
        };
        Draft {
            requests: insert_request(self.requests, later),
            sends: push_request(self.sends, row),
            ..self
        }
    }

    // One request that was due at entry.
    #[tactic(auto, using(crate::proofs::Drafting::due_none, turn_tables::proofs::Laws::found_txn))]
    fn due_one(self, id: [u8; 12], now: u64, reliable: bool) -> Draft
        requires { (self.sends.len < 64) × (self.timeouts ≤ 64) × (now ≤ 9007199254740991) }
        ensures { Drafts (Unit {0}) 1 0 self (plan_due now reliable id (plan_in self)) result }
    {
        let Some(i) = find_request(self.requests, id) else {
            return self;
        };
        let row = self.requests.rows[i];
        let less = Draft {
            requests: remove_request(self.requests, i),
            ..self
        };
        if reliable || 6 <= row.tries {
            less.fail(Kind::from(row.asked))
        } else {
            less.again(row, now)
        }
    }

    // The allocation's Refresh, where it falls due.
    #[tactic(auto, using(crate::proofs::Drafting::refresh_none, crate::proofs::Drafting::refresh_later))]
    fn renew_refresh(self, now: u64) -> Draft
        requires { self.asks.len < 65 }
        ensures { Drafts (Unit {0}) 0 1 self (plan_refresh now (plan_in self)) result }
    {
        let Some(at) = self.refresh else {
            return self;
        };
        if now < at {
            return self;
        }
        let taken = Draft {
            refresh: None,
            ..self
        };
        taken.ask(Kind::Refresh(600))
    }

    // A permission that falls due: asked for again, in its place.
    #[tactic(auto, using(crate::proofs::Drafting::permission_renewed, crate::proofs::Drafting::permission_missing))]
    fn renew_permission(self, host: Host) -> Draft
        requires { self.asks.len < 65 }
        ensures { Drafts (Unit {0}) 0 1 self (plan_perm (ip_in host) (plan_in self)) result }
    {
        let ip = Ip::from(host);
        let Some(i) = find_permission(self.permissions, ip) else {
            return self;
        };
        let row = Permission {
            host: Host::from(ip),
            granted: false,
            at: 0,
        };
        let asked = Draft {
            permissions: put_permission(self.permissions, i, row),
            ..self
        };
        asked.ask(Kind::Permission(ip))
    }

    // A channel that falls due: its next renewal is set, and it is bound again.
    #[tactic(auto, using(crate::proofs::Drafting::channel_renewed, crate::proofs::Drafting::channel_missing, turn_tables::proofs::Laws::found_chan))]
    fn renew_channel(self, place: Place, now: u64) -> Draft
        requires { (self.asks.len < 65) × (now ≤ 9007199254740991) }
        ensures { Drafts (Unit {0}) 0 1 self (plan_chan now (address_in place) (plan_in self)) result }
    {
        let peer = Address::from(place);
        let Some(i) = find_channel(self.channels, peer) else {
            return self;
        };
        let mut row = self.channels.rows[i];
        row.at = now + 540000;
        let renewed = Draft {
            channels: put_channel(self.channels, i, row),
            ..self
        };
        renewed.ask(Kind::ChannelBind(peer, row.number))
    }

    // A channel that waits for its permission, to be bound.
    #[tactic(auto, using(crate::proofs::Drafting::bind_found, crate::proofs::Drafting::bind_missing, turn_tables::proofs::Laws::found_chan))]
    fn bind(self, place: Place) -> Draft
        requires { self.asks.len < 65 }
        ensures { Drafts (Unit {0}) 0 1 self (plan_bind (address_in place) (plan_in self)) result }
    {
        let peer = Address::from(place);
        match find_channel(self.channels, peer) {
            Some(i) => self.ask(Kind::ChannelBind(peer, self.channels.rows[i].number)),
            None => self,
        }
    }

    // A loop for each kind of row: one over a closure would take what each step requires as a clause of its own, and be no plainer.
    // Every request that was due at entry, in that order.
    #[tactic(auto, using(crate::proofs::Drafting::same_draft, crate::proofs::Drafting::went_through))]
    fn due_all(self, ids: &[Id], now: u64, reliable: bool) -> Draft
        requires { (length ids.now ≤ 64) × (self.sends.len ≡ 0) × (self.timeouts ≡ 0) × (now ≤ 9007199254740991) }
        ensures { Drafts (Unit {0}) 64 0 self (each (plan_due now reliable) (map «bytes_of» ids.now) (plan_in self)) result }
    {
        let mut draft = self;
        for id in ids {
            draft = draft.due_one(id.bytes, now, reliable);
        }
        draft
    }

    // Every permission that falls due, and every channel.
    #[tactic(auto, using(crate::proofs::Drafting::same_draft, crate::proofs::Drafting::went_through))]
    fn renew_permissions(self, hosts: &[Host]) -> Draft
        requires { (length hosts.now ≤ 32) × (self.asks.len ≤ 1) }
        ensures { Drafts (Unit {0}) 0 32 self (each plan_perm (map ip_in hosts.now) (plan_in self)) result }
    {
        let mut draft = self;
        for host in hosts {
            draft = draft.renew_permission(*host);
        }
        draft
    }

    #[tactic(auto, using(crate::proofs::Drafting::same_draft, crate::proofs::Drafting::went_through))]
    fn renew_channels(self, places: &[Place], now: u64) -> Draft
        requires { (length places.now ≤ 32) × (self.asks.len ≤ 33) × (now ≤ 9007199254740991) }
        ensures { Drafts (Unit {0}) 0 32 self (each (plan_chan now) (map address_in places.now) (plan_in self)) result }
    {
        let mut draft = self;
        for place in places {
            draft = draft.renew_channel(*place, now);
        }
        draft
    }

    #[tactic(auto, using(crate::proofs::Drafting::same_draft, crate::proofs::Drafting::went_through))]
    fn bind_all(self, places: &[Place]) -> Draft
        requires { (length places.now ≤ 32) × (self.asks.len ≡ 0) }
        ensures { Drafts (Unit {0}) 0 32 self (each plan_bind (map address_in places.now) (plan_in self)) result }
    {
        let mut draft = self;
        for place in places {
            draft = draft.bind(*place);
        }
        draft
    }

    // The whole poll, from the state at entry.
    fn run(self, now: u64, reliable: bool, closing: bool) -> Draft
        requires { (self.sends.len ≡ 0) × (self.asks.len ≡ 0) × (self.timeouts ≡ 0) × (now ≤ 9007199254740991) }
        ensures { Drafts (Unit {0}) 64 65 self (planned_from now reliable closing (plan_in self)) result }
    {
        let ids = due_requests(self.requests, now);
        let settled = self.due_all(&ids.rows[..ids.len], now, reliable);
        if closing {
            return settled;
        }
        let refreshed = settled.renew_refresh(now);
        let hosts = due_permissions(refreshed.permissions, now);
        let permitted = refreshed.renew_permissions(&hosts.rows[..hosts.len]);
        let places = due_channels(permitted.channels, now);
        permitted.renew_channels(&places.rows[..places.len], now)
    }

    // Every unbound channel of an IP, to be bound.
    #[tactic(auto, using(crate::proofs::Drafting::binds_all))]
    fn bind_waiting(self, ip: Ip) -> Draft
        requires { self.asks.len ≡ 0 }
        ensures { Drafts (Unit {0}) 0 32 self (plan_binds ip (plan_in self)) result }
    {
        let places = waiting_channels(self.channels, ip);
        self.bind_all(&places.rows[..places.len])
    }
}
