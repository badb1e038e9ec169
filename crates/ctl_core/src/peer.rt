// A gateway as its controller sees it.
ghost use Rattle.std.specs.Prelude.{◌≡◌, ◌<◌, ◌≤◌, length, OnOk, OnErr, IfOk, vec_len};
ghost use Rattle.std.specs.Prelude.{ℕ, ◌+◌, ◌^◌, ◌++◌, map, [], IsTrue, position};
ghost use Rattle.std.specs.Str.{bytes_eq};
ghost use Rattle.std.specs.Option.{option_copied};
ghost use Rattle.ctl_core.specs.declared.peer.Session.TheVariants as sessions;
ghost use Rattle.ctl_core.specs.Core as core;
ghost use Rattle.ctl_core.specs.Pass.{with_queues};
ghost use Rattle.ctl_core.specs.Room.{has_room_for, is_short as is_short_for};

use ctl_tunnels::HalfOrder;
use ikeless_tree::{Entries, Order, Peer, Peers};
use ikl_base::{Addr, Name, NoMemory};
use std::alloc::Global;
use std::collections::LinkedList;

/// A session with a gateway: none, one whose first reading isn't answered, or one that is read.
#[derive(Clone, Copy, Debug, PartialEq, Eq)]
pub enum Session {
    Closed,
    Unread,
    Read,
}

/// An order that waits for its answer; `half` says which half it puts or removes, if it does.
#[derive(Drop)]
pub struct Waiting {
    pub order: Order,
    pub half: Option<HalfOrder>,
}

/// A gateway: its session, the newest list of policies commanded for it, and its waiting orders, oldest first.
#[derive(Drop)]
pub struct Station {
    pub name: Name,
    pub address: Addr,
    pub session: Session,
    pub list: Option<Entries>,
    pub queue: LinkedList<Waiting>,
}

impl Station {
    /// A gateway without a session.
    pub fn of(alloc: Global, peer: Peer) -> Station
        ensures { result ≡ core.station_of peer }
    {
        Station {
            name: peer.name,
            address: peer.address,
            session: Session::Closed,
            list: None,
            queue: LinkedList::new(alloc),
        }
    }

    /// Whether its session is open.
    pub fn is_open(&self) -> bool
        ensures { result ≡ core.is_open self.now.session }
    {
        match self.session {
            Session::Closed => false,
            Session::Unread | Session::Read => true,
        }
    }

    /// Whether its session is open and read.
    pub fn is_ready(&self) -> bool
        ensures { result ≡ core.is_ready self.now.session }
    {
        match self.session {
            Session::Read => true,
            Session::Closed | Session::Unread => false,
        }
    }

    /// The oldest waiting order.
    pub fn oldest(&self) -> Option<&Order>
        ensures { option_copied result ≡ core.order_or_none (core.front self.now.queue) }
    {
        match self.queue.front() {
            None => None,
            Some(waiting) => Some(&waiting.order),
        }
    }

    /// Whether a reading waits.
    pub fn has_reading(&self) -> bool
        ensures { result ≡ core.has_reading self.now.queue }
    {
        self.queue.iter().any(|waiting| is_reading(&waiting.order))
    }
}

/// The gateways of these peers, without sessions.
pub fn stations_of(alloc: Global, peers: Peers) -> Result<Vec<Station>, NoMemory>
    ensures { IfOk result (λ v. v.items ≡ map core.station_of peers) }
{
    let mut stations = Vec::new(alloc);
    for peer in peers.into_items() {
        stations.push(Station::of(alloc, peer))?;
    }
    Ok(stations)
}

/// Whether each queue is short enough for what is to be added to it.
pub fn has_room(stations: &[Station], queues: &[LinkedList<Waiting>]) -> bool
    ensures { result ≡ has_room_for stations.now queues.now }
{
    let count = stations.len().min(queues.len());
    for i in 0..count {
        let station = &stations[i];
        let more = &queues[i];
        if !is_short(station.queue.len(), more.len()) {
            return false;
        }
    }
    true
}

fn is_short(some: usize, more: usize) -> bool
    ensures { result ≡ is_short_for some more }
{
    some < 0x4000_0000_0000_0000 && more < 0x4000_0000_0000_0000
}

// Adds waiting orders to a queue.
fn join(queue: &mut LinkedList<Waiting>, more: &mut LinkedList<Waiting>)
    requires { IsTrue (is_short_for (length queue.old) (length more.old)) }
    ensures { queue.new ≡ queue.old ++ more.old }
{
    let _ = queue.append(more);
}

/// Adds to each gateway's queue.
pub fn append_queues(stations: &mut Vec<Station>, queues: &mut Vec<LinkedList<Waiting>>)
    requires { IsTrue (has_room_for stations.old.items queues.old.items) }
    ensures { stations.new.items ≡ with_queues stations.old.items queues.old.items }
{
    let count = stations.len().min(queues.len());
    for i in 0..count {
        let station = &mut stations[i];
        let more = &mut queues[i];
        join(&mut station.queue, more);
    }
}

fn is_reading(order: &Order) -> bool
    ensures { result ≡ core.is_reading order.now }
{
    match order {
        Order::Read => true,
        Order::Policy(_) | Order::Put(_) | Order::Remove(_) => false,
    }
}

// The place of the first gateway of this name.
fn place_of(stations: &[Station], name: &[u8]) -> Option<usize>
    ensures { result ≡ position (λ s. bytes_eq s.name name.now) stations.now }
{
    stations
        .iter()
        .position(|station| station.name.as_slice() == name)
}

/// The number of the first gateway of this name, or how many there are.
pub fn number_of(stations: &[Station], name: &[u8]) -> usize
    ensures { result ≡ core.number_of name.now stations.now }
{
    match place_of(stations, name) {
        Some(i) => i,
        None => stations.len(),
    }
}

/// Whether the session of a gateway of this number is open.
pub fn is_open_at(stations: &[Station], gateway: usize) -> bool
    ensures { result ≡ core.is_open_at stations.now gateway }
{
    match stations.get(gateway) {
        Some(station) => station.is_open(),
        None => false,
    }
}

/// Whether a gateway of this number has no open session.
pub fn is_closed_at(stations: &[Station], gateway: usize) -> bool
    ensures { result ≡ core.is_closed_at stations.now gateway }
{
    match stations.get(gateway) {
        Some(station) => !station.is_open(),
        None => false,
    }
}

/// The oldest waiting order of a gateway, with its half.
pub fn oldest_at(stations: &[Station], gateway: usize) -> Option<&Waiting>
    ensures { option_copied result ≡ core.front (core.queue_at stations.now gateway) }
{
    match stations.get(gateway) {
        Some(station) => station.queue.front(),
        None => None,
    }
}

/// Whether an order of a gateway waits.
pub fn has_waiting(stations: &[Station], gateway: usize) -> bool
    ensures { result ≡ core.is_some_waiting (core.front (core.queue_at stations.now gateway)) }
{
    match oldest_at(stations, gateway) {
        Some(_) => true,
        None => false,
    }
}

/// Whether a reading of a gateway waits.
pub fn has_reading_at(stations: &[Station], gateway: usize) -> bool
    ensures { result ≡ core.has_reading (core.queue_at stations.now gateway) }
{
    match stations.get(gateway) {
        Some(station) => station.has_reading(),
        None => false,
    }
}

/// The address of a gateway; an unknown one has none.
pub fn address_of(stations: &[Station], gateway: usize) -> Addr
    ensures { result ≡ core.address_of stations.now gateway }
{
    match stations.get(gateway) {
        Some(station) => station.address,
        None => Addr::V4([0; 4]),
    }
}

/// Changes the session of a gateway.
pub fn set_session(stations: &mut Vec<Station>, gateway: usize, session: Session)
    ensures { stations.new.items ≡ core.at gateway (λ s. record s { session = session }) stations.old.items }
{
    if gateway < stations.len() {
        let station = &mut stations[gateway];
        station.session = session;
    }
}

/// Ends the session of a gateway, and loses its waiting orders.
pub fn drop_session(stations: &mut Vec<Station>, gateway: usize)
    ensures { stations.new.items ≡ core.at gateway (λ s. record s { session = sessions.Closed; queue = [] }) stations.old.items }
{
    if gateway < stations.len() {
        let station = &mut stations[gateway];
        station.session = Session::Closed;
        station.queue.clear();
    }
}

/// Takes away the oldest waiting order of a gateway, whose session is read then.
pub fn take_answered(stations: &mut Vec<Station>, gateway: usize)
    ensures { stations.new.items ≡ core.at gateway (λ s. record s { session = sessions.Read; queue = core.without_front s.queue })
        stations.old.items }
{
    if gateway < stations.len() {
        let station = &mut stations[gateway];
        station.session = Session::Read;
        let _ = station.queue.pop_front();
    }
}

/// Changes the newest list of a gateway.
pub fn set_list(stations: &mut Vec<Station>, gateway: usize, list: Entries)
    ensures { stations.new.items ≡ core.at gateway (λ s. record s { list = Some list }) stations.old.items }
{
    if gateway < stations.len() {
        let station = &mut stations[gateway];
        station.list = Some(list);
    }
}

/// Whether each gateway's session is open and read.
pub fn readiness(alloc: Global, stations: &[Station]) -> Result<Vec<bool>, NoMemory>
    ensures { IfOk result (λ ready. ready.items ≡ map (λ s. core.is_ready s.session) stations.now) }
{
    let mut ready = Vec::new(alloc);
    for station in stations {
        ready.push(station.is_ready())?;
    }
    Ok(ready)
}

/// An empty queue for each gateway.
pub fn empty_queues(
    alloc: Global,
    stations: &[Station],
) -> Result<Vec<LinkedList<Waiting>>, NoMemory>
    ensures { IfOk result (λ queues. queues.items ≡ map (λ s. []) stations.now) }
{
    let mut queues = Vec::new(alloc);
    for _station in stations {
        queues.push(LinkedList::new(alloc))?;
    }
    Ok(queues)
}
