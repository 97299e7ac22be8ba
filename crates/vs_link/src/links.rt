//! The connections between the sets of a cluster.

ghost use Rattle.std.specs.Prelude.{◌≡◌, ◌+◌, ◌-◌, ◌^◌, ◌<◌, ◌≤◌, ◌↔◌, [], Some, OnOk, OnErr, IfOk, IsErr};
ghost use Rattle.std.specs.Option.{option_copied, option_map};
ghost use Rattle.vs_base.specs.Numbers.{IsSetNo};
ghost use Rattle.vs_link.specs.Connection.{message, sent, first, with_message, with_reply, without_call, without_reply, closed};
ghost use Rattle.vs_link.specs.Links.{place_of, line_of, connection_of, IsPair, Becomes, IsUnused, SameLinks};

use crate::connection::Connection;
use crate::message::{Empty, Heard, Msg, Posted};
use std::alloc::Global;
use std::marker::Model;
use vs_base::{NoMemory, SetNo};

/// The connections between the sets of a cluster, one for each pair of them in each direction.
///
/// Each is a line of messages and a line of the replies to them: what came first is taken first. Contracts see, beside
/// the two lines, how many messages were taken and aren't answered, and for how many more there is room.
#[derive(Drop)]
pub struct Links {
    sets: u8,
    connections: Vec<Connection>,
}

impl Model for Links {
    ghost use Rattle.vs_link.specs.Links.{Links, IsTable};

    ghost Value = { Links };

    ghost view = { λ l. record { sets = l.sets; lines = l.connections.items } };

    ghost invariant = { λ l. IsTable (record { sets = l.sets; lines = l.connections.items }) };
}

/// The place of a connection in the table.
fn place(x: SetNo, y: SetNo) -> usize
    ensures place { result ≡ place_of x y }
    ensures first { IsSetNo x }
    ensures second { IsSetNo y }
{
    usize::from(SetNo::MAX) * (usize::from(x.get()) - 1) + (usize::from(y.get()) - 1)
}

impl Links {
    /// Connections between this many sets, none of which was used yet.
    pub fn new(alloc: Global, sets: u8) -> Result<Links, NoMemory>
        requires least { 1 ≤ sets }
        requires greatest { sets ≤ 32 }
        ensures { IfOk result (λ links. IsUnused links sets) }
    {
        let places = usize::from(SetNo::MAX) * usize::from(sets);
        let mut connections = Vec::with_capacity(alloc, places)?;
        for _ in 0..places {
            connections.push(Connection::new(alloc))?;
        }
        Ok(Links { sets, connections })
    }

    /// A copy.
    pub fn try_clone(&self) -> Result<Links, NoMemory>
        ensures { IfOk result (λ links. SameLinks self.now links) }
    {
        let mut connections = Vec::with_capacity(
            *self.connections.allocator(),
            self.connections.len(),
        )?;
        for connection in &self.connections {
            connections.push(connection.try_clone()?)?;
        }
        Ok(Links {
            sets: self.sets,
            connections,
        })
    }

    /// How often the connection was closed.
    pub fn epoch(&self, x: SetNo, y: SetNo) -> u64
        requires { IsPair self.now x y }
        ensures { result ≡ (connection_of self.now x y).epoch }
    {
        self.connections[place(x, y)].epoch()
    }

    /// The number of the next message.
    pub fn next(&self, x: SetNo, y: SetNo) -> u64
        requires { IsPair self.now x y }
        ensures { result ≡ (connection_of self.now x y).next }
    {
        self.connections[place(x, y)].next()
    }

    /// The message that stands first.
    pub fn head_call(&self, x: SetNo, y: SetNo) -> Option<&Posted>
        requires { IsPair self.now x y }
        ensures { option_map sent (option_copied result) ≡ first (connection_of self.now x y).calls }
    {
        self.connections[place(x, y)].head_call()
    }

    /// The reply that stands first.
    pub fn head_reply(&self, x: SetNo, y: SetNo) -> Option<&Heard>
        requires { IsPair self.now x y }
        ensures { option_copied result ≡ first (connection_of self.now x y).replies }
    {
        self.connections[place(x, y)].head_reply()
    }

    /// Makes room for one message on the connection, and for its reply.
    pub fn reserve(&mut self, x: SetNo, y: SetNo) -> Result<(), NoMemory>
        requires { IsPair self.old x y }
        ensures links { Becomes self.old self.new x y (connection_of self.old x y) }
        ensures unanswered { (line_of self.new x y).unanswered ≡ (line_of self.old x y).unanswered }
        ensures room { OnOk result (1 ≤ (line_of self.new x y).room) }
        ensures kept { (line_of self.old x y).room ≤ (line_of self.new x y).room }
    {
        let connection = &mut self.connections[place(x, y)];
        connection.reserve()
    }

    /// Puts a message at the end of its line, and answers its number on the connection.
    pub fn post(&mut self, x: SetNo, y: SetNo, msg: Msg) -> u64
        requires pair { IsPair self.old x y }
        requires room { 1 ≤ (line_of self.old x y).room }
        requires posted { (connection_of self.old x y).next < 2 ^ 63 - 1 }
        ensures number { result ≡ (connection_of self.old x y).next }
        ensures links { Becomes self.old self.new x y (with_message (connection_of self.old x y) (message msg)) }
        ensures unanswered { (line_of self.new x y).unanswered ≡ (line_of self.old x y).unanswered }
        ensures room { (line_of self.old x y).room ≤ (line_of self.new x y).room + 1 }
    {
        let connection = &mut self.connections[place(x, y)];
        connection.post(msg)
    }

    /// Takes the message that stands first. It is to be answered.
    pub fn take_call(&mut self, x: SetNo, y: SetNo) -> Result<Posted, Empty>
        requires { IsPair self.old x y }
        ensures empty { IsErr result ↔ ((connection_of self.old x y).calls ≡ []) }
        ensures taken { IfOk result (λ posted. Some (sent posted) ≡ first (connection_of self.old x y).calls) }
        ensures links { OnOk result (Becomes self.old self.new x y (without_call (connection_of self.old x y))) }
        ensures unanswered { OnOk result
            ((line_of self.new x y).unanswered ≡ (line_of self.old x y).unanswered + 1) }
        ensures room { (line_of self.old x y).room ≤ (line_of self.new x y).room }
        ensures err { OnErr result (self.new ≡ self.old) }
    {
        let connection = &mut self.connections[place(x, y)];
        connection.take_call()
    }

    /// Takes the reply that stands first.
    pub fn take_reply(&mut self, x: SetNo, y: SetNo) -> Result<Heard, Empty>
        requires { IsPair self.old x y }
        ensures empty { IsErr result ↔ ((connection_of self.old x y).replies ≡ []) }
        ensures taken { IfOk result (λ heard. Some heard ≡ first (connection_of self.old x y).replies) }
        ensures links { OnOk result (Becomes self.old self.new x y (without_reply (connection_of self.old x y))) }
        ensures unanswered { (line_of self.new x y).unanswered ≡ (line_of self.old x y).unanswered }
        ensures room { (line_of self.old x y).room ≤ (line_of self.new x y).room }
        ensures err { OnErr result (self.new ≡ self.old) }
    {
        let connection = &mut self.connections[place(x, y)];
        connection.take_reply()
    }

    /// Puts the reply to a message that was taken at the end of its line.
    pub fn answer(&mut self, x: SetNo, y: SetNo, heard: Heard)
        requires pair { IsPair self.old x y }
        requires taken { 1 ≤ (line_of self.old x y).unanswered }
        ensures links { Becomes self.old self.new x y (with_reply (connection_of self.old x y) heard) }
        ensures unanswered { (line_of self.new x y).unanswered + 1 ≡ (line_of self.old x y).unanswered }
        ensures room { (line_of self.old x y).room ≤ (line_of self.new x y).room }
    {
        let connection = &mut self.connections[place(x, y)];
        connection.answer(heard.sync, heard.bucket, heard.reply);
    }

    /// Closes the connection: both lines are dropped, and the epoch rises.
    pub fn close(&mut self, x: SetNo, y: SetNo)
        requires pair { IsPair self.old x y }
        requires epoch { (connection_of self.old x y).epoch < 2 ^ 63 - 1 }
        ensures links { Becomes self.old self.new x y (closed (connection_of self.old x y)) }
        ensures unanswered { (line_of self.new x y).unanswered ≡ (line_of self.old x y).unanswered }
        ensures room { (line_of self.old x y).room ≤ (line_of self.new x y).room }
    {
        let connection = &mut self.connections[place(x, y)];
        connection.close();
    }
}
