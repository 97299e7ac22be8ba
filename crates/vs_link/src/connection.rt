//! One connection.

ghost use Rattle.std.specs.Prelude.{◌≡◌, ◌+◌, ◌-◌, ◌^◌, ◌<◌, ◌≤◌, ◌↔◌, [], ◌++◌, map, Some, OnOk, OnErr, IfOk, IsErr};
ghost use Rattle.std.specs.Option.{option_copied, option_map};
ghost use Rattle.vs_link.specs.Connection.{unused, message, sent, first, with_message, with_reply, without_call, without_reply, closed};

use crate::message::{Empty, Heard, Msg, Posted};
use std::alloc::Global;
use std::collections::VecDeque;
use std::marker::Model;
use vs_base::{BucketId, NoMemory};
use vs_space::Reply;

/// Adds copies of the messages at the end of a line.
fn copy_calls(calls: &[Posted], line: &mut VecDeque<Posted>) -> Result<(), NoMemory>
    ensures { OnOk result (map sent line.new.items ≡ map sent line.old.items ++ map sent calls.now) }
{
    for posted in calls {
        line.push_back(posted.try_clone()?)?;
    }
    Ok(())
}

/// A connection from one set to another: a line of messages, and a line of the replies to them. There is always room
/// for the reply to each message that was posted.
#[derive(Drop)]
pub struct Connection {
    epoch: u64,
    next: u64,
    calls: VecDeque<Posted>,
    replies: VecDeque<Heard>,
    unanswered: usize,
}

impl Model for Connection {
    ghost use Rattle.std.specs.Prelude.{map, min, ◌-◌, ◌+◌, ◌≤◌};
    ghost use Rattle.std.specs.VecDeque.{deque_len, deque_capacity};
    ghost use Rattle.vs_link.specs.Connection.{sent};
    ghost use Rattle.vs_link.specs.Links.{Line};

    ghost Value = { Line };

    ghost view = { λ c. record { connection = record { epoch = c.epoch; next = c.next; calls = map sent c.calls.items; replies = c.replies.items }; unanswered = c.unanswered; room = min (deque_capacity c.calls - deque_len c.calls) (deque_capacity c.replies - (deque_len c.replies + deque_len c.calls + c.unanswered)) } };

    ghost invariant = { λ c. deque_len c.replies + deque_len c.calls + c.unanswered ≤ deque_capacity c.replies };
}

impl Connection {
    pub fn new(alloc: Global) -> Connection
        ensures connection { result.connection ≡ unused }
        ensures unanswered { result.unanswered ≡ 0 }
    {
        Connection {
            epoch: 0,
            next: 0,
            calls: VecDeque::new(alloc),
            replies: VecDeque::new(alloc),
            unanswered: 0,
        }
    }

    pub fn epoch(&self) -> u64
        ensures { result ≡ self.now.connection.epoch }
    {
        self.epoch
    }

    pub fn next(&self) -> u64
        ensures { result ≡ self.now.connection.next }
    {
        self.next
    }

    pub fn head_call(&self) -> Option<&Posted>
        ensures { option_map sent (option_copied result) ≡ first self.now.connection.calls }
    {
        self.calls.front()
    }

    pub fn head_reply(&self) -> Option<&Heard>
        ensures { option_copied result ≡ first self.now.connection.replies }
    {
        self.replies.front()
    }

    /// Makes room for one call and its reply.
    pub fn reserve(&mut self) -> Result<(), NoMemory>
        ensures room { OnOk result (1 ≤ self.new.room) }
        ensures kept { self.old.room ≤ self.new.room }
        ensures connection { self.new.connection ≡ self.old.connection }
        ensures unanswered { self.new.unanswered ≡ self.old.unanswered }
    {
        self.calls.reserve(1)?;
        self.replies
            .reserve(self.calls.len() + self.unanswered + 1)?;
        Ok(())
    }

    pub fn post(&mut self, msg: Msg) -> u64
        requires room { 1 ≤ self.old.room }
        requires posted { self.old.connection.next < 2 ^ 63 - 1 }
        ensures number { result ≡ self.old.connection.next }
        ensures connection { self.new.connection ≡ with_message self.old.connection (message msg) }
        ensures unanswered { self.new.unanswered ≡ self.old.unanswered }
        ensures room { self.old.room ≤ self.new.room + 1 }
    {
        let sync = self.next;
        self.calls.push_back_reserved(Posted { sync, msg });
        self.next += 1;
        sync
    }

    pub fn take_call(&mut self) -> Result<Posted, Empty>
        ensures empty { IsErr result ↔ (self.old.connection.calls ≡ []) }
        ensures taken { IfOk result (λ posted. Some (sent posted) ≡ first self.old.connection.calls) }
        ensures connection { OnOk result (self.new.connection ≡ without_call self.old.connection) }
        ensures unanswered { OnOk result (self.new.unanswered ≡ self.old.unanswered + 1) }
        ensures room { self.old.room ≤ self.new.room }
        ensures err { OnErr result (self.new ≡ self.old) }
    {
        match self.calls.pop_front() {
            Some(posted) => {
                self.unanswered += 1;
                Ok(posted)
            }
            None => Err(Empty),
        }
    }

    pub fn take_reply(&mut self) -> Result<Heard, Empty>
        ensures empty { IsErr result ↔ (self.old.connection.replies ≡ []) }
        ensures taken { IfOk result (λ heard. Some heard ≡ first self.old.connection.replies) }
        ensures connection { OnOk result (self.new.connection ≡ without_reply self.old.connection) }
        ensures unanswered { self.new.unanswered ≡ self.old.unanswered }
        ensures room { self.old.room ≤ self.new.room }
        ensures err { OnErr result (self.new ≡ self.old) }
    {
        match self.replies.pop_front() {
            Some(heard) => Ok(heard),
            None => Err(Empty),
        }
    }

    pub fn answer(&mut self, sync: u64, bucket: BucketId, reply: Reply)
        requires { 1 ≤ self.old.unanswered }
        ensures connection { self.new.connection ≡
            with_reply self.old.connection (record { sync = sync; bucket = bucket; reply = reply }) }
        ensures unanswered { self.new.unanswered + 1 ≡ self.old.unanswered }
        ensures room { self.old.room ≤ self.new.room }
    {
        self.replies.push_back_reserved(Heard {
            sync,
            bucket,
            reply,
        });
        self.unanswered -= 1;
    }

    pub fn close(&mut self)
        requires { self.old.connection.epoch < 2 ^ 63 - 1 }
        ensures connection { self.new.connection ≡ closed self.old.connection }
        ensures unanswered { self.new.unanswered ≡ self.old.unanswered }
        ensures room { self.old.room ≤ self.new.room }
    {
        self.calls.clear();
        self.replies.clear();
        self.epoch += 1;
    }

    pub fn try_clone(&self) -> Result<Connection, NoMemory>
        ensures connection { IfOk result (λ c. c.connection ≡ self.now.connection) }
        ensures unanswered { IfOk result (λ c. c.unanswered ≡ self.now.unanswered) }
    {
        let alloc = *self.calls.allocator();
        let (front, back) = self.calls.as_slices();
        let mut calls = VecDeque::with_capacity(alloc, self.calls.len())?;
        copy_calls(front, &mut calls)?;
        copy_calls(back, &mut calls)?;
        let (front, back) = self.replies.as_slices();
        let places = self.replies.len() + self.calls.len() + self.unanswered;
        let mut replies = Vec::with_capacity(alloc, places)?;
        replies.extend_from_slice(front)?;
        replies.extend_from_slice(back)?;
        Ok(Connection {
            epoch: self.epoch,
            next: self.next,
            calls,
            replies: VecDeque::from_vec(replies),
            unanswered: self.unanswered,
        })
    }
}
