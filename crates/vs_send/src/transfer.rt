//! Transfers and their phases.

ghost use Rattle.std.specs.Prelude.{◌≡◌, ◌&&◌, None};
ghost use Rattle.std.specs.Bool.{OnFalse};
ghost use Rattle.vs_send.specs.Phases.{IsDraining, MayWait, IsReady, waited, taken_phase, heard_phase, is_of_transfer, waits_for, abort_cause_of};

use crate::abort::AbortCause;
use std::mem;
use vs_base::{OpNo, SetNo};
use vs_rows::Key;
use vs_space::{RecvFault, Reply};

/// Who began a transfer.
#[derive(Clone, Copy)]
pub enum By {
    /// The `send` command of this operator.
    Command(OpNo),
    /// A round of this operator's `balance` command.
    Haul(OpNo),
}

/// How far a transfer has come.
#[derive(Drop)]
pub enum Phase {
    /// It waits for the running writes, since so many turns.
    Draining(u16),
    /// The rows up to this key were taken, and more are to be sent.
    Ready(Option<Key>),
    /// It waits for the reply to a message with rows: the connection's epoch, the message's number, and the last key sent.
    Waiting(u64, u64, Option<Key>),
    /// All rows were taken.
    Copied,
    /// The bucket is sent.
    Sealed,
    /// It waits for the reply to the last message: the connection's epoch and the message's number.
    WaitingLast(u64, u64),
    /// The receiver refused.
    Refused(RecvFault),
    /// The last message was taken.
    Done,
}

/// A transfer of a bucket, as its source sees it. No call takes memory.
#[derive(Drop)]
pub struct Transfer {
    /// The set that the bucket is moved to.
    pub dest: SetNo,
    /// Who began it.
    pub by: By,
    /// How far it has come.
    pub phase: Phase,
}

/// The phase after the message that it waits for was taken.
fn taken(phase: Phase, more: bool) -> Phase
    ensures { result ≡ taken_phase phase more }
{
    match phase {
        Phase::Waiting(_, _, last) if more => Phase::Ready(last),
        Phase::Waiting(_, _, _) => Phase::Copied,
        Phase::WaitingLast(_, _) => Phase::Done,
        other => other,
    }
}

impl Transfer {
    /// The most turns that a transfer waits for running writes.
    pub const MAX_TURNS: u16 = 256;

    /// A transfer that begins: it waits for the running writes.
    pub fn start(dest: SetNo, by: By) -> Transfer
        ensures { result ≡ record { dest = dest; by = by; phase = Phase.Draining 0 } }
    {
        Transfer {
            dest,
            by,
            phase: Phase::Draining(0),
        }
    }

    /// One more turn is waited for the running writes.
    pub fn turn(&mut self)
        requires { MayWait self.old.phase }
        ensures { self.new ≡ record self.old { phase = waited self.old.phase } }
    {
        if let Phase::Draining(turns) = &mut self.phase {
            *turns += 1;
        }
    }

    /// No write is running any more: the bucket can be copied.
    pub fn freeze(&mut self)
        requires { IsDraining self.old.phase }
        ensures { self.new ≡ record self.old { phase = Phase.Ready None } }
    {
        self.phase = Phase::Ready(None);
    }

    /// The next rows were sent, on a connection of this epoch, with this number. `last` is the key of the last row among
    /// them, and none where there were no rows.
    pub fn posted(&mut self, epoch: u64, sync: u64, last: Option<Key>)
        requires { IsReady self.old.phase }
        ensures { self.new ≡ record self.old { phase = Phase.Waiting epoch sync last } }
    {
        self.phase = Phase::Waiting(epoch, sync, last);
    }

    /// All rows are copied, and the bucket was recorded as sent.
    pub fn seal(&mut self)
        requires { self.old.phase ≡ Phase.Copied }
        ensures { self.new ≡ record self.old { phase = Phase.Sealed } }
    {
        self.phase = Phase::Sealed;
    }

    /// The last message was sent, on a connection of this epoch, with this number.
    pub fn posted_last(&mut self, epoch: u64, sync: u64)
        requires { self.old.phase ≡ Phase.Sealed }
        ensures { self.new ≡ record self.old { phase = Phase.WaitingLast epoch sync } }
    {
        self.phase = Phase::WaitingLast(epoch, sync);
    }

    /// Takes the reply to the message with this number, if the transfer waits for it, and says whether it does. Every
    /// other reply changes nothing. `more` tells whether there are rows above the last key sent.
    pub fn heard(&mut self, sync: u64, reply: &Reply, more: bool) -> bool
        ensures answer { result ≡ waits_for self.old.phase sync && is_of_transfer reply.now }
        ensures heard { self.new ≡ record self.old { phase = heard_phase self.old.phase sync reply.now more } }
        ensures dropped { OnFalse result (self.new ≡ self.old) }
    {
        let waits = match &self.phase {
            Phase::Waiting(_, number, _) | Phase::WaitingLast(_, number) => *number == sync,
            _ => false,
        };
        if !waits {
            return false;
        }
        match reply {
            Reply::Took => {
                let phase = mem::replace(&mut self.phase, Phase::Done);
                self.phase = taken(phase, more);
            }
            Reply::Not(fault) => self.phase = Phase::Refused(*fault),
            Reply::State(_, _) => return false,
        }
        true
    }

    /// Why the transfer is to be given up, if it is, by the number of writes of the bucket that are running, whether the
    /// receiver is up, and the connection's epoch.
    ///
    /// That its own set went down, `Stopped`, is never told here: such a transfer is gone at once.
    pub fn abort_cause(&self, writes: u32, dest_up: bool, epoch: u64) -> Option<AbortCause>
        ensures { result ≡ abort_cause_of self.now.dest writes dest_up epoch self.now.phase }
    {
        match &self.phase {
            Phase::Refused(fault) => Some(AbortCause::Receiver(*fault)),
            Phase::Done => None,
            _ if !dest_up => Some(AbortCause::SetDown(self.dest)),
            Phase::Waiting(opened, _, _) | Phase::WaitingLast(opened, _) if *opened != epoch =>
                Some(AbortCause::Closed),
            Phase::Draining(Self::MAX_TURNS) if writes > 0 => Some(AbortCause::Drained),
            _ => None,
        }
    }
}
