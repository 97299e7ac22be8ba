//! The receiver's table, line by line.

use vs_base::SetNo;
use vs_recv::{RecvFault, Took, receive};
use vs_space::Status;

// What a message met: 1 is the sender, 2 another set, and 7 buckets are being received.
fn name(answer: Result<Took, RecvFault>) -> &'static str {
    match answer {
        Ok(Took::Created) => "created",
        Ok(Took::Added) => "added",
        Ok(Took::Activated) => "activated",
        Err(RecvFault::SetLocked) => "locked",
        Err(RecvFault::TooManyReceiving(7)) => "too many, 7",
        Err(RecvFault::TooManyReceiving(_)) => "too many",
        Err(RecvFault::WrongSender(_)) => "sender",
        Err(RecvFault::WrongBucket(None)) => "no entry",
        Err(RecvFault::WrongBucket(Some(_))) => "status",
    }
}

// A status, what rows meet, what the last message meets, at a set that is free, locked, or receiving 7 of 7.
type Line = (Option<Status>, [&'static str; 3], [&'static str; 3]);

fn lines(one: SetNo, two: SetNo) -> [Line; 8] {
    [
        (Some(Status::Receiving(two)), ["sender"; 3], ["sender"; 3]),
        (Some(Status::Receiving(one)), ["added"; 3], ["activated"; 3]),
        (Some(Status::Active), ["status"; 3], ["status"; 3]),
        (Some(Status::Pinned), ["status"; 3], ["status"; 3]),
        (Some(Status::Sending(two)), ["status"; 3], ["status"; 3]),
        (Some(Status::Sent(one)), ["status"; 3], ["status"; 3]),
        (Some(Status::Garbage), ["status"; 3], ["status"; 3]),
        (None, ["created", "locked", "too many, 7"], ["no entry"; 3]),
    ]
}

#[test]
fn table(rt: HostRuntime) {
    let one = SetNo::new(1).expect(&rt, "1 is a set");
    let two = SetNo::new(2).expect(&rt, "2 is a set");
    let three = SetNo::new(3).expect(&rt, "3 is a set");
    let sets = [(false, 8), (true, 7), (false, 7)];
    for (i, (status, rows, last)) in lines(one, two).iter().enumerate() {
        for (j, (locked, most)) in sets.iter().enumerate() {
            let met = receive(*status, *locked, 7, *most, one, false);
            assert_eq!(rt; name(met), rows[j], "rows at {i}, {j}");
            let met = receive(*status, *locked, 7, *most, one, true);
            assert_eq!(rt; name(met), last[j], "the last message at {i}, {j}");
        }
    }
    let other = receive(Some(Status::Receiving(three)), false, 1, 100, one, true);
    assert_eq!(rt; other.err(), Some(RecvFault::WrongSender(three)));
}
