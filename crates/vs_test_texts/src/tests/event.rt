//! Event texts, and a list of events.

use std::alloc::Global;
use vs_base::{ClientNo, NoMemory};
use vs_event::{Event, EventFault, Piece, Trace, read_events, write_events, write_piece};

const EVERY_KIND: &[u8] =
    b"post 1 2\nbegin 64\nact 1\nend 1\ntake 1\ncut 16\nstart 1\nhaul 1 2 32\n\
notyet 1 30000\nfreeze 1 3\nchunk 1 3\nseal 1 3\nlast 1 3\nabort 1 3\nendmove 1 3\n\
deliver 1 2\nhear 1 2\nclose 2\nask 2 3\ncondemn 1 3\nwipe 1 3\nforget 1 3\npin 1\nplan 1\nstop 1\n\
fault 1 0 act 1\nfault 1 18446744073709551615 freeze 1 3\nfault 1 1 seal 1 3\n\
fault 1 1 deliver 1 2\nfault 1 1 hear 1 2\nfault 1 1 condemn 1 3\nfault 1 1 wipe 1 3\n\
fault 1 1 forget 1 3\nfault 1 1 pin 1\n\
restart 1 kept line 1\nrestart 1 bare line 1\nrestart 1 kept service\nrestart 1 bare service\n";

fn written_back(alloc: Global, text: &[u8]) -> Result<Vec<u8>, EventFault> {
    let trace = read_events(alloc, text)?;
    Ok(write_events(alloc, &trace)?)
}

#[test]
fn reads_every_kind_and_writes_it_back(rt: HostRuntime) {
    match written_back(rt.alloc(), EVERY_KIND) {
        Ok(text) => assert_eq!(rt; text.as_slice(), EVERY_KIND),
        Err(_) => panic!(rt; "a text of events"),
    }
}

/// The pieces of a list of events, one after the other, and the size of each.
fn in_pieces(alloc: Global, trace: &Trace) -> Result<(Vec<u8>, Vec<usize>), NoMemory> {
    let mut piece = Piece::new(alloc)?;
    let mut text = Vec::new(alloc);
    let mut sizes = Vec::new(alloc);
    let mut next = 0;
    while next < trace.len() {
        next = write_piece(trace, next, &mut piece);
        text.extend_from_slice(piece.bytes())?;
        sizes.push(piece.bytes().len())?;
    }
    Ok((text, sizes))
}

/// So many lines of this text, and how long the pieces of their text are.
const PIECES: [(&[u8], u32, &[usize]); 5] = [
    (b"act 1\n", 0, &[]),
    (b"fault 1 0 act 1\n", 1, &[16]),
    (b"fault 1 0 act 1\n", 4096, &[65536]),
    (b"fault 1 0 act 1\n", 8193, &[65536, 65536, 16]),
    (b"fault 1 10 act 1\n", 3856, &[65535, 17]),
];

#[test]
fn writes_pieces_of_whole_lines(rt: HostRuntime) {
    for (line, lines, wanted) in PIECES {
        let mut text = Vec::new(rt.alloc());
        for _ in 0..lines {
            text.extend_from_slice(line).expect(&rt, "a text");
        }
        let trace = read_events(rt.alloc(), &text).expect(&rt, "a text of events");
        let (written, sizes) = in_pieces(rt.alloc(), &trace).expect(&rt, "its pieces");
        assert!(rt; written.as_slice() == text.as_slice());
        assert_eq!(rt; sizes.as_slice(), wanted);
    }
}

#[test]
fn grows_by_one_event(rt: HostRuntime) {
    let client = ClientNo::new(7).expect(&rt, "7 is a client");
    let mut trace = Trace::new(rt.alloc());
    assert_eq!(rt; trace.len(), 0);
    trace.reserve().expect(&rt, "memory");
    trace.push(Event::Take(client));
    assert_eq!(rt; trace.len(), 1);
    assert!(rt; matches!(trace.get(0), Some(Event::Take(_))));
    assert!(rt; trace.get(1).is_none());
}
