ghost use Rattle.std.specs.Prelude.{◌≤◌, IfOk, Some};

use crate::{
    FlagGate, Gate, Got, MeetGate, MemSink, MemSource, Pace, Put, Sink, Source, StdSink, StdSource,
    SureSource, WholeRead, WholeWrite, read_to_end, write_all,
};
use std::io;
use std::io::{ErrorKind, Read, Write};
use std::test::Fail;

const TEXT: &[u8] = b"one line and then another line";

#[test]
fn a_source_in_memory_fails_at_the_listed_calls(rt: HostRuntime) -> Result<(), Fail> {
    let alloc = rt.alloc();
    let bytes = Vec::from_slice(alloc, b"abcdefghij")?;
    let mut source = MemSource::new(bytes, 4, vec![in alloc; 2, 5]?);
    let mut into = Vec::new(alloc);
    let wanted = [
        Got::Some { n: 4 },
        Got::Failed,
        Got::Some { n: 4 },
        Got::Some { n: 2 },
        Got::Failed,
        Got::End,
    ];
    for want in wanted {
        assert_eq!(rt; source.read(&mut into, 4096), want);
    }
    assert_eq!(rt; into.as_slice(), b"abcdefghij".as_slice());
    Ok(())
}

#[test]
fn a_read_stops_at_a_failing_call(rt: HostRuntime) -> Result<(), Fail> {
    let alloc = rt.alloc();
    // 42 bytes in pieces of 4 take eleven calls, and the twelfth meets the end.
    for call in 1..=13 {
        let bytes = vec![in alloc; b'x'; 42]?;
        let mut source = MemSource::new(bytes, 4, vec![in alloc; call]?);
        match read_to_end(alloc, &mut source, 1_048_577) {
            WholeRead::All { bytes } => {
                assert_eq!(rt; call, 13);
                assert_eq!(rt; bytes.len(), 42);
            }
            WholeRead::Failed => assert!(rt; call <= 12, "at call {call}"),
            _ => panic!(rt; "another answer at call {call}"),
        }
    }
    Ok(())
}

#[test]
fn a_read_stops_at_the_limit(rt: HostRuntime) -> Result<(), Fail> {
    let alloc = rt.alloc();
    // how many bytes, the limit, and how many are left, where the read stopped at the limit
    let table = [
        (0, 1, None),
        (1, 1, Some(0)),
        (9, 10, None),
        (10, 10, Some(0)),
        (12, 10, Some(2)),
        (1_048_576, 1_048_577, None),
        (1_048_577, 1_048_577, Some(0)),
        (1_048_582, 1_048_577, Some(5)),
    ];
    for (len, limit, left) in table {
        assert!(rt; limit >= 1);
        let mut source = SureSource::new(vec![in alloc; b'x'; len]?);
        match read_to_end(alloc, &mut source, limit) {
            WholeRead::All { bytes } => {
                assert_eq!(rt; bytes.len(), len);
                assert_eq!(rt; left, None, "{len} bytes, limit {limit}");
            }
            WholeRead::TooLong => {
                let mut rest = Vec::new(alloc);
                source.read(&mut rest, 4096);
                assert_eq!(rt; left, Some(rest.len()), "{len} bytes, limit {limit}");
            }
            _ => panic!(rt; "another answer at {len} bytes, limit {limit}"),
        }
    }
    Ok(())
}

// Gives all of its bytes, and writes down how many it was asked for.
#[derive(Drop)]
struct Asked {
    inner: SureSource,
    asks: Vec<usize>,
}

impl Source for Asked {
    ghost left = { λ s. Some s.inner };

    ghost faults = { λ _. 0 };

    fn read(&mut self, into: &mut Vec<u8>, most: usize) -> Got {
        if self.asks.push(most).is_err() {
            return Got::NoMemory;
        }
        self.inner.read(into, most)
    }
}

#[test]
fn a_write_stops_without_room(rt: HostRuntime) -> Result<(), Fail> {
    let alloc = rt.alloc();
    for room in 0..=TEXT.len() {
        let mut sink = MemSink::new(alloc, room);
        let want = if room < TEXT.len() {
            WholeWrite::Failed
        } else {
            WholeWrite::Done
        };
        assert_eq!(rt; write_all(&mut sink, TEXT), want, "room for {room}");
        assert_eq!(rt; sink.bytes(), &TEXT[..room]);
    }
    Ok(())
}

// A reader and a writer that refuse some calls with an error of one kind, and then take or give
// three bytes at a call.
#[derive(Drop)]
struct Faltering {
    kind: ErrorKind,
    refusals: u32,
}

impl Faltering {
    fn step(&mut self, len: usize) -> io::Result<usize>
        ensures { IfOk result (λ n. n ≤ len) }
    {
        if self.refusals > 0 {
            self.refusals -= 1;
            return Err(io::Error::from(self.kind));
        }
        Ok(len.min(3))
    }
}

impl Read for Faltering {
    fn read(&mut self, buf: &mut [u8]) -> io::Result<usize> {
        let n = self.step(buf.len())?;
        buf[..n].fill(b'x');
        Ok(n)
    }
}

impl Write for Faltering {
    fn write(&mut self, buf: &[u8]) -> io::Result<usize> {
        self.step(buf.len())
    }

    fn flush(&mut self) -> io::Result<()> {
        Ok(())
    }
}

// Refusals of a call, and whether one call of the edge gets past them.
fn refusals() -> [(ErrorKind, u32, bool); 5] {
    [
        (ErrorKind::Interrupted, 0, true),
        (ErrorKind::Interrupted, 64, true),
        (ErrorKind::Interrupted, 65, false),
        (ErrorKind::BrokenPipe, 1, false),
        (ErrorKind::WouldBlock, 1, false),
    ]
}

#[test]
fn a_reader_is_a_source(rt: HostRuntime) -> Result<(), Fail> {
    let alloc = rt.alloc();
    let mut source = StdSource::new(TEXT);
    match read_to_end(alloc, &mut source, 1_048_577) {
        WholeRead::All { bytes } => assert_eq!(rt; bytes.as_slice(), TEXT),
        _ => panic!(rt; "the reader has all bytes"),
    }
    for (kind, refusals, passes) in refusals() {
        let mut source = StdSource::new(Faltering { kind, refusals });
        let mut into = Vec::new(alloc);
        let want = if passes {
            Got::Some { n: 3 }
        } else {
            Got::Failed
        };
        assert_eq!(rt; source.read(&mut into, 9), want, "{refusals} refusals");
        assert_eq!(rt; into.len(), if passes { 3 } else { 0 });
        assert_eq!(rt; source.read(&mut into, 2), Got::Some { n: 2 });
    }
    Ok(())
}

#[test]
fn a_writer_is_a_sink(rt: HostRuntime) -> Result<(), Fail> {
    let alloc = rt.alloc();
    let mut sink = StdSink::new(Vec::new(alloc));
    assert_eq!(rt; write_all(&mut sink, TEXT), WholeWrite::Done);
    for (kind, refusals, passes) in refusals() {
        let mut sink = StdSink::new(Faltering { kind, refusals });
        let want = if passes {
            Put::Some { n: 3 }
        } else {
            Put::Failed
        };
        assert_eq!(rt; sink.write(TEXT), want, "{refusals} refusals");
        assert_eq!(rt; sink.write(b"ab"), Put::Some { n: 2 });
        assert_eq!(rt; write_all(&mut sink, TEXT), WholeWrite::Done);
    }
    let mut room = [0; 4];
    let mut sink = StdSink::new(room.as_mut_slice());
    assert_eq!(rt; write_all(&mut sink, TEXT), WholeWrite::Failed);
    assert_eq!(rt; room, *b"one ");
    Ok(())
}

// Whether a gate holds these calls, in their order.
fn holds<G: Gate>(gate: &G, calls: [(u32, u32); 3]) -> [bool; 3] {
    calls.map(|(caller, call)| gate.before(caller, call) == Pace::Hold)
}

#[test]
fn a_flag_gate_holds_one_call_until_the_other_was_told(rt: HostRuntime) {
    let gate = FlagGate::new(1, 0, 2, 3);
    assert_eq!(rt;
        holds(&gate, [(1, 1), (2, 0), (2, 3)]),
        [false, false, false]
    );
    assert_eq!(rt; gate.holds(), 0);
    assert_eq!(rt; holds(&gate, [(1, 0), (3, 0), (1, 0)]), [true, false, true]);
    gate.told(2, 2);
    gate.told(1, 3);
    assert_eq!(rt; holds(&gate, [(1, 0), (1, 0), (1, 0)]), [true, true, true]);
    assert_eq!(rt; gate.holds(), 5);
    gate.told(2, 3);
    assert_eq!(rt;
        holds(&gate, [(1, 0), (1, 0), (2, 3)]),
        [false, false, false]
    );
    assert_eq!(rt; gate.holds(), 5);
}

#[test]
fn a_call_alone_misses_the_other(rt: HostRuntime) {
    let gate = MeetGate::new(1, 0, 2, 3);
    assert_eq!(rt;
        holds(&gate, [(1, 1), (2, 0), (3, 0)]),
        [false, false, false]
    );
    assert!(rt; !gate.missed());
    assert_eq!(rt; gate.before(2, 3), Pace::Go);
    assert!(rt; gate.missed());
    gate.told(2, 3);
    assert_eq!(rt; gate.before(1, 0), Pace::Go);
    assert!(rt; gate.missed());
}
