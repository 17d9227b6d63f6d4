ghost use Rattle.std.specs.Prelude.{Some};

use crate::write_output;
use call_model::{Call, Entry, History, Reply};
use std::alloc::{AllocError, Global};
use std::test::Fail;
use trace_text::print_output;
use vfs_flow::{MemSink, Put, Sink, SureSink, WholeWrite};
use vfs_tree::{Bytes, Limits, World};

const PIECE: usize = 65_536;

// A history of reads of 4,000 bytes each, all of them the letter x.
fn reads(alloc: Global, count: u32) -> Result<History, AllocError> {
    let mut history = History::new(alloc);
    for _ in 0..count {
        let entry = Entry::Call {
            caller: 1,
            call: Call::Read { d: 0, n: 4000 },
            reply: Reply::Bytes {
                bytes: Bytes::of(vec![in alloc; b'x'; 4000]?),
            },
        };
        history.reserve(1)?;
        history.push(entry);
    }
    Ok(history)
}

#[test]
fn an_empty_run_has_one_piece(rt: HostRuntime) -> Result<(), Fail> {
    let alloc = rt.alloc();
    let world = World::start(alloc, Limits::DEFAULT)?;
    let mut sink = SureSink::new(alloc);
    let wrote = write_output(alloc, &mut sink, &History::new(alloc), &world);
    assert_eq!(rt; wrote, WholeWrite::Done);
    let wanted = b"vfs output 1\ntrees\nmount 0 mem on -\ndir 1 1 plain\nend\n".as_slice();
    assert_eq!(rt; sink.bytes(), wanted);
    Ok(())
}

// Takes all that it is given, and writes down how much that was.
#[derive(Drop)]
struct Measured {
    inner: SureSink,
    pieces: Vec<usize>,
}

impl Sink for Measured {
    ghost written = { λ s. Some s.inner };

    ghost faults = { λ _. 0 };

    fn write(&mut self, bytes: &[u8]) -> Put {
        if self.pieces.push(bytes.len()).is_err() {
            return Put::NoMemory;
        }
        self.inner.write(bytes)
    }
}

#[test]
fn a_long_history_is_written_in_pieces(rt: HostRuntime) -> Result<(), Fail> {
    let alloc = rt.alloc();
    let history = reads(alloc, 60)?;
    let world = World::start(alloc, Limits::DEFAULT)?;
    let mut sink = Measured {
        inner: SureSink::new(alloc),
        pieces: Vec::new(alloc),
    };
    let wrote = write_output(alloc, &mut sink, &history, &world);
    assert_eq!(rt; wrote, WholeWrite::Done);
    let mut text = Bytes::new(alloc);
    print_output(alloc, &history, &world, &mut text)?;
    assert!(rt; text.len() > 3 * PIECE);
    assert_eq!(rt; sink.inner.bytes(), text.as_slice());
    // A line has 4,022 bytes, so a piece has 17 of them, and the first one the first line too.
    let wanted = [68_387, 68_374, 68_374, 36_239];
    assert_eq!(rt; sink.pieces.as_slice(), wanted.as_slice());
    Ok(())
}

#[test]
fn a_failing_sink_has_a_front(rt: HostRuntime) -> Result<(), Fail> {
    let alloc = rt.alloc();
    let history = reads(alloc, 60)?;
    let world = World::start(alloc, Limits::DEFAULT)?;
    let mut text = Bytes::new(alloc);
    print_output(alloc, &history, &world, &mut text)?;
    for room in [0, 1, 68_387, 100_000, 241_373] {
        let mut sink = MemSink::new(alloc, room);
        let wrote = write_output(alloc, &mut sink, &history, &world);
        assert_eq!(rt; wrote, WholeWrite::Failed, "room for {room}");
        assert_eq!(rt; sink.bytes().len(), room);
        assert!(rt; text.as_slice().starts_with(sink.bytes()));
    }
    Ok(())
}
