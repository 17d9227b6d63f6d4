use crate::serial::{Status, sure_main};
use crate::top::vfs_main;
use std::alloc::{AllocError, Global};
use std::sync::Wait;
use std::test::Fail;
use std::thread::Threads;
use vfs_flow::{FlagGate, Gate, MeetGate, SureSink, SureSource};

const PAIRS: &[u8] =
    b"vfs 1\nlimits 2 1 1 144\n1 mkdir /a\n2 mkdir /b\n1 mkdir /c\n2 mkdir /d\nend\n";

fn words_of(alloc: Global, text: &str) -> Result<Vec<String>, AllocError> {
    let mut words = Vec::new(alloc);
    for word in text.split(' ') {
        words.push(String::from_str(alloc, word)?)?;
    }
    Ok(words)
}

#[test]
fn a_sure_run_writes_its_output(rt: HostRuntime) -> Result<(), Fail> {
    let alloc = rt.alloc();
    let words = words_of(alloc, "run --order")?;
    let mut source = SureSource::new(Vec::from_slice(alloc, b"vfs 1\n1 mkdir /a\nend\n")?);
    let mut sink = SureSink::new(alloc);
    let status = sure_main(alloc, &words, &mut source, &mut sink);
    assert_eq!(rt; status, Status { code: 0, line: 0 });
    let output =
        b"vfs output 1\n1 mkdir /a = ok\ntrees\nmount 0 mem on -\ndir 1 1 plain\nname a 2\ndir 2 1 plain\nend\n";
    assert_eq!(rt; sink.bytes(), output.as_slice());
    Ok(())
}

// The output of `run` at a gate, over a source and a sink that never fail.
fn output_at<R: Threads + Wait + Sync, G: Gate + Sync>(
    rt: &R,
    alloc: Global,
    gate: &G,
) -> Result<SureSink, AllocError> {
    let words = words_of(alloc, "run")?;
    let mut source = SureSource::new(Vec::from_slice(alloc, PAIRS)?);
    let mut sink = SureSink::new(alloc);
    let _status = vfs_main(rt, alloc, &words, &mut source, &mut sink, gate);
    Ok(sink)
}

#[test]
fn a_held_call_waits_for_the_other(rt: HostRuntime) -> Result<(), Fail> {
    let alloc = rt.alloc();
    let table = [
        (1, 0, 2, 0, "output 1\n2 mkdir /b = ok\n"),
        (1, 1, 2, 1, "\n1 mkdir /c = ok\ntrees\n"),
        (2, 1, 1, 1, "\n2 mkdir /d = ok\ntrees\n"),
    ];
    for (held, call, other, until, part) in table {
        let gate = FlagGate::new(held, call, other, until);
        let sink = output_at(&rt, alloc, &gate)?;
        let text = str::from_utf8(sink.bytes()).unwrap_or("");
        assert!(rt; text.contains(part), "{text}");
        assert!(rt; gate.holds() < 100_000_000);
    }
    Ok(())
}

#[test]
fn two_callers_meet(rt: HostRuntime) -> Result<(), Fail> {
    let gate = MeetGate::new(1, 0, 2, 0);
    let sink = output_at(&rt, rt.alloc(), &gate)?;
    assert!(rt; sink.bytes().ends_with(b"\nend\n"));
    assert!(rt; !gate.missed());
    Ok(())
}
