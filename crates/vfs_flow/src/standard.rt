// Sources and sinks over std's readers and writers, with a count that rises at each error.
ghost use Rattle.std.specs.Prelude.{◌≡◌, ◌≢◌, ◌≤◌, ◌<◌, length};
ghost use Rattle.std.specs.Io.{ReadsAtMost, WritesAtMost};
ghost use Rattle.std.specs.Io.KnownBytes.{ReadConsumes, WriteAppends};
ghost use Rattle.vfs_flow.specs.Faults.{Rose};
ghost use Rattle.vfs_flow.specs.Reads.{Reads, faults_after_read};
ghost use Rattle.vfs_flow.specs.Writes.{Writes, faults_after_write};

use crate::{Got, Put, Sink, Source};
use std::io;
use std::io::{ErrorKind, Read, Write};
use std::marker::Model;

/// The most bytes that are asked of a reader at once.
const PIECE: usize = 4096;

/// How often a call that a signal interrupted is made again, before the interruption counts as a
/// fault.
const RETRIES: u32 = 64;

// One read, made again where a signal interrupts it.
fn read_again<R: Read>(reader: &mut R, buf: &mut [u8]) -> io::Result<usize>
    ensures bound { ReadsAtMost result buf.new }
    ensures bytes { ReadConsumes (R.remaining reader.old) (R.remaining reader.new) result buf.new }
{
    for _ in 0..RETRIES {
        match reader.read(buf) {
            Err(e) if e.kind() == ErrorKind::Interrupted => {}
            answer => return answer,
        }
    }
    reader.read(buf)
}

// One write, made again where a signal interrupts it.
fn write_again<W: Write>(writer: &mut W, buf: &[u8]) -> io::Result<usize>
    ensures bound { WritesAtMost result buf.now }
    ensures bytes { WriteAppends (W.contents writer.old) (W.contents writer.new) result buf.now }
{
    for _ in 0..RETRIES {
        match writer.write(buf) {
            Err(e) if e.kind() == ErrorKind::Interrupted => {}
            answer => return answer,
        }
    }
    writer.write(buf)
}

/// A source over one of std's readers, as the standard input. A read that a signal interrupts is
/// made again, up to 64 times. Every other error, and a read that is interrupted once more, counts
/// as a fault.
#[derive(Drop)]
pub struct StdSource<R: Read> {
    inner: R,
    faults: u64,
}

impl<R: Read> Model for StdSource<R> {
    ghost use Rattle.vfs_flow.specs.Known.{Known};

    ghost Value = { Known };

    ghost view = { λ s. record { bytes = R.remaining s.inner; faults = s.faults } };
}

impl<R: Read> StdSource<R> {
    /// A source of what the reader gives.
    pub fn new(inner: R) -> Self
        ensures { result ≡ record { bytes = R.remaining inner; faults = 0 } }
    {
        StdSource { inner, faults: 0 }
    }
}

impl<R: Read> Source for StdSource<R> {
    ghost left = { λ s. s.bytes };

    ghost faults = { λ s. s.faults };

    /// Asks the reader for at most 4,096 bytes.
    fn read(&mut self, into: &mut Vec<u8>, most: usize) -> Got
        requires { 1 ≤ most }
        ensures bytes { Reads most self.old.bytes self.new.bytes into.old.items into.new.items result }
        ensures never_falls { self.old.faults ≤ self.new.faults }
        ensures cause { result ≡ Got.Failed → Rose self.old.faults self.new.faults }
        ensures count { self.new.faults ≡ faults_after_read self.old.faults result }
    {
        let mut piece = [0; PIECE];
        let most = most.min(PIECE);
        // The room comes first: what the reader has given can't be put back.
        if into.reserve(most).is_err() {
            return Got::NoMemory;
        }
        match read_again(&mut self.inner, &mut piece[..most]) {
            Ok(0) => Got::End,
            Ok(n) => {
                into.extend_from_slice(&piece[..n]).unwrap();
                Got::Some { n }
            }
            Err(_) => {
                self.faults = self.faults.saturating_add(1);
                Got::Failed
            }
        }
    }
}

/// A sink over one of std's writers, as the standard output. It calls no `flush`, so that bytes
/// which count as taken have left the program only where the writer keeps none back: std's standard
/// output keeps none. A write that a signal interrupts is made again, up to 64 times. Every other
/// error, a write that is interrupted once more, and a write that takes nothing count as faults.
#[derive(Drop)]
pub struct StdSink<W: Write> {
    inner: W,
    faults: u64,
}

impl<W: Write> Model for StdSink<W> {
    ghost use Rattle.vfs_flow.specs.Known.{Known};

    ghost Value = { Known };

    ghost view = { λ s. record { bytes = W.contents s.inner; faults = s.faults } };
}

impl<W: Write> StdSink<W> {
    /// A sink into the writer.
    pub fn new(inner: W) -> Self
        ensures { result ≡ record { bytes = W.contents inner; faults = 0 } }
    {
        StdSink { inner, faults: 0 }
    }
}

impl<W: Write> Sink for StdSink<W> {
    ghost written = { λ s. s.bytes };

    ghost faults = { λ s. s.faults };

    /// Takes no memory.
    fn write(&mut self, bytes: &[u8]) -> Put
        requires { 0 < length bytes.now }
        ensures bytes { Writes self.old.bytes self.new.bytes bytes.now result }
        ensures never_falls { self.old.faults ≤ self.new.faults }
        ensures cause { result ≡ Put.Failed → Rose self.old.faults self.new.faults }
        ensures count { self.new.faults ≡ faults_after_write self.old.faults result }
        ensures no_memory { result ≢ Put.NoMemory }
    {
        match write_again(&mut self.inner, bytes) {
            Ok(n) if n > 0 => Put::Some { n },
            _ => {
                self.faults = self.faults.saturating_add(1);
                Put::Failed
            }
        }
    }
}
