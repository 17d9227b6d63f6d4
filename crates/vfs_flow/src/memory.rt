// Sources and sinks in memory.
ghost use Rattle.std.specs.Prelude.{◌≡◌, ◌≢◌, ◌≤◌, ◌<◌, ◌-◌, ◌↔◌, [], length, min, Some};
ghost use Rattle.std.specs.List.{Contains};
ghost use Rattle.vfs_flow.specs.Faults.{Rose, next_word};
ghost use Rattle.vfs_flow.specs.Reads.{Reads, IfGot, faults_after_read};
ghost use Rattle.vfs_flow.specs.Writes.{Writes, IfPut, room_after, faults_after_write};

use crate::{Got, Put, Sink, Source};
use std::alloc::Global;
use std::marker::Model;

/// Gives all of its bytes, as many at a call as are asked for, and never fails. Contracts see it as
/// the bytes that are left.
#[derive(Drop)]
pub struct SureSource {
    bytes: Vec<u8>,
    at: usize,
}

impl Model for SureSource {
    ghost use Rattle.std.specs.Prelude.{List, ℕ, drop, vec_len, ◌≤◌};

    ghost Value = { List ℕ };

    ghost view = { λ s. drop s.at s.bytes.items };

    ghost invariant = { λ s. s.at ≤ vec_len s.bytes };
}

impl SureSource {
    /// A source of these bytes.
    pub fn new(bytes: Vec<u8>) -> Self
        ensures { result ≡ bytes.items }
    {
        SureSource { bytes, at: 0 }
    }
}

impl Source for SureSource {
    ghost left = { λ s. Some s };

    ghost faults = { λ _. 0 };

    fn read(&mut self, into: &mut Vec<u8>, most: usize) -> Got
        requires { 1 ≤ most }
        ensures bytes { Reads most (Some self.old) (Some self.new) into.old.items into.new.items result }
        ensures never_fails { result ≢ Got.Failed }
        ensures end { (result ≡ Got.End) ↔ (self.old ≡ []) }
        ensures piece { IfGot result (λ n. n ≡ min most (length self.old)) }
    {
        let n = most.min(self.bytes.len() - self.at);
        if n == 0 {
            return Got::End;
        }
        match into.extend_from_slice(&self.bytes[self.at..self.at + n]) {
            Ok(()) => {
                self.at += n;
                Got::Some { n }
            }
            Err(_) => Got::NoMemory,
        }
    }
}

/// Gives its bytes in pieces of a greatest length, and fails at the calls that are listed.
#[derive(Drop)]
pub struct MemSource {
    inner: SureSource,
    piece: usize,
    fails: Vec<u64>,
    turn: u64,
    faults: u64,
}

impl Model for MemSource {
    ghost use Rattle.std.specs.Prelude.{◌<◌};
    ghost use Rattle.vfs_flow.specs.Supply.{Supply};

    ghost Value = { Supply };

    ghost view = { λ s. record {
      left = s.inner;
      piece = s.piece;
      fails = s.fails.items;
      turn = s.turn;
      faults = s.faults;
    } };

    ghost invariant = { λ s. 0 < s.piece };
}

impl MemSource {
    /// A source of these bytes in pieces of at most `piece` of them. The calls in `fails`, counted
    /// from 1, fail and give nothing.
    pub fn new(bytes: Vec<u8>, piece: usize, fails: Vec<u64>) -> Self
        requires { 1 ≤ piece }
        ensures { result ≡ record {
          left = bytes.items;
          piece = piece;
          fails = fails.items;
          turn = 0;
          faults = 0;
        } }
    {
        MemSource {
            inner: SureSource::new(bytes),
            piece,
            fails,
            turn: 0,
            faults: 0,
        }
    }
}

impl Source for MemSource {
    ghost left = { λ s. Some s.left };

    ghost faults = { λ s. s.faults };

    /// Fails exactly where this call is listed. The number of calls stands still at the greatest
    /// word.
    fn read(&mut self, into: &mut Vec<u8>, most: usize) -> Got
        requires { 1 ≤ most }
        ensures bytes { Reads most (Some self.old.left) (Some self.new.left)
            into.old.items into.new.items result }
        ensures never_falls { self.old.faults ≤ self.new.faults }
        ensures cause { result ≡ Got.Failed → Rose self.old.faults self.new.faults }

        ensures turn { self.new.turn ≡ next_word self.old.turn }
        ensures kept { (self.new.piece ≡ self.old.piece) × (self.new.fails ≡ self.old.fails) }
        ensures failed { (result ≡ Got.Failed) ↔ Contains self.old.fails self.new.turn }
        ensures end { (result ≡ Got.End)
            ↔ ((¬ Contains self.old.fails self.new.turn) × (self.old.left ≡ [])) }
        ensures piece { IfGot result
            (λ n. n ≡ min (min most self.old.piece) (length self.old.left)) }
        ensures count { self.new.faults ≡ faults_after_read self.old.faults result }
    {
        self.turn = self.turn.saturating_add(1);
        if self.fails.contains(&self.turn) {
            self.faults = self.faults.saturating_add(1);
            return Got::Failed;
        }
        self.inner.read(into, most.min(self.piece))
    }
}

/// Takes all that it is given and never fails. Contracts see it as the bytes that were written.
#[derive(Drop)]
pub struct SureSink {
    bytes: Vec<u8>,
}

impl Model for SureSink {
    ghost use Rattle.std.specs.Prelude.{List, ℕ};

    ghost Value = { List ℕ };

    ghost view = { λ s. s.bytes.items };
}

impl SureSink {
    /// A sink that holds nothing.
    pub fn new(alloc: Global) -> Self
        ensures { result ≡ [] }
    {
        SureSink {
            bytes: Vec::new(alloc),
        }
    }

    /// What was written.
    pub fn bytes(&self) -> &[u8]
        ensures { result.now ≡ self.now }
    {
        &self.bytes
    }
}

impl Sink for SureSink {
    ghost written = { λ s. Some s };

    ghost faults = { λ _. 0 };

    fn write(&mut self, bytes: &[u8]) -> Put
        requires { 0 < length bytes.now }
        ensures bytes { Writes (Some self.old) (Some self.new) bytes.now result }
        ensures never_fails { result ≢ Put.Failed }
        ensures whole { IfPut result (λ n. n ≡ length bytes.now) }
    {
        match self.bytes.extend_from_slice(bytes) {
            Ok(()) => Put::Some { n: bytes.len() },
            Err(_) => Put::NoMemory,
        }
    }
}

/// Takes a number of bytes, and fails from then on.
#[derive(Drop)]
pub struct MemSink {
    inner: SureSink,
    room: usize,
    faults: u64,
}

impl Model for MemSink {
    ghost use Rattle.vfs_flow.specs.Intake.{Intake};

    ghost Value = { Intake };

    ghost view = { λ s. record { written = s.inner; room = s.room; faults = s.faults } };
}

impl MemSink {
    /// A sink that holds nothing and takes `room` bytes. Each call after that fails.
    pub fn new(alloc: Global, room: usize) -> Self
        ensures { result ≡ record { written = []; room = room; faults = 0 } }
    {
        MemSink {
            inner: SureSink::new(alloc),
            room,
            faults: 0,
        }
    }

    /// What was written.
    pub fn bytes(&self) -> &[u8]
        ensures { result.now ≡ self.now.written }
    {
        self.inner.bytes()
    }
}

impl Sink for MemSink {
    ghost written = { λ s. Some s.written };

    ghost faults = { λ s. s.faults };

    /// Fails exactly where no room is left.
    fn write(&mut self, bytes: &[u8]) -> Put
        requires { 0 < length bytes.now }
        ensures bytes { Writes (Some self.old.written) (Some self.new.written) bytes.now result }
        ensures never_falls { self.old.faults ≤ self.new.faults }
        ensures cause { result ≡ Put.Failed → Rose self.old.faults self.new.faults }

        ensures failed { (result ≡ Put.Failed) ↔ (self.old.room ≡ 0) }
        ensures taken { IfPut result (λ n. n ≡ min (length bytes.now) self.old.room) }
        ensures room { self.new.room ≡ room_after self.old.room result }
        ensures count { self.new.faults ≡ faults_after_write self.old.faults result }
    {
        let n = bytes.len().min(self.room);
        if n == 0 {
            self.faults = self.faults.saturating_add(1);
            return Put::Failed;
        }
        let put = self.inner.write(&bytes[..n]);
        if put == (Put::Some { n }) {
            self.room -= n;
        }
        put
    }
}
