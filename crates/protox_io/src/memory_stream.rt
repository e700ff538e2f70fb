ghost use Rattle.std.specs.Prelude.{◌≡◌, ◌≤◌, ◌<◌, ◌+◌, ◌-◌, ◌^◌, ◌==◌, ◌++◌, [], true, false, if◌then◌else◌, is_err, IfOk, OnErr, IfErr, IsTrue, length, take};
ghost use Rattle.protox_io.specs.Count.{Rose, Later, raised, counted};
ghost use Rattle.protox_io.specs.Memory.{is_call};
ghost use Rattle.protox_io.specs.Sink.{RefusesFor, has_failed, is_short};

use crate::{Failed, Sink, SinkError, Source};
use pbx_wire::Blob;
use std::alloc::Global;
use std::marker::Model;

/// A source of bytes in memory, and the call that fails.
#[derive(Drop)]
pub struct MemorySource {
    bytes: Blob,
    at: usize,
    fail_at: Option<u64>,
    calls: u64,
    faults: u64,
}

impl Model for MemorySource {
    ghost use Rattle.std.specs.Prelude.{drop};
    ghost use Rattle.protox_io.specs.Memory.{SourceState};

    ghost Value = { SourceState };

    ghost view = { λ s. record { left = drop s.at s.bytes; fail_at = s.fail_at; calls = s.calls; faults = s.faults } };
}

impl MemorySource {
    /// A source of these bytes. Calls of `read` are counted from 0; past `u64::MAX` each call has that number.
    pub fn new(bytes: Blob, fail_at: Option<u64>) -> Self
        ensures left { result.left ≡ bytes }
        ensures fail_at { result.fail_at ≡ fail_at }
        ensures calls { result.calls ≡ 0 }
        ensures faults { result.faults ≡ 0 }
    {
        MemorySource {
            bytes,
            at: 0,
            fail_at,
            calls: 0,
            faults: 0,
        }
    }
}

impl Source for MemorySource {
    ghost input = { λ s. record { tells = true; left = s.left } };

    ghost count = { λ s. counted s.faults };

    fn read(&mut self, buf: &mut [u8]) -> Result<usize, Failed>
        ensures within { IfOk result (λ n. n ≤ length buf.new) }
        ensures told { IfOk result (λ n. self.old.left ≡ take n buf.new ++ self.new.left) }
        ensures some { IfOk result (λ n. 0 < length buf.old → 0 < length self.old.left → 0 < n) }
        ensures fails { is_err result ≡ is_call self.old.fail_at self.old.calls }
        ensures refused { OnErr result (self.new.left ≡ self.old.left) }
        ensures keeps_buf { OnErr result (buf.new ≡ buf.old) }
        ensures calls { self.new.calls ≡ raised self.old.calls }
        ensures counts { self.new.faults ≡ (if is_err result then raised self.old.faults else self.old.faults) }
        ensures keeps_fail_at { self.new.fail_at ≡ self.old.fail_at }
        ensures cause { OnErr result (Rose (counted self.old.faults) (counted self.new.faults)) }
        ensures later { Later (counted self.old.faults) (counted self.new.faults) }
    {
        let call = self.calls;
        self.calls = self.calls.saturating_add(1);
        if self.fail_at == Some(call) {
            self.faults = self.faults.saturating_add(1);
            return Err(Failed);
        }
        let bytes = self.bytes.as_slice();
        if self.at >= bytes.len() {
            return Ok(0);
        }
        let (_, rest) = bytes.split_at(self.at);
        let n = rest.len().min(buf.len());
        buf[..n].copy_from_slice(&rest[..n]);
        self.at += n;
        Ok(n)
    }

    fn spent(&self) -> bool {
        self.faults == u64::MAX
    }
}

/// A sink of bytes in memory, and the call that fails.
#[derive(Drop)]
pub struct MemorySink {
    bytes: Blob,
    fail_at: Option<u64>,
    calls: u64,
    faults: u64,
    short: bool,
}

impl Model for MemorySink {
    ghost use Rattle.protox_io.specs.Memory.{SinkState};

    ghost Value = { SinkState };

    ghost view = { λ s. record { held = s.bytes; fail_at = s.fail_at; calls = s.calls; faults = s.faults; short = s.short } };
}

impl MemorySink {
    /// An empty sink. Calls of `write` are counted from 0; past `u64::MAX` each call has that number.
    pub fn new(alloc: Global, fail_at: Option<u64>) -> Self
        ensures held { result.held ≡ [] }
        ensures fail_at { result.fail_at ≡ fail_at }
        ensures calls { result.calls ≡ 0 }
        ensures faults { result.faults ≡ 0 }
        ensures short { result.short ≡ false }
    {
        MemorySink {
            bytes: Blob::new(alloc),
            fail_at,
            calls: 0,
            faults: 0,
            short: false,
        }
    }

    /// The bytes that were written.
    pub fn held(&self) -> &[u8]
        ensures { result.now ≡ self.now.held }
    {
        self.bytes.as_slice()
    }
}

impl Sink for MemorySink {
    ghost output = { λ s. record { tells = true; held = s.held; short = s.short } };

    ghost count = { λ s. counted s.faults };

    fn write(&mut self, bytes: &[u8]) -> Result<usize, SinkError>
        ensures whole { IfOk result (λ n. n ≡ length bytes.now) }
        ensures told { IfOk result (λ n. self.new.held ≡ self.old.held ++ take n bytes.now) }
        ensures refused { OnErr result (self.new.held ≡ self.old.held) }
        ensures fails { has_failed result ≡ is_call self.old.fail_at self.old.calls }
        ensures calls { self.new.calls ≡ raised self.old.calls }
        ensures counts { self.new.faults ≡ (if has_failed result then raised self.old.faults else self.old.faults) }
        ensures short { IsTrue self.old.short → IsTrue self.new.short }
        ensures shorts { self.new.short ≡ (if is_short result then true else self.old.short) }
        ensures keeps_fail_at { self.new.fail_at ≡ self.old.fail_at }
        ensures within { IfOk result (λ n. n ≤ length bytes.now) }
        ensures some { IfOk result (λ n. 0 < length bytes.now → 0 < n) }
        ensures cause { IfErr result (RefusesFor (Rose (counted self.old.faults) (counted self.new.faults)) (IsTrue self.new.short)) }
        ensures later { Later (counted self.old.faults) (counted self.new.faults) }
    {
        let call = self.calls;
        self.calls = self.calls.saturating_add(1);
        if self.fail_at == Some(call) {
            self.faults = self.faults.saturating_add(1);
            return Err(SinkError::Failed);
        }
        match self.bytes.append(bytes) {
            Ok(()) => Ok(bytes.len()),
            Err(_) => {
                self.short = true;
                Err(SinkError::NoMemory)
            }
        }
    }

    fn spent(&self) -> bool {
        self.faults == u64::MAX
    }
}
