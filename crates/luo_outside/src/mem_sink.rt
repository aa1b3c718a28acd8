// A sink in memory.
ghost use Rattle.std.specs.Prelude.{◌≡◌, [], ◌<◌, ◌≤◌, ◌-◌, min, length, Some, IfOk, IsErr, OnOk, OnErr, Contains, ◌⊎◌, ◌↔◌, vec_len, vec_capacity};
ghost use Rattle.std.specs.Io.{WritesAtMost};
ghost use Rattle.std.specs.Io.KnownBytes.{WriteAppends};
ghost use Rattle.luo_outside.specs.Causes.{Rose, last_count, one_more};

use crate::calls::is_failing;
use crate::{Failed, Sink};
use luo_num::{Items, NoMemory};
use std::alloc::Global;

/// A sink in memory.
#[derive(Drop)]
pub struct MemSink {
    /// The most bytes that one write takes.
    pub most: usize,

    /// The writes that fail, numbered from 0.
    pub fails: Items<u64>,
    calls: u64,
    faults: u64,
    room: usize,
    taken: Vec<u8>,
    ghost some_most: { 0 < most },
    ghost has_room: { room ≤ vec_capacity taken },
    ghost counted: { faults ≤ last_count },
}

impl MemSink {
    ghost use Rattle.luo_outside.specs.MemSink.{taken_bytes};

    /// A sink with room for `room` bytes, with nothing taken and no call made. All memory is taken here.
    pub fn new(
        alloc: Global,
        most: usize,
        fails: Items<u64>,
        room: usize,
    ) -> Result<MemSink, NoMemory>
        requires { 0 < most }
        ensures told { IfOk result (λ s. ⟦<MemSink as Sink>⟧.taken s ≡ Some []) }
        ensures faults { IfOk result (λ s. ⟦<MemSink as Sink>⟧.faults s ≡ 0) }
        ensures given { IfOk result (λ s. (s.most ≡ most) × (s.fails ≡ fails) × (s.room ≡ room)) }
        ensures calls { IfOk result (λ s. s.calls ≡ 0) }
    {
        let taken = Vec::with_capacity(alloc, room)?;
        Ok(MemSink {
            most,
            fails,
            calls: 0,
            faults: 0,
            room,
            taken,
        })
    }

    /// The bytes taken so far.
    pub fn taken(&self) -> &[u8]
        ensures { result.now ≡ taken_bytes self.now }
    {
        &self.taken
    }
}

impl Sink for MemSink {
    ghost use Rattle.luo_outside.specs.MemSink.{SameGiven};

    ghost taken = { λ s. Some s.taken.items };

    ghost faults = { λ s. s.faults };

    ghost bounded = { λ s. s.counted };

    fn write(&mut self, piece: &[u8]) -> Result<usize, Failed>
        requires { 0 < length piece.now }
        ensures bound { WritesAtMost result piece.now }
        ensures some { IfOk result (λ n. 0 < n) }
        ensures bytes { WriteAppends (Some self.old.taken.items)
            (Some self.new.taken.items) result piece.now }
        ensures faults { self.old.faults ≤ self.new.faults }
        ensures cause { OnErr result (Rose self.old.faults self.new.faults) }

        // It fails in these cases alone, and only then is a fault counted.
        ensures fails { IsErr result
            ↔ (Contains self.old.fails self.old.calls ⊎ (self.old.room ≤ vec_len self.old.taken)) }
        ensures fault { OnErr result (self.new.faults ≡ one_more self.old.faults) }
        ensures no_fault { OnOk result (self.new.faults ≡ self.old.faults) }
        ensures calls { self.new.calls ≡ one_more self.old.calls }
        ensures count { IfOk result (λ n. n ≡ min (min (length piece.now) self.old.most)
            (self.old.room - vec_len self.old.taken)) }
        ensures given { SameGiven self.old self.new }
    {
        let call = self.calls;
        self.calls = call.saturating_add(1);
        if is_failing(&self.fails, call) || self.taken.len() >= self.room {
            self.faults = self.faults.saturating_add(1);
            return Err(Failed);
        }
        let count = piece.len().min(self.most).min(self.room - self.taken.len());
        // The room was taken when the sink was made, so this takes no memory.
        self.taken.extend_from_slice(&piece[..count]).unwrap();
        Ok(count)
    }
}
