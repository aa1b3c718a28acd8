// A source and a sink that never fail.
ghost use Rattle.std.specs.Prelude.{◌≡◌, ℕ, List, ◌<◌, ◌+◌, ◌^◌, length, drop, None, Some, IfOk, IsErr, OnOk, IsTrue, ◌↔◌};
ghost use Rattle.std.specs.Io.{ReadsAtMost, WritesAtMost};
ghost use Rattle.std.specs.Io.KnownBytes.{ReadConsumes, WriteAppends};
ghost use Rattle.std.proofs.Common.{arith};

use crate::{Failed, Files, Sink};
use luo_num::{Items, Text};

/// One text under every name. No call fails.
#[derive(Drop)]
pub struct SureFiles {
    /// The text.
    pub text: Text,
    is_open: bool,
    done: usize,
}

impl SureFiles {
    /// This text under every name, with no name found. It takes no memory.
    pub fn new(text: Vec<u8>) -> SureFiles
        ensures text { result.text ≡ text.items }
        ensures faults { (name : List ℕ) → ⟦<SureFiles as Files>⟧.faults result name ≡ 0 }
        ensures found { (name : List ℕ) → ⟦<SureFiles as Files>⟧.found result name → ⊥ }
        ensures named { (name : List ℕ)
            → ⟦<SureFiles as Files>⟧.named result name ≡ Some text.items }
    {
        SureFiles {
            text: Items::from_vec(text),
            is_open: false,
            done: 0,
        }
    }
}

impl Files for SureFiles {
    ghost named = { λ f n. Some f.text };

    ghost found = { λ f n. IsTrue f.is_open };

    ghost left = { λ f. Some (drop f.done f.text) };

    ghost faults = { λ f n. 0 };

    ghost bounded = { λ f n. omega arith };

    fn find(&mut self, _name: &str) -> Result<(), Failed>
        ensures named { (n : List ℕ) → Some self.new.text ≡ Some self.old.text }
        ensures found { OnOk result (IsTrue self.new.is_open) }
        ensures left { OnOk result (Some (drop self.new.done self.new.text)
            ≡ Some self.old.text) }
        ensures sure { IsErr result → ⊥ }
    {
        self.is_open = true;
        self.done = 0;
        Ok(())
    }

    fn read(&mut self, buf: &mut [u8]) -> Result<usize, Failed>
        requires room { 0 < length buf.old }
        requires open { IsTrue self.old.is_open }
        ensures bound { ReadsAtMost result buf.new }
        ensures bytes { ReadConsumes (Some (drop self.old.done self.old.text))
            (Some (drop self.new.done self.new.text)) result buf.new }
        ensures named { (n : List ℕ) → Some self.new.text ≡ Some self.old.text }
        ensures found { IsTrue self.new.is_open ↔ IsTrue self.old.is_open }
        ensures sure { IsErr result → ⊥ }
    {
        let rest = rest_of(self.text.as_slice(), self.done);
        let count = rest.len().min(buf.len());
        buf[..count].copy_from_slice(&rest[..count]);
        self.done += count;
        Ok(count)
    }
}

// What is left of a text.
fn rest_of(text: &[u8], done: usize) -> &[u8]
    ensures rest { drop done text.now ≡ result.now }
    ensures fits { done + length result.now < 2 ^ 64 }
{
    if done < text.len() {
        &text[done..]
    } else {
        &[]
    }
}

/// It takes every piece whole, and keeps nothing. No call fails.
#[derive(Clone, Copy, Debug, Default)]
pub struct SureSink;

impl SureSink {
    /// A sink that takes everything. It takes no memory.
    pub fn new() -> SureSink
        ensures faults { ⟦<SureSink as Sink>⟧.faults result ≡ 0 }
    {
        SureSink
    }
}

impl Sink for SureSink {
    ghost taken = { λ s. None };

    ghost faults = { λ s. 0 };

    ghost bounded = { λ s. omega arith };

    fn write(&mut self, piece: &[u8]) -> Result<usize, Failed>
        requires { 0 < length piece.now }
        ensures bound { WritesAtMost result piece.now }
        ensures some { IfOk result (λ n. 0 < n) }
        ensures whole { IfOk result (λ n. n ≡ length piece.now) }
        ensures sure { IsErr result → ⊥ }
    {
        Ok(piece.len())
    }
}
