// Files in memory.
ghost use Rattle.std.specs.Prelude.{◌≡◌, ℕ, List, ◌<◌, ◌≤◌, ◌+◌, ◌^◌, length, None, Some, IfOk, IsSome, IsErr, OnOk, OnErr, Contains, ◌⊎◌, ◌↔◌, MatchOption};
ghost use Rattle.std.specs.Io.{ReadsAtMost};
ghost use Rattle.std.specs.Io.KnownBytes.{ReadConsumes};
ghost use Rattle.luo_outside.specs.Causes.{Rose, NoneFell, last_count, one_more};
ghost use Rattle.luo_outside.specs.Memory.{content_of, name_at, left_at};

use crate::calls::is_failing;
use crate::{Failed, Files};
use luo_num::{Items, Text};

/// Files in memory, each a name and a content. Of two files of one name the first counts.
///
/// Its one count of faults stands for every name.
#[derive(Drop)]
pub struct MemFiles {
    /// The files.
    pub files: Items<(Text, Text)>,

    /// The most bytes that one read gives.
    pub piece: usize,

    /// The calls that fail. Calls of `find` and `read` are numbered from 0, together.
    pub fails: Items<u64>,
    calls: u64,
    faults: u64,
    place: Option<usize>,
    done: usize,
    ghost some_piece: { 0 < piece },
    ghost counted: { faults ≤ last_count },
}

impl MemFiles {
    ghost use Rattle.luo_outside.specs.MemFiles.{IsFresh};

    /// These files, with no name found and no call made. It takes no memory.
    pub fn new(files: Items<(Text, Text)>, piece: usize, fails: Items<u64>) -> MemFiles
        requires { 0 < piece }
        ensures fresh { IsFresh files piece fails result }
        ensures faults { (name : List ℕ) → ⟦<MemFiles as Files>⟧.faults result name ≡ 0 }
        ensures found { (name : List ℕ) → ⟦<MemFiles as Files>⟧.found result name → ⊥ }
        ensures named { (name : List ℕ)
            → ⟦<MemFiles as Files>⟧.named result name ≡ content_of files name }
    {
        MemFiles {
            files,
            piece,
            fails,
            calls: 0,
            faults: 0,
            place: None,
            done: 0,
        }
    }
}

impl Files for MemFiles {
    ghost use Rattle.luo_outside.specs.MemFiles.{SameGiven};

    ghost named = { λ f n. content_of f.files n };

    ghost found = { λ f n. name_at f.files f.place ≡ Some n };

    ghost left = { λ f. left_at f.files f.place f.done };

    ghost faults = { λ f n. f.faults };

    ghost bounded = { λ f n. f.counted };

    fn find(&mut self, name: &str) -> Result<(), Failed>
        ensures named { (n : List ℕ) → content_of self.new.files n ≡ content_of self.old.files n }
        ensures found { OnOk result (name_at self.new.files self.new.place ≡ Some name.now) }
        ensures left { OnOk result (left_at self.new.files self.new.place self.new.done
            ≡ content_of self.old.files name.now) }
        ensures faults { NoneFell (λ n. self.old.faults) (λ n. self.new.faults) }
        ensures cause { OnErr result (Rose self.old.faults self.new.faults) }

        // It fails in these cases alone, and only then is a fault counted.
        ensures fails { IsErr result
            ↔ (Contains self.old.fails self.old.calls
            ⊎ (content_of self.old.files name.now ≡ None)) }
        ensures fault { OnErr result (self.new.faults ≡ one_more self.old.faults) }
        ensures no_fault { OnOk result (self.new.faults ≡ self.old.faults) }
        ensures calls { self.new.calls ≡ one_more self.old.calls }
        ensures given { SameGiven self.old self.new }
    {
        let call = self.calls;
        self.calls = call.saturating_add(1);
        if is_failing(&self.fails, call) {
            self.faults = self.faults.saturating_add(1);
            return Err(Failed);
        }
        match place_of(self.files.as_slice(), name.as_bytes()) {
            Some(place) => {
                self.place = Some(place);
                self.done = 0;
                Ok(())
            }
            None => {
                self.faults = self.faults.saturating_add(1);
                Err(Failed)
            }
        }
    }

    fn read(&mut self, buf: &mut [u8]) -> Result<usize, Failed>
        requires room { 0 < length buf.old }
        requires open { (n : List ℕ) × (name_at self.old.files self.old.place ≡ Some n) }
        ensures bound { ReadsAtMost result buf.new }
        ensures bytes { ReadConsumes (left_at self.old.files self.old.place self.old.done)
            (left_at self.new.files self.new.place self.new.done) result buf.new }
        ensures named { (n : List ℕ) → content_of self.new.files n ≡ content_of self.old.files n }
        ensures found { (n : List ℕ)
            → ((name_at self.new.files self.new.place ≡ Some n)
            ↔ (name_at self.old.files self.old.place ≡ Some n)) }
        ensures faults { NoneFell (λ n. self.old.faults) (λ n. self.new.faults) }
        ensures cause { OnErr result
            ((n : List ℕ) → name_at self.old.files self.old.place ≡ Some n
            → Rose self.old.faults self.new.faults) }

        // It fails in these cases alone, and only then is a fault counted.
        ensures fails { IsErr result ↔ Contains self.old.fails self.old.calls }
        ensures fault { OnErr result (self.new.faults ≡ one_more self.old.faults) }
        ensures no_fault { OnOk result (self.new.faults ≡ self.old.faults) }
        ensures calls { self.new.calls ≡ one_more self.old.calls }
        ensures piece { IfOk result (λ n. n ≤ self.old.piece) }
        ensures given { SameGiven self.old self.new }
    {
        let call = self.calls;
        self.calls = call.saturating_add(1);
        if is_failing(&self.fails, call) {
            self.faults = self.faults.saturating_add(1);
            return Err(Failed);
        }
        let rest = rest_of(self.files.as_slice(), self.place, self.done);
        let count = rest.len().min(self.piece).min(buf.len());
        buf[..count].copy_from_slice(&rest[..count]);
        self.done += count;
        Ok(count)
    }
}

// The place of the first file of this name.
fn place_of(files: &[(Text, Text)], name: &[u8]) -> Option<usize>
    ensures { MatchOption result (content_of files.now name.now ≡ None) (λ i. (i < length files.now)
        × (name_at files.now (Some i) ≡ Some name.now)
        × (left_at files.now (Some i) 0 ≡ content_of files.now name.now)
        × IsSome (content_of files.now name.now)) }
{
    for (i, file) in files.iter().enumerate() {
        if file.0.as_slice() == name {
            return Some(i);
        }
    }
    None
}

// What is left of the file at a place.
fn rest_of(files: &[(Text, Text)], place: Option<usize>, done: usize) -> &[u8]
    requires { IsSome (name_at files.now place) }
    ensures rest { left_at files.now place done ≡ Some result.now }
    ensures fits { done + length result.now < 2 ^ 64 }
{
    let text = match place {
        Some(i) => files[i].1.as_slice(),
        None => unreachable!(),
    };
    if done < text.len() {
        &text[done..]
    } else {
        &[]
    }
}
