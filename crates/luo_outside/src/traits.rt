// A source of files and a sink of bytes, by what they tell and by how often they failed.
ghost use Rattle.std.specs.Prelude.{◌≡◌, ℕ, List, ◌<◌, ◌≤◌, ◌↔◌, length, IfOk, OnOk, OnErr};
ghost use Rattle.std.specs.declared.option.Option.{Option};
ghost use Rattle.std.specs.Io.{ReadsAtMost, WritesAtMost};
ghost use Rattle.std.specs.Io.KnownBytes.{ReadConsumes, WriteAppends};
ghost use Rattle.luo_outside.specs.Causes.{Rose, NoneFell, last_count};

use crate::Failed;

/// A source of files, each found by its name and then read piece by piece.
pub trait Files {
    /// The content of the file of a name, where it is told. No call changes it.
    ghost named: { Self → List ℕ → Option (List ℕ) };

    /// A name counts as found.
    ghost found: { Self → List ℕ → Type 0 };

    /// What is unread of the file that was found last, where it is told.
    ghost left: { Self → Option (List ℕ) };

    /// How often the file of a name failed, a count of at most `2^64 - 1` that stays there once it is there.
    ghost faults: { Self → List ℕ → ℕ };

    /// Finds the file of this name, to be read from its first byte. `Failed` comes only where the count
    /// of this name rose.
    fn find(&mut self, name: &str) -> Result<(), Failed>
        ensures named { (n : List ℕ) → named self.new n ≡ named self.old n }
        ensures found { OnOk result (found self.new name.now) }
        ensures left { OnOk result (left self.new ≡ named self.old name.now) }
        ensures faults { NoneFell (faults self.old) (faults self.new) }
        ensures cause { OnErr result (Rose (faults self.old name.now) (faults self.new name.now)) };

    /// Moves the next bytes of the file that was found last to the start of `buf`, and answers how many:
    /// 0 only where none is left. `Failed` comes only where the count of each found name rose.
    fn read(&mut self, buf: &mut [u8]) -> Result<usize, Failed>
        requires room { 0 < length buf.old }
        requires open { (n : List ℕ) × found self.old n }
        ensures bound { ReadsAtMost result buf.new }
        ensures bytes { ReadConsumes (left self.old) (left self.new) result buf.new }
        ensures named { (n : List ℕ) → named self.new n ≡ named self.old n }
        ensures found { (n : List ℕ) → (found self.new n ↔ found self.old n) }
        ensures faults { NoneFell (faults self.old) (faults self.new) }
        ensures cause { OnErr result
            ((n : List ℕ) → found self.old n → Rose (faults self.old n) (faults self.new n)) };

    /// No count is past the last value.
    ghost bounded: { (files : Self) (name : List ℕ) → faults files name ≤ last_count };
}

/// A sink of bytes.
pub trait Sink {
    /// The bytes taken so far, where they are told.
    ghost taken: { Self → Option (List ℕ) };

    /// How often the sink failed, a count of at most `2^64 - 1` that stays there once it is there.
    ghost faults: { Self → ℕ };

    /// Takes a prefix of `piece`, of at least one byte, and answers its length. `Failed` comes only where
    /// the count rose, and then nothing was taken.
    fn write(&mut self, piece: &[u8]) -> Result<usize, Failed>
        requires { 0 < length piece.now }
        ensures bound { WritesAtMost result piece.now }
        ensures some { IfOk result (λ n. 0 < n) }
        ensures bytes { WriteAppends (taken self.old) (taken self.new) result piece.now }
        ensures faults { faults self.old ≤ faults self.new }
        ensures cause { OnErr result (Rose (faults self.old) (faults self.new)) };

    /// The count is not past the last value.
    ghost bounded: { (sink : Self) → faults sink ≤ last_count };
}
