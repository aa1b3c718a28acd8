// Two pieces of an audit at their gate at one time.
use crate::tests::PERMUTATIONS;
use luo_num::{Items, Text};
use luo_outside::{Gate, MemFiles, MemSink, OpenGate};
use luo_top::{Status, luo};
use std::alloc::Global;
use std::process::Abort;
use std::sync::atomic::{AtomicBool, Ordering};
use std::test::Fail;
use std::thread::Threads;

/// How often a piece looks for the other's flag at most.
const LOOKS: u32 = 100_000_000;

/// Each of two pieces raises its flag, which stays up, and then looks for the other's.
#[derive(Drop)]
struct Flags {
    first: AtomicBool,
    second: AtomicBool,
    missed: AtomicBool,
}

impl Flags {
    fn new() -> Self {
        Flags {
            first: AtomicBool::new(false),
            second: AtomicBool::new(false),
            missed: AtomicBool::new(false),
        }
    }

    fn raise_and_look(&self, mine: &AtomicBool, other: &AtomicBool) {
        mine.store(true, Ordering::SeqCst);
        for _ in 0..LOOKS {
            if other.load(Ordering::SeqCst) {
                return;
            }
        }
        self.missed.store(true, Ordering::SeqCst);
    }

    /// Both pieces passed, and no pass missed the other's flag.
    fn met(&self) -> bool {
        self.first.load(Ordering::SeqCst)
            && self.second.load(Ordering::SeqCst)
            && !self.missed.load(Ordering::SeqCst)
    }
}

impl Gate for Flags {
    fn pass(&self, piece: usize) {
        if piece == 0 {
            self.raise_and_look(&self.first, &self.second);
        } else {
            self.raise_and_look(&self.second, &self.first);
        }
    }
}

// What a run over this gate sends, where it is done.
fn written<R: Threads + Sync + Abort, G: Gate>(
    rt: &R,
    alloc: Global,
    words: &[&str],
    gate: &G,
) -> Result<MemSink, Fail> {
    let mut list = Vec::new(alloc);
    for word in words {
        list.push(String::from_str(alloc, word)?)?;
    }
    let mut held = Items::new(alloc);
    held.push((
        Text::from_slice(alloc, b"perm.adl")?,
        Text::from_slice(alloc, PERMUTATIONS)?,
    ))?;
    let mut files = MemFiles::new(held, 64, Items::new(alloc));
    let mut out = MemSink::new(alloc, 1000, Items::new(alloc), 1000)?;
    let mut err = MemSink::new(alloc, 100, Items::new(alloc), 100)?;
    let status = luo(rt, alloc, &list, &mut files, &mut out, &mut err, gate);
    assert_eq!(rt; status, Status::Done);
    assert_eq!(rt; err.taken(), b"".as_slice());
    Ok(out)
}

#[test]
fn both_pieces_of_an_audit_are_at_the_gate_at_one_time(rt: HostRuntime) -> Result<(), Fail> {
    let alloc = rt.alloc();
    let flags = Flags::new();
    let audited = written(&rt, alloc, &["audit", "perm.adl", "6", "2"], &flags)?;
    assert!(rt; flags.met());
    let analysed = written(&rt, alloc, &["analyse", "perm.adl", "6"], &OpenGate)?;
    assert_eq!(rt; audited.taken(), analysed.taken());
    Ok(())
}
