// A reader goes on by a byte.
ghost use Rattle.std.specs.Prelude.{◌≡◌, ◌≤◌, ◌<◌, ◌↔◌, IsTrue, Some, [], ◌∷◌, map, length, IfOk, IfErr};
ghost use Rattle.luo_num.specs.declared.limits.TheConstants.{NESTING_LIMIT};
ghost use Rattle.luo_model.specs.Tree.{Atom};
ghost use Rattle.luo_struct.specs.View.{tree_of};
ghost use Rattle.luo_read.specs.declared.reader.Stop.TheVariants.{NoMemory};
ghost use Rattle.luo_read.specs.Nesting.{Tuple, Collection};
ghost use Rattle.luo_read.specs.inner.Machine.{state, First, Weight, Label, Number, longer_number, longer_count, closed, settled, begun, passed, passed_from, step};
ghost use Rattle.luo_read.specs.inner.Readers.{open_of, opens_of, stage_of, state_of, Goes, Finishes};

use crate::GREATEST_NUMBER;
use crate::reader::{Frame, Reader, Stage, Stop};
use luo_num::limits::NESTING_LIMIT;
use luo_num::{Boxed, Items};
use luo_struct::Structure;
use std::alloc::Global;

// The number with a digit more after it, where it has no leading zero and is within six digits.
fn longer_number(number: Option<u32>, byte: u8) -> Option<u32>
    ensures { result ≡ longer_number number byte }
{
    if !byte.is_ascii_digit() {
        return None;
    }
    let digit = u32::from(byte - b'0');
    match number {
        None => Some(digit),
        Some(number) => {
            if number == 0 || number > GREATEST_NUMBER / 10 {
                return None;
            }
            Some(10 * number + digit)
        }
    }
}

// The same for a number that is at least 1.
fn longer_count(number: Option<u32>, byte: u8) -> Option<u32>
    ensures { result ≡ longer_count number byte }
{
    match longer_number(number, byte) {
        None => None,
        Some(longer) => {
            if longer == 0 {
                return None;
            }
            Some(longer)
        }
    }
}

// A reader after a structure, which ends the branches that it is inside of.
fn behind(alloc: Global, frames: Items<Frame>, s: Structure) -> Result<Reader, Stop>
    ensures ok { IfOk result (λ r. (state_of r ≡ closed (opens_of frames) (tree_of s))
        × (length r.frames ≤ length frames)) }
    ensures err { IfErr result (λ e. e ≡ NoMemory) }
{
    let mut frames = frames;
    let mut s = s;
    while let Some(frame) = frames.pop() {
        match frame {
            Frame::Branch { number } => {
                let inner = Boxed::new(alloc, s)?;
                s = Structure::Inj {
                    branch: number,
                    inner,
                };
            }
            Frame::Tuple { parts } => {
                frames.push(Frame::Tuple { parts })?;
                return Ok(Reader {
                    frames,
                    stage: Stage::Behind { s },
                });
            }
            Frame::Collection { parts } => {
                frames.push(Frame::Collection { parts })?;
                return Ok(Reader {
                    frames,
                    stage: Stage::Behind { s },
                });
            }
        }
    }
    Ok(Reader {
        frames,
        stage: Stage::Behind { s },
    })
}

// Whether as many are open as may be.
fn is_full(frames: &[Frame]) -> bool
    ensures { IsTrue result ↔ (length frames.now ≡ NESTING_LIMIT) }
{
    frames.len() == NESTING_LIMIT
}

// Opens one more.
fn opened(mut frames: Items<Frame>, frame: Frame, stage: Stage) -> Result<Reader, Stop>
    requires few { length frames ≤ NESTING_LIMIT }
    ensures { Goes (Some (state (open_of frame ∷ opens_of frames) (stage_of stage))) result }
{
    if is_full(frames.as_slice()) {
        return Err(Stop::Deep);
    }
    frames.push(frame)?;
    Ok(Reader { frames, stage })
}

// The first byte of a structure.
fn begun(alloc: Global, frames: Items<Frame>, byte: u8) -> Result<Reader, Stop>
    requires few { length frames ≤ NESTING_LIMIT }
    ensures { Goes (begun (opens_of frames) byte) result }
{
    let parts = Items::new(alloc);
    match byte {
        b'(' => opened(frames, Frame::Tuple { parts }, Stage::Begin),
        b'[' => opened(frames, Frame::Collection { parts }, Stage::First),
        b'a' => Ok(Reader {
            frames,
            stage: Stage::Weight { number: None },
        }),
        b'#' => Ok(Reader {
            frames,
            stage: Stage::Label { number: None },
        }),
        _ => match longer_count(None, byte) {
            Some(number) => Ok(Reader {
                frames,
                stage: Stage::Branch { number },
            }),
            None => Err(Stop::Unreadable),
        },
    }
}

// The byte after a part of a tuple, with the parts before it.
fn tuple_passed(
    alloc: Global,
    mut frames: Items<Frame>,
    mut parts: Items<Structure>,
    s: Structure,
    byte: u8,
) -> Result<Reader, Stop>
    requires few { length frames < NESTING_LIMIT }
    ensures { Goes (passed (Tuple (map tree_of parts) ∷ opens_of frames) (tree_of s) byte) result }
{
    match byte {
        b',' => {
            parts.push(s)?;
            frames.push(Frame::Tuple { parts })?;
            Ok(Reader {
                frames,
                stage: Stage::Begin,
            })
        }
        b')' => {
            if parts.is_empty() {
                return Err(Stop::Unreadable);
            }
            parts.push(s)?;
            behind(alloc, frames, Structure::Tup { parts })
        }
        _ => Err(Stop::Unreadable),
    }
}

// The byte after a component of a collection, with the components before it.
fn collection_passed(
    alloc: Global,
    mut frames: Items<Frame>,
    mut parts: Items<Structure>,
    s: Structure,
    byte: u8,
) -> Result<Reader, Stop>
    requires few { length frames < NESTING_LIMIT }
    ensures { Goes (passed (Collection (map tree_of parts) ∷ opens_of frames) (tree_of s) byte)
        result }
{
    match byte {
        b',' => {
            parts.push(s)?;
            frames.push(Frame::Collection { parts })?;
            Ok(Reader {
                frames,
                stage: Stage::Begin,
            })
        }
        b']' => {
            parts.push(s)?;
            behind(alloc, frames, Structure::Coll { parts })
        }
        _ => Err(Stop::Unreadable),
    }
}

// The byte after a structure.
fn passed(alloc: Global, mut frames: Items<Frame>, s: Structure, byte: u8) -> Result<Reader, Stop>
    requires few { length frames ≤ NESTING_LIMIT }
    ensures { Goes (passed (opens_of frames) (tree_of s) byte) result }
{
    let Some(top) = frames.pop() else {
        return Err(Stop::Unreadable);
    };
    match top {
        Frame::Branch { .. } => Err(Stop::Unreadable),
        Frame::Tuple { parts } => tuple_passed(alloc, frames, parts, s, byte),
        Frame::Collection { parts } => collection_passed(alloc, frames, parts, s, byte),
    }
}

// The byte after an atom whose number is read.
fn atom_passed(
    alloc: Global,
    frames: Items<Frame>,
    weight: u32,
    label: u32,
    byte: u8,
) -> Result<Reader, Stop>
    requires few { length frames ≤ NESTING_LIMIT }
    ensures { Goes (passed_from (closed (opens_of frames) (Atom weight label)) byte) result }
{
    let Reader { frames, stage } = behind(alloc, frames, Structure::Atom { weight, label })?;
    match stage {
        Stage::Behind { s } => passed(alloc, frames, s, byte),
        _ => Err(Stop::Unreadable),
    }
}

// The first byte inside the square brackets of a collection.
fn first(alloc: Global, mut frames: Items<Frame>, byte: u8) -> Result<Reader, Stop>
    requires few { length frames ≤ NESTING_LIMIT }
    ensures { Goes (step (state (opens_of frames) First) byte) result }
{
    if byte != b']' {
        return begun(alloc, frames, byte);
    }
    let Some(top) = frames.pop() else {
        return Err(Stop::Unreadable);
    };
    match top {
        Frame::Branch { .. } => Err(Stop::Unreadable),
        Frame::Tuple { .. } => Err(Stop::Unreadable),
        Frame::Collection { parts } => behind(alloc, frames, Structure::Coll { parts }),
    }
}

// The byte inside a weight or after it.
fn weighed(
    alloc: Global,
    frames: Items<Frame>,
    number: Option<u32>,
    byte: u8,
) -> Result<Reader, Stop>
    requires few { length frames ≤ NESTING_LIMIT }
    ensures { Goes (step (state (opens_of frames) (Weight number)) byte) result }
{
    match longer_number(number, byte) {
        Some(longer) => Ok(Reader {
            frames,
            stage: Stage::Weight {
                number: Some(longer),
            },
        }),
        None => match number {
            Some(weight) => atom_passed(alloc, frames, weight, 0, byte),
            None => Err(Stop::Unreadable),
        },
    }
}

// The byte inside a label or after it.
fn labelled(
    alloc: Global,
    frames: Items<Frame>,
    number: Option<u32>,
    byte: u8,
) -> Result<Reader, Stop>
    requires few { length frames ≤ NESTING_LIMIT }
    ensures { Goes (step (state (opens_of frames) (Label number)) byte) result }
{
    match longer_count(number, byte) {
        Some(longer) => Ok(Reader {
            frames,
            stage: Stage::Label {
                number: Some(longer),
            },
        }),
        None => match number {
            Some(label) => atom_passed(alloc, frames, 1, label, byte),
            None => Err(Stop::Unreadable),
        },
    }
}

// The byte inside the number of a branch or after it.
fn numbered(frames: Items<Frame>, number: u32, byte: u8) -> Result<Reader, Stop>
    requires few { length frames ≤ NESTING_LIMIT }
    ensures { Goes (step (state (opens_of frames) (Number number)) byte) result }
{
    if byte == b':' {
        return opened(frames, Frame::Branch { number }, Stage::Begin);
    }
    match longer_number(Some(number), byte) {
        Some(number) => Ok(Reader {
            frames,
            stage: Stage::Branch { number },
        }),
        None => Err(Stop::Unreadable),
    }
}

/// The text read one byte further.
pub(crate) fn step(alloc: Global, reader: Reader, byte: u8) -> Result<Reader, Stop>
    requires few { length reader.frames ≤ NESTING_LIMIT }
    ensures { Goes (step (state_of reader) byte) result }
{
    let Reader { frames, stage } = reader;
    match stage {
        Stage::Begin => begun(alloc, frames, byte),
        Stage::First => first(alloc, frames, byte),
        Stage::Weight { number } => weighed(alloc, frames, number, byte),
        Stage::Label { number } => labelled(alloc, frames, number, byte),
        Stage::Branch { number } => numbered(frames, number, byte),
        Stage::Behind { s } => passed(alloc, frames, s, byte),
    }
}

// A reader after the atom whose number is read, where there is one.
fn settled(alloc: Global, reader: Reader) -> Result<Reader, Stop>
    ensures ok { IfOk result (λ r. state_of r ≡ settled (state_of reader)) }
    ensures err { IfErr result (λ e. e ≡ NoMemory) }
{
    let Reader { frames, stage } = reader;
    match stage {
        Stage::Weight {
            number: Some(weight),
        } => { behind(alloc, frames, Structure::Atom { weight, label: 0 }) }
        Stage::Label {
            number: Some(label),
        } => { behind(alloc, frames, Structure::Atom { weight: 1, label }) }
        stage => Ok(Reader { frames, stage }),
    }
}

/// The structure of a text that ends here, where it does.
pub(crate) fn finished(alloc: Global, reader: Reader) -> Result<Structure, Stop>
    ensures { Finishes (state_of reader) result }
{
    let Reader { frames, stage } = settled(alloc, reader)?;
    match stage {
        Stage::Behind { s } => {
            if frames.is_empty() {
                Ok(s)
            } else {
                Err(Stop::Unreadable)
            }
        }
        _ => Err(Stop::Unreadable),
    }
}
