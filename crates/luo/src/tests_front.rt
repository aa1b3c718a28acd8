// What no contract of the crates below says: messages, that a sink is given all that is left, and what threads may share.
use luo_num::{Items, NoMemory, Text};
use luo_outside::{Gate, MemSink, OpenGate, ReadError, Sink, send};
use luo_scan::ScanError;
use luo_syntax::SyntaxError;
use std::test::Fail;

#[test]
fn errors_show_their_names(rt: HostRuntime) -> Result<(), Fail> {
    let alloc = rt.alloc();
    let shown = [
        (ReadError::ReadFault.to_string(alloc)?, "ReadFault"),
        (ReadError::TooLong.to_string(alloc)?, "TooLong"),
        (ReadError::NoMemory.to_string(alloc)?, "NoMemory"),
        (ScanError::BadByte { at: 1 }.to_string(alloc)?, "BadByte"),
        (
            ScanError::NameLimit { at: 1 }.to_string(alloc)?,
            "NameLimit",
        ),
        (
            ScanError::NumberLimit { at: 1 }.to_string(alloc)?,
            "NumberLimit",
        ),
        (ScanError::NoMemory.to_string(alloc)?, "NoMemory"),
        (
            SyntaxError::Grammar { token: 1 }.to_string(alloc)?,
            "Grammar",
        ),
        (SyntaxError::Depth { token: 1 }.to_string(alloc)?, "Depth"),
        (SyntaxError::NoMemory.to_string(alloc)?, "NoMemory"),
    ];
    for (message, name) in &shown {
        assert_eq!(rt; message.as_str(), *name);
    }
    Ok(())
}

// The second write of each sink fails, so a text comes whole only where one write is given all of it.
#[test]
fn one_write_is_given_all_that_is_left(rt: HostRuntime) -> Result<(), Fail> {
    let alloc = rt.alloc();
    let mut sink = MemSink::new(alloc, 99, Items::from_slice(alloc, &[1])?, 5)?;
    assert_eq!(rt; send(&mut sink, b""), Ok(()));
    assert_eq!(rt; send(&mut sink, b"hello"), Ok(()));
    assert_eq!(rt; sink.taken(), b"hello".as_slice());
    assert!(rt; sink.write(b"a").is_err());
    assert!(rt; sink.write(b"no room").is_err());
    Ok(())
}

// Holds of a type whose values may be handed to other threads and shared by them.
fn shared<T: Send + Sync>() {}

#[test]
fn threads_may_share_these(_rt: HostRuntime) {
    shared::<Text>();
    shared::<Items<Text>>();
    shared::<NoMemory>();
    shared::<ReadError>();
    shared::<OpenGate>();
    OpenGate.pass(3);
}
