// What a case tells of bytes: that they are written again as they stand, how else they are written again,
// or why they are no message.
use message_json::MsgFault;
use std::alloc::{AllocError, Global};

/// In a word and a key.
fn fault_told(alloc: Global, fault: &MsgFault) -> Result<String, AllocError> {
    match fault {
        MsgFault::NotJson => String::from_str(alloc, "not json"),
        MsgFault::NoType => String::from_str(alloc, "no type"),
        MsgFault::BadField(key) => format!(in alloc; "bad {}", key.as_str()),
        MsgFault::ExtraField(key) => format!(in alloc; "extra {}", key.as_str()),
        MsgFault::NoMemory => String::from_str(alloc, "no memory"),
    }
}

/// `same`, the text that is written again, or the fault.
pub(crate) fn told(
    alloc: Global,
    text: &str,
    again: Result<Vec<u8>, MsgFault>,
) -> Result<String, AllocError> {
    match again {
        Ok(bytes) if bytes.as_slice() == text.as_bytes() => String::from_str(alloc, "same"),
        Ok(bytes) => String::from_utf8_lossy(alloc, bytes.as_slice()),
        Err(fault) => fault_told(alloc, &fault),
    }
}
