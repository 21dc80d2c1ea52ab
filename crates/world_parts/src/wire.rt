// Messages as they come to the other side: each is written as JSON, and its bytes are read again.
ghost use Rattle.std.specs.Prelude.{◌≡◌, IfOk};
ghost use Rattle.core_model.specs.Exchange.{read_in};
ghost use Rattle.update_msgs.specs.Writable.{IsFormat, IsSayable, IsWritable};
ghost use Rattle.message_text.specs.ClientText.{say};
ghost use Rattle.message_text.specs.ServerText.{tell};
ghost use Rattle.message_text.specs.Values.{HasReading};
ghost use Rattle.message_json.specs.ClientReading as client;
ghost use Rattle.message_json.specs.ServerReading as server;

use crate::typed::{note_client_msg, note_server_msg};
use message_json::{MsgFault, decode, decode_client};
use message_text::{encode, encode_client};
use std::alloc::{AllocError, Global};
use update_msgs::{ClientMsg, ServerMsg};

/// A client's message, as the server reads it from its bytes. [`AllocError`] comes where memory runs out. It
/// takes time and memory in proportion to the text.
pub fn sent_by_client(alloc: Global, msg: ClientMsg) -> Result<ClientMsg, AllocError>
    requires { IsSayable msg }
    ensures { IfOk result (λ read. read ≡ msg) }
{
    let bytes = client_bytes(alloc, msg)?;
    match decode_client(alloc, &bytes) {
        Ok(read) => Ok(read),
        Err(MsgFault::NoMemory) => Err(AllocError),
        Err(MsgFault::NotJson) => unreachable!(),
        Err(MsgFault::NoType) => unreachable!(),
        Err(MsgFault::BadField(_)) => unreachable!(),
        Err(MsgFault::ExtraField(_)) => unreachable!(),
    }
}

fn client_bytes(alloc: Global, msg: ClientMsg) -> Result<Vec<u8>, AllocError>
    requires { IsSayable msg }
    ensures reads { IfOk result (λ bytes. HasReading bytes.items (say msg)) }
    ensures typed { client.IsTyped msg }
{
    note_client_msg(&msg);
    encode_client(alloc, &msg)
}

/// A server's message, as a client of this format, 1 or 2, reads it from its bytes. [`AllocError`] comes
/// where memory runs out. It takes time and memory in proportion to the text.
pub fn sent_by_server(alloc: Global, format: u8, msg: ServerMsg) -> Result<ServerMsg, AllocError>
    requires format { IsFormat format }
    requires writable { IsWritable format msg }
    ensures { IfOk result (λ read. read ≡ read_in format msg) }
{
    let bytes = server_bytes(alloc, format, msg)?;
    match decode(alloc, &bytes, format) {
        Ok(read) => Ok(read),
        Err(MsgFault::NoMemory) => Err(AllocError),
        Err(MsgFault::NotJson) => unreachable!(),
        Err(MsgFault::NoType) => unreachable!(),
        Err(MsgFault::BadField(_)) => unreachable!(),
        Err(MsgFault::ExtraField(_)) => unreachable!(),
    }
}

fn server_bytes(alloc: Global, format: u8, msg: ServerMsg) -> Result<Vec<u8>, AllocError>
    requires format { IsFormat format }
    requires writable { IsWritable format msg }
    ensures reads { IfOk result (λ bytes. HasReading bytes.items (tell format msg)) }
    ensures typed { server.IsTyped msg }
{
    note_server_msg(&msg);
    encode(alloc, &msg, format)
}
