// One case for each message of a server in each format, and each fault.
ghost use Rattle.update_msgs.specs.Writable.{IsFormat, IsWritable};

use crate::told::told;
use message_json::{MsgFault, decode, encode};
use std::alloc::Global;
use std::process::Abort;
use std::test::Fail;
use update_msgs::ServerMsg;

fn written(alloc: Global, msg: &ServerMsg, format: u8) -> Result<Vec<u8>, MsgFault>
    requires format { IsFormat format }
    requires ranged { IsWritable format msg.now }
{
    Ok(encode(alloc, msg, format)?)
}

/// What the bytes are written as again in the format in which they are read.
fn server_again(alloc: Global, bytes: &[u8], format: u8) -> Result<Vec<u8>, MsgFault>
    requires { IsFormat format }
{
    match decode(alloc, bytes, format) {
        Ok(msg) => written(alloc, &msg, format),
        Err(fault) => Err(fault),
    }
}

/// What is told of a text, `=`, and the text, in both formats.
const ROWS: &str = r#"same={"client":1,"roots":["/b.js","/a.js"],"type":"connected"}
same={"client":4294967295,"roots":[],"type":"connected"}
same={"paths":["/a.js"],"type":"prune"}
same={"column":0,"kind":"unexpected","line":9007199254740991,"path":"/a.js","type":"error"}
same={"column":3,"kind":"bad-byte","line":2,"path":"/a.js","type":"broken"}
same={"type":"idle"}
same={"type":"done"}
same={"path":"/a.js","text":"let a = 1;\n","type":"text","version":1}
same={"path":"/a.js","type":"missing"}
same={"path":"/a.js","type":"not-yet"}
same={"code":1,"kept":null,"path":null,"told":null,"type":"refused"}
same={"code":4,"kept":0,"path":"/a.js","told":3,"type":"refused"}
same={"code":5,"kept":null,"path":"/a.js","told":null,"type":"refused"}
same={"code":7,"kept":null,"path":null,"told":null,"type":"refused"}
no type={"type":"ask"}
bad client={"client":0,"roots":[],"type":"connected"}
bad client={"client":4294967296,"roots":[],"type":"connected"}
bad roots={"client":1,"roots":[1],"type":"connected"}
bad updates={"replaced":[],"type":"update","updates":[{"acceptedPath":"/a","path":"/m","timestamp":4}]}
bad updates={"replaced":[],"type":"update","updates":[{"a":1,"acceptedPath":"/a","path":"/m","timestamp":4,"type":"js-update"}]}
bad path={"batch":1,"cause":"root","path":[],"triggeredBy":[],"type":"full-reload"}
bad kind={"column":0,"kind":"late","line":0,"path":"/a","type":"error"}
bad text={"path":"/a","text":null,"type":"text","version":1}
bad code={"code":8,"kept":null,"path":null,"told":null,"type":"refused"}
bad path={"code":5,"kept":null,"path":null,"told":null,"type":"refused"}
bad told={"code":4,"kept":null,"path":"/a","told":null,"type":"refused"}
bad kept={"code":7,"kept":1,"path":null,"told":null,"type":"refused"}
extra batch={"batch":1,"type":"idle"}
"#;

/// The same in format 1.
const FIRST_ROWS: &str =
    r#"same={"replaced":["/a.js"],"type":"update","updates":[{"acceptedPath":"/a.js","path":"/m.js","timestamp":4,"type":"js-update"}]}
same={"cause":"declined","path":["/a.js"],"type":"full-reload"}
extra batch={"batch":1,"replaced":[],"triggeredBy":[],"type":"update","updates":[]}
extra triggeredBy={"cause":"root","path":["/a.js"],"triggeredBy":[],"type":"full-reload"}
"#;

/// The same in format 2.
const SECOND_ROWS: &str =
    r#"same={"batch":1,"replaced":["/a.js"],"triggeredBy":["/a.js"],"type":"update","updates":[{"acceptedPath":"/a.js","path":"/m.js","timestamp":0,"type":"js-update"}]}
same={"batch":9007199254740991,"cause":"root","path":["/b.js","/a.js"],"triggeredBy":["/a.js","/b.js"],"type":"full-reload"}
bad batch={"replaced":[],"type":"update","updates":[]}
bad batch={"batch":0,"replaced":[],"triggeredBy":[],"type":"update","updates":[]}
bad triggeredBy={"batch":1,"replaced":[],"type":"update","updates":[]}
bad triggeredBy={"batch":1,"replaced":[],"triggeredBy":["/b.js","/a.js"],"type":"update","updates":[]}
bad triggeredBy={"batch":1,"cause":"root","path":["/a.js"],"triggeredBy":["/a.js","/a.js"],"type":"full-reload"}
extra x={"batch":1,"cause":"root","path":["/a.js"],"triggeredBy":[],"type":"full-reload","x":1}
"#;

/// How many cases there are, each told as it says.
fn rows_told(rt: &impl Abort, alloc: Global, table: &str, format: u8) -> Result<u32, Fail>
    requires { IsFormat format }
{
    let mut rows: u32 = 0;
    for row in table.lines() {
        if let Some((want, text)) = row.split_once('=') {
            let told = told(alloc, text, server_again(alloc, text.as_bytes(), format))?;
            assert_eq!(rt; told.as_str(), want, "{text}");
            rows = rows.wrapping_add(1);
        }
    }
    Ok(rows)
}

#[test]
fn server_messages_are_read_as_the_tables_say(rt: HostRuntime) -> Result<(), Fail> {
    let alloc = rt.alloc();
    assert_eq!(rt; rows_told(&rt, alloc, ROWS, 1)?, 28);
    assert_eq!(rt; rows_told(&rt, alloc, ROWS, 2)?, 28);
    assert_eq!(rt; rows_told(&rt, alloc, FIRST_ROWS, 1)?, 4);
    assert_eq!(rt; rows_told(&rt, alloc, SECOND_ROWS, 2)?, 8);
    Ok(())
}
