// One case for each message of a client, each spelling, and each fault; nesting, long names, long
// tables.
ghost use Rattle.update_msgs.specs.Writable.{IsSayable};

use crate::told::told;
use message_json::{MsgFault, decode_client, encode_client};
use std::alloc::{AllocError, Global};
use std::test::Fail;
use update_msgs::ClientMsg;

fn written(alloc: Global, msg: &ClientMsg) -> Result<Vec<u8>, MsgFault>
    requires { IsSayable msg.now }
{
    Ok(encode_client(alloc, msg)?)
}

/// What the bytes are written as again.
fn client_again(alloc: Global, bytes: &[u8]) -> Result<Vec<u8>, MsgFault> {
    match decode_client(alloc, bytes) {
        Ok(msg) => written(alloc, &msg),
        Err(fault) => Err(fault),
    }
}

/// What is told of a text, `=`, and the text.
const CLIENT_ROWS: &str = r#"same={"format":1,"type":"hello"}
same={"format":2,"roots":["/b.js","/a.js"],"type":"hello"}
same={"type":"ask"}
same={"path":"/a.js","type":"fetch"}
same={"table":[["/a.js",4],["/m.js",9007199254740991]],"type":"applied"}
same={"table":[],"type":"applied"}
same={"cause":"missing","from":null,"name":null,"path":"/a.js","type":"aborted"}
same={"cause":"broken","from":null,"name":null,"path":"/a.js","type":"aborted"}
same={"cause":"link","from":"/b.js","name":"","path":"/a.js","type":"aborted"}
same={"message":"","path":"/a.js","type":"invalidate","version":1}
same={"type":"bye"}
{"type":"ask"}= { "type"  : "\u0061sk" } 
{"path":"/a.js","type":"fetch"}={"type":"fetch","path":"\/a.js"}
{"path":"/b.js","type":"fetch"}={"path":"/a.js","path":"/b.js","type":"fetch"}
{"message":"\"\\/\b\f\n\r\t","path":"/a","type":"invalidate","version":1}={"message":"\"\\\/\b\f\n\r\t","path":"/a","type":"invalidate","version":1}
{"message":"é😀","path":"/a","type":"invalidate","version":1}={"message":"\u00E9\ud83d\ude00","path":"/a","type":"invalidate","version":1}
not json=
not json={"type":"ask"}x
not json={"type":"ask",}
not json={'type':'ask'}
not json={"type":"\ud83d"}
not json={"type":"\x61sk"}
no type={}
no type=[{"type":"ask"}]
no type="ask"
no type={"type":1}
no type={"type":"idle"}
bad format={"type":"hello"}
bad format={"format":0,"type":"hello"}
bad format={"format":3,"type":"hello"}
bad format={"format":1.0,"type":"hello"}
bad format={"format":"1","roots":[],"type":"hello"}
bad roots={"format":1,"roots":[],"type":"hello"}
bad roots={"format":1,"roots":null,"type":"hello"}
bad roots={"format":1,"roots":["a.js"],"type":"hello"}
extra version={"format":1,"type":"hello","version":1}
extra path={"path":"/a.js","type":"ask"}
bad path={"a":1,"type":"fetch"}
bad path={"path":"/a/../b","type":"fetch"}
bad table={"table":[["/m.js",4],["/a.js",1]],"type":"applied"}
bad table={"table":[["/a.js",1],["/a.js",1]],"type":"applied"}
bad table={"table":[["/a.js",0]],"type":"applied"}
bad table={"table":[["/a.js"]],"type":"applied"}
bad table={"table":[["/a.js",1,1]],"type":"applied"}
bad cause={"cause":"late","from":null,"name":null,"path":"a","type":"aborted"}
bad path={"cause":"link","from":null,"name":null,"path":"a","type":"aborted"}
bad from={"cause":"link","from":null,"name":null,"path":"/a","type":"aborted"}
bad from={"cause":"missing","from":"/b","name":"n","path":"/a","type":"aborted"}
bad name={"cause":"link","from":"/b","path":"/a","type":"aborted"}
bad name={"cause":"broken","from":null,"name":"n","path":"/a","type":"aborted"}
bad version={"message":"x","path":"/a","type":"invalidate","version":0}
bad version={"message":"x","path":"/a","type":"invalidate","version":9007199254740992}
bad version={"message":"x","path":"/a","type":"invalidate","version":-1}
bad message={"message":null,"path":"/a","type":"invalidate","version":1}
extra a={"b":1,"a":1,"type":"bye"}
"#;

#[test]
fn client_messages_are_read_as_the_table_says(rt: HostRuntime) -> Result<(), Fail> {
    let alloc = rt.alloc();
    let mut rows: u32 = 0;
    for row in CLIENT_ROWS.lines() {
        if let Some((want, text)) = row.split_once('=') {
            let told = told(alloc, text, client_again(alloc, text.as_bytes()))?;
            assert_eq!(rt; told.as_str(), want, "{text}");
            rows = rows.wrapping_add(1);
        }
    }
    assert_eq!(rt; rows, 55);
    Ok(())
}

fn many(alloc: Global, text: &str, count: u32) -> Result<String, AllocError> {
    let mut all = String::new(alloc);
    for _ in 0..count {
        all.push_str(text)?;
    }
    Ok(all)
}

/// What is told of lists, so many in one another, in a further key of a message.
fn nested_told(alloc: Global, depth: u32) -> Result<String, AllocError> {
    let open = many(alloc, "[", depth)?;
    let close = many(alloc, "]", depth)?;
    let text = format!(in alloc;
        r#"{{"deep":{}{},"type":"ask"}}"#,
        open.as_str(),
        close.as_str()
    )?;
    told(alloc, text.as_str(), client_again(alloc, text.as_bytes()))
}

#[test]
fn nesting_is_read_up_to_127(rt: HostRuntime) -> Result<(), Fail> {
    let alloc = rt.alloc();
    assert_eq!(rt; nested_told(alloc, 126)?.as_str(), "extra deep");
    assert_eq!(rt; nested_told(alloc, 127)?.as_str(), "not json");
    Ok(())
}

/// What is told of a fetch whose path has a slash and so many letters.
fn long_told(alloc: Global, letters: u32) -> Result<String, AllocError> {
    let name = many(alloc, "a", letters)?;
    let text = format!(in alloc; r#"{{"path":"/{}","type":"fetch"}}"#, name.as_str())?;
    told(alloc, text.as_str(), client_again(alloc, text.as_bytes()))
}

#[test]
fn a_path_has_at_most_255_bytes(rt: HostRuntime) -> Result<(), Fail> {
    let alloc = rt.alloc();
    assert_eq!(rt; long_told(alloc, 254)?.as_str(), "same");
    assert_eq!(rt; long_told(alloc, 255)?.as_str(), "bad path");
    Ok(())
}

#[test]
fn bytes_that_are_not_utf8_are_no_json(rt: HostRuntime) -> Result<(), Fail> {
    let alloc = rt.alloc();
    let again = client_again(alloc, b"{\"type\":\"\xff\"}");
    assert_eq!(rt; told(alloc, "", again)?.as_str(), "not json");
    Ok(())
}
