// A desk for one client of a page with one module, which changes once.
ghost use Rattle.std.specs.Prelude.{◌≡◌, ℕ, None, ⊤, false, IfOk};
ghost use Rattle.update_msgs.specs.Writable.{IsFormat, IsWritable};
ghost use Rattle.update_msgs.specs.declared.message.ServerMsg.TheVariants as msg;

use hmr_types::{ModName, Sequence, Text};
use std::alloc::{AllocError, Global};
use update_msgs::{ClientMsg, Desk, HubStop, ServerMsg};

/// Answers so many messages, and then that its transcript is full.
#[derive(Drop)]
pub(crate) struct PageDesk {
    alloc: Global,
    connected: bool,
    left: u8,
    full: bool,
}

impl PageDesk {
    pub(crate) fn new(alloc: Global, left: u8) -> PageDesk
        ensures { result.full ≡ false }
    {
        PageDesk {
            alloc,
            connected: false,
            left,
            full: false,
        }
    }
}

impl Desk for PageDesk {
    ghost full = { λ d. d.full };

    ghost told = { λ d. None };

    ghost stays = { λ old new. ⊤ };

    fn answer(&mut self, msg: ClientMsg) -> Result<ServerMsg, HubStop> {
        if self.left == 0 {
            self.full = true;
            return Err(HubStop::TranscriptFull);
        }
        self.left -= 1;
        let connected = self.connected;
        match msg {
            ClientMsg::Hello { .. } => self.connected = true,
            ClientMsg::Bye => self.connected = false,
            _ => {}
        }
        let answer = answer_to(self.alloc, connected, msg)?;
        Ok(answer)
    }

    ghost same = { λ d. tt };

    ghost then = { λ d n l p q. tt };
}

fn answer_to(alloc: Global, connected: bool, msg: ClientMsg) -> Result<ServerMsg, AllocError>
    ensures { IfOk result (λ m. (format : ℕ) → IsFormat format → IsWritable format m) }
{
    match msg {
        ClientMsg::Hello { .. } if connected => Ok(refused(3)),
        ClientMsg::Hello { .. } => welcome(alloc),
        _ if !connected => Ok(refused(1)),
        ClientMsg::Ask => update(alloc),
        ClientMsg::Fetch { path } => text_of(alloc, path),
        _ => Ok(ServerMsg::Done),
    }
}

fn welcome(alloc: Global) -> Result<ServerMsg, AllocError>
    ensures { IfOk result (λ m. (format : ℕ) → IsFormat format → IsWritable format m) }
{
    Ok(ServerMsg::Connected {
        client: 1,
        roots: page(alloc)?,
    })
}

fn update(alloc: Global) -> Result<ServerMsg, AllocError>
    ensures { IfOk result (λ m. (format : ℕ) → IsFormat format → IsWritable format m) }
{
    Ok(ServerMsg::Update {
        replaced: page(alloc)?,
        updates: Sequence::new(alloc),
        batch: 1,
        triggered: Sequence::new(alloc),
    })
}

fn text_of(alloc: Global, path: ModName) -> Result<ServerMsg, AllocError>
    ensures { IfOk result (λ m. (format : ℕ) → IsFormat format → IsWritable format m) }
{
    Ok(ServerMsg::Text {
        path,
        version: 1,
        text: Text::from_string(String::from_str(alloc, "export const n = 1;\n")?),
    })
}

fn refused(code: u8) -> ServerMsg
    ensures { result ≡ msg.Refused code None None None }
{
    ServerMsg::Refused {
        code,
        path: None,
        told: None,
        kept: None,
    }
}

// The names of the page's modules.
fn page(alloc: Global) -> Result<Sequence<ModName>, AllocError> {
    let mut names = Vec::new(alloc);
    if let Ok(name) = ModName::read(alloc, b"/m.js") {
        names.push(name)?;
    }
    Ok(Sequence::from_vec(names))
}
