// What no clause says: that a desk can be written and called through the trait.
ghost use Rattle.std.specs.Prelude.{None, ◌==◌, ⊤};

use std::test::Fail;
use update_msgs::{ClientMsg, Desk, HubStop, ServerMsg};

/// A desk that says so many times that there is nothing to do, and tells nothing of it.
#[derive(Drop)]
struct IdleDesk {
    left: u8,
    full: bool,
}

impl Desk for IdleDesk {
    ghost full = { λ d. d.full };

    ghost told = { λ d. None };

    ghost stays = { λ old new. ⊤ };

    fn answer(&mut self, _msg: ClientMsg) -> Result<ServerMsg, HubStop> {
        if self.left == 0 {
            self.full = true;
            return Err(HubStop::TranscriptFull);
        }
        self.left -= 1;
        Ok(ServerMsg::Idle)
    }

    ghost same = { λ d. tt };

    ghost then = { λ d n l p q. tt };
}

fn ask<D: Desk>(desk: &mut D) -> Result<ServerMsg, HubStop> {
    desk.answer(ClientMsg::Ask)
}

#[test]
fn a_desk_answers_until_it_is_full(rt: HostRuntime) -> Result<(), Fail> {
    let mut desk = IdleDesk {
        left: 1,
        full: false,
    };
    assert!(rt; matches!(ask(&mut desk), Ok(ServerMsg::Idle)));
    assert!(rt; matches!(ask(&mut desk), Err(HubStop::TranscriptFull)));
    assert!(rt; desk.full);
    Ok(())
}
