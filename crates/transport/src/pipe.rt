// Messages on their way from one end to the other, under a lock. The end that receives waits until there
// is a message or the pipe is shut. No message in a pipe is longer than a message may be.
ghost use Rattle.std.specs.Prelude.{◌≤◌, All, IfSome, length};
ghost use Rattle.transport.specs.Messages.{message_bytes};

use std::alloc::{AllocError, Global};
use std::collections::VecDeque;
use std::sync::{Arc, Condvar, Mutex, Wait};

#[derive(Drop)]
struct Flow {
    messages: VecDeque<Vec<u8>>,
    shut: bool,
    ghost short: { All (λ message. length message.items ≤ message_bytes) messages.items },
}

/// A way for messages from one end to the other.
#[derive(Drop)]
pub(crate) struct Pipe {
    flow: Mutex<Flow>,
    moved: Condvar,
}

impl Pipe {
    /// An empty pipe, which both ends hold.
    pub(crate) fn new(alloc: Global) -> Result<Arc<Pipe, Global>, AllocError> {
        let flow = Flow {
            messages: VecDeque::new(alloc),
            shut: false,
        };
        Ok(Arc::new(
            alloc,
            Pipe {
                flow: Mutex::new(flow),
                moved: Condvar::new(),
            },
        )?)
    }

    /// Puts a message in. In a pipe that is shut it is lost, as what is sent to an end that is gone.
    pub(crate) fn put<R: Wait>(&self, rt: &R, message: Vec<u8>) -> Result<(), AllocError>
        requires short { length message.items ≤ message_bytes }
    {
        let mut flow = self.flow.lock(rt);
        if flow.shut {
            return Ok(());
        }
        flow.messages.push_back(message)?;
        drop(flow);
        self.moved.notify_all();
        Ok(())
    }

    /// The next message, or None once the pipe is shut and empty.
    pub(crate) fn take<R: Wait>(&self, rt: &R) -> Option<Vec<u8>>
        ensures bound { IfSome result (λ v. length v.items ≤ message_bytes) }
    {
        let mut flow = self.moved.wait_while(rt, self.flow.lock(rt), |flow| {
            flow.messages.is_empty() && !flow.shut
        });
        flow.messages.pop_front()
    }

    /// Shuts the pipe. What is in it can still be taken.
    pub(crate) fn shut<R: Wait>(&self, rt: &R) {
        let mut flow = self.flow.lock(rt);
        flow.shut = true;
        drop(flow);
        self.moved.notify_all();
    }
}
