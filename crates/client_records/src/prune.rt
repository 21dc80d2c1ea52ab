// What no root of the page reaches leaves it.
ghost use Rattle.std.specs.Prelude.{◌≡◌};
ghost use Rattle.update_msgs.specs.declared.message.ServerMsg.TheVariants as msg;
ghost use Rattle.core_model.specs.Asking as asking;
ghost use Rattle.core_model.specs.Asking.{asked};
ghost use Rattle.core_model.specs.Client.{Client};
ghost use Rattle.core_model.specs.Requests.{to_client};
ghost use Rattle.core_model.specs.Sources.{Sources};
ghost use Rattle.client_records.specs.Forgotten.{Forgotten};
ghost use Rattle.client_records.specs.Answers.{IsWritten, reply_of};
ghost use Rattle.client_records.specs.Record.{IsRecord};

use crate::answer::Answer;
use crate::client_record::ClientRecord;
use client_queue::ClientQueue;
use hmr_types::{ModName, Sequence};
use std::alloc::Global;
use std::mem;
use update_msgs::ServerMsg;

impl ClientRecord {
    /// The dropped modules leave the page, and are forced no more.
    pub(crate) fn prune(&mut self, alloc: Global) -> Answer
        ensures stands { (s : Sources) (c : Client) → IsRecord s c self.old
            → IsRecord s (asked (asking.prune self.old.dropped) s c) self.new }
        ensures reply { reply_of result ≡ to_client (msg.Prune self.old.dropped) }
        ensures written { IsWritten result }
    {
        let names = mem::replace(&mut self.dropped, Sequence::new(alloc));
        self.view.drop_names(names.as_slice());
        forget(&mut self.queue, names.as_slice());
        Answer::To(ServerMsg::Prune { paths: names })
    }
}

// None of the names is known or forced any more.
fn forget(queue: &mut ClientQueue, names: &[ModName])
    ensures { Forgotten names.now queue.old queue.new }
{
    for name in names {
        queue.unforce(name);
        queue.leave(name);
    }
}
