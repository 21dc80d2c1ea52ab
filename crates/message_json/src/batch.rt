// The batch of an update or a reload, and the further keys by format.
ghost use Rattle.std.specs.Prelude.{◌≡◌, map};
ghost use Rattle.serde_json.specs.View.{view};
ghost use Rattle.message_json.specs.Reading.{Gives};
ghost use Rattle.message_json.specs.ServerReading.{batch_of, only_by, second_batch};

use crate::fault::MsgFault;
use crate::field::{number_field, only};
use crate::list::rising_field;
use hmr_types::limits::LARGEST_NUMBER;
use hmr_types::{ModName, Sequence};
use serde_json::Value;
use std::alloc::Global;

/// The number of a batch, 0 for none, and the names that triggered it.
#[derive(Drop)]
pub(crate) struct Batch {
    pub(crate) number: u64,
    pub(crate) names: Sequence<ModName>,
}

/// The batch that a message of this format has: the second format alone has one.
pub(crate) fn batch_of(alloc: Global, value: &Value, format: u8) -> Result<Batch, MsgFault>
    ensures { Gives result (batch_of format (view value.now)) }
{
    if format == 2 {
        second_batch(alloc, value)
    } else {
        Ok(Batch {
            number: 0,
            names: Sequence::new(alloc),
        })
    }
}

fn second_batch(alloc: Global, value: &Value) -> Result<Batch, MsgFault>
    ensures { Gives result (second_batch (view value.now)) }
{
    let number = number_field(alloc, value, "batch", 1, LARGEST_NUMBER)?;
    let names = Sequence::from_vec(rising_field(alloc, value, "triggeredBy")?);
    Ok(Batch { number, names })
}

/// That the value has no keys but those of the first format, or of the second.
pub(crate) fn only_by(
    alloc: Global,
    value: &Value,
    format: u8,
    first: &[&str],
    second: &[&str],
) -> Result<(), MsgFault>
    ensures { Gives result
        (only_by format (map (λ k. k.now) first.now) (map (λ k. k.now) second.now) (view value.now)) }
{
    if format == 2 {
        only(alloc, value, second)
    } else {
        only(alloc, value, first)
    }
}
