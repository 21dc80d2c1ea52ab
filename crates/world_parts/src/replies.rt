// What the core's replies say, as lines.
ghost use Rattle.std.specs.Prelude.{◌≡◌, Some};
ghost use Rattle.core_model.specs.Sources.{EditAnswer};
ghost use Rattle.world_model.specs.Editing.{edit_line, remove_line};
ghost use Rattle.output_lines.specs.declared.out_line.OutLine.TheVariants.{Edit, Remove};
ghost use Rattle.output_lines.specs.declared.words.SettleWord.{SettleWord};
ghost use Rattle.world_parts.specs.Replies.{answer_in, job_in, settled_word, word_in};

use events_and_replies::Reply;
use hmr_types::{ModName, Ver};
use output_lines::{EditWord, OutLine, RemoveWord, SettleWord};
use version_map::{EditOutcome, Settled};

/// The line of an edit that gave a text, by the core's reply to it. It takes constant time.
pub fn edit_line(name: ModName, reply: &Reply) -> OutLine
    ensures { (answer : EditAnswer) → answer_in reply.now ≡ Some answer → result ≡ edit_line name answer }
{
    match reply {
        Reply::Edited(EditOutcome::Job(version)) => edited(name, EditWord::Job(*version)),
        Reply::Edited(EditOutcome::Removed(version)) => removed(
            name,
            RemoveWord::Removed(*version),
        ),
        Reply::EditRefused(refusal) => edited(name, EditWord::Refused(*refusal)),
        _ => edited(name, EditWord::Same),
    }
}

/// The version that an edit got, where a job is to be issued for it.
pub(crate) fn job_version(reply: &Reply) -> Option<Ver>
    ensures { (answer : EditAnswer) → answer_in reply.now ≡ Some answer → result ≡ job_in answer }
{
    match reply {
        Reply::Edited(EditOutcome::Job(version)) => Some(*version),
        _ => None,
    }
}

/// The line of a removal, by the core's reply to it. It takes constant time.
pub fn remove_line(name: ModName, reply: &Reply) -> OutLine
    ensures { (answer : EditAnswer) → answer_in reply.now ≡ Some answer → result ≡ remove_line name answer }
{
    match reply {
        Reply::Edited(EditOutcome::Job(version)) => edited(name, EditWord::Job(*version)),
        Reply::Edited(EditOutcome::Removed(version)) => removed(
            name,
            RemoveWord::Removed(*version),
        ),
        Reply::EditRefused(_) => removed(name, RemoveWord::NumbersSpent),
        _ => removed(name, RemoveWord::Same),
    }
}

/// What became of a result.
pub(crate) fn settle_word(reply: &Reply) -> SettleWord
    ensures { (word : SettleWord) → word_in reply.now ≡ Some word → result ≡ word }
{
    match reply {
        Reply::Settled(settled) => settled_word(*settled),
        _ => SettleWord::Late,
    }
}

fn settled_word(settled: Settled) -> SettleWord
    ensures { result ≡ settled_word settled }
{
    match settled {
        Settled::Served => SettleWord::Served,
        Settled::RefusedText(fault) => SettleWord::Refused(fault),
        Settled::Late => SettleWord::Late,
    }
}

fn edited(name: ModName, outcome: EditWord) -> OutLine
    ensures { result ≡ Edit name outcome }
{
    OutLine::Edit { name, outcome }
}

fn removed(name: ModName, outcome: RemoveWord) -> OutLine
    ensures { result ≡ Remove name outcome }
{
    OutLine::Remove { name, outcome }
}
