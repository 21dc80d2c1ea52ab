// The lists of a line: the first three of many, and the modules of a path.
ghost use Rattle.std.specs.Prelude.{◌≡◌, ◌++◌, OnOk, codes, take};
ghost use Rattle.std.specs.List.{flat_map};
ghost use Rattle.live_lines.specs.PageLines.{list_text, more_text, path_text};
ghost use Rattle.live_lines.specs.Texts.{arrow};

use crate::items::Item;
use crate::pieces::{put, put_between, put_counted};
use hmr_types::ModName;
use std::alloc::AllocError;

/// Puts the first three of a list, and how many more there are.
pub(crate) fn put_list<T: Item>(out: &mut Vec<u8>, items: &[T]) -> Result<(), AllocError>
    ensures { OnOk result (out.new.items ≡ out.old.items ++ list_text T.text items.now) }
{
    match items {
        [] => Ok(()),
        [first, more @ ..] => {
            first.put_item(out)?;
            put_two_more(out, more)?;
            put_more(out, more.len().saturating_sub(2))
        }
    }
}

// Puts two more, each behind a comma.
fn put_two_more<T: Item>(out: &mut Vec<u8>, items: &[T]) -> Result<(), AllocError>
    ensures { OnOk result
        (out.new.items ≡ out.old.items ++ flat_map (λ x. codes ", " ++ T.text x) (take 2 items.now)) }
{
    let two = &items[..items.len().min(2)];
    put_each(out, two)
}

fn put_each<T: Item>(out: &mut Vec<u8>, items: &[T]) -> Result<(), AllocError>
    ensures { OnOk result
        (out.new.items ≡ out.old.items ++ flat_map (λ x. codes ", " ++ T.text x) items.now) }
{
    for item in items {
        put(out, ", ")?;
        item.put_item(out)?;
    }
    Ok(())
}

fn put_more(out: &mut Vec<u8>, count: usize) -> Result<(), AllocError>
    ensures { OnOk result (out.new.items ≡ out.old.items ++ more_text count) }
{
    if count == 0 {
        return Ok(());
    }
    put_counted(out, " and ", count as u64, " more")
}

/// Puts the modules of a path, with an arrow between each two.
pub(crate) fn put_path(out: &mut Vec<u8>, path: &[ModName]) -> Result<(), AllocError>
    ensures { OnOk result (out.new.items ≡ out.old.items ++ path_text path.now) }
{
    match path {
        [] => Ok(()),
        [first, more @ ..] => {
            put(out, first.as_str())?;
            put_steps(out, more)
        }
    }
}

fn put_steps(out: &mut Vec<u8>, path: &[ModName]) -> Result<(), AllocError>
    ensures { OnOk result (out.new.items
        ≡ out.old.items ++ flat_map (λ m. codes " " ++ arrow ++ codes " " ++ m) path.now) }
{
    for name in path {
        put(out, " → ")?;
        put(out, name.as_str())?;
    }
    Ok(())
}
