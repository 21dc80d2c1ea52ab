// The URLs of instances.
ghost use Rattle.std.specs.Prelude.{◌≡◌, ◌<◌, ◌^◌, ◌++◌, All, List, None, OnOk, Some, ℕ};
ghost use Rattle.percent_encoding.specs.Percent.{percent_encode};
ghost use Rattle.instance_urls.specs.Urls.{IsUrlByte, query_of, url_of};
ghost use Rattle.instance_urls.specs.declared.plan_id.PlanId as plans;

use crate::plan_id::PlanId;
use file_names::file_path;
use hmr_types::ModName;
use percent_encoding::{AsciiSet, CONTROLS, ascii_set, percent_encode};
use std::alloc::{AllocError, Global};

/// The bytes that browsers write as escapes in the path of a URL, and `%` and `\`.
pub(crate) const ESCAPED: AsciiSet = ascii_set!(
    CONTROLS
        .add(b' ')
        .add(b'"')
        .add(b'#')
        .add(b'%')
        .add(b'<')
        .add(b'>')
        .add(b'?')
        .add(b'\\')
        .add(b'^')
        .add(b'`')
        .add(b'{')
        .add(b'}')
);

/// Puts the URL of the instance of a module that a plan made, from the top of the server: the path of the
/// module's file, its bytes escaped as browsers escape them, and the plan as the query `?hmr=5.2`. Without a
/// plan it is the plain URL. It takes time and memory linear in the name.
pub fn write_url(
    alloc: Global,
    out: &mut Vec<u8>,
    name: &ModName,
    plan: Option<PlanId>,
) -> Result<(), AllocError>
    ensures { OnOk result (out.new.items ≡ out.old.items ++ url_of name.now plan) }
{
    let path = file_path(alloc, name)?;
    put_path(alloc, out, &path)?;
    put_query(out, plan)
}

/// The URLs of instances have visible ASCII characters alone, and neither `"` nor `\`, nor `<` or `>`.
pub fn urls_need_no_escapes()
    ensures first { (name : List ℕ) → All IsUrlByte (url_of name None) }
    ensures later { (name : List ℕ) (id : plans.PlanId) → id.page < 2 ^ 64 → id.plan < 2 ^ 64
        → All IsUrlByte (url_of name (Some id)) }
{}

fn put_path(alloc: Global, out: &mut Vec<u8>, path: &[u8]) -> Result<(), AllocError>
    ensures { OnOk result (out.new.items ≡ out.old.items ++ percent_encode ESCAPED path.now) }
{
    let mut text = String::new(alloc);
    percent_encode(path, ESCAPED).append_to(&mut text)?;
    out.extend_from_slice(text.as_bytes())
}

fn put_query(out: &mut Vec<u8>, plan: Option<PlanId>) -> Result<(), AllocError>
    ensures { OnOk result (out.new.items ≡ out.old.items ++ query_of plan) }
{
    match plan {
        Some(id) => {
            out.extend_from_slice(b"?hmr=")?;
            id.append_to(out)
        }
        None => Ok(()),
    }
}
