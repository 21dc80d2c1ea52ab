// The plans that pages tell: what is said of one that isn't taken, and the module that checks one.
use crate::file_kind::{FileKind, kind_of};
use hmr_types::ModName;
use instance_urls::{Instances, write_url};
use std::alloc::{AllocError, Global};
use told_plans::{PlanFault, ToldPlan};

/// The sentence that says why bytes are no plan.
pub(crate) fn fault_sentence(fault: PlanFault) -> &'static str {
    match fault {
        PlanFault::NotJson => "The body isn't JSON.",
        PlanFault::WrongPlan => "`plan` is to be the text of a plan, as `5.2`.",
        PlanFault::WrongPlain => "`plain` is to be true or false.",
        PlanFault::WrongMade => "`made` is to be an object of names with versions.",
        PlanFault::WrongKept =>
            "`kept` is to be an object of names with a plan and a version each.",
        PlanFault::TooMany => "A plan names at most 8,192 modules.",
        PlanFault::Twice => "A module is both in `made` and in `kept`.",
        PlanFault::NoMemory => "There is no memory.",
    }
}

/// The module by which a browser links what a plan makes, and evaluates none of it: its first import
/// throws, and the others are those new modules that are JavaScript or JSON, in the order of their names.
/// It takes time and memory linear in the plan.
pub(crate) fn check_text(alloc: Global, plan: &ToldPlan) -> Result<Vec<u8>, AllocError> {
    let mut text = Vec::from_slice(alloc, b"import \"/@hmr/stop.js?")?;
    plan.id().append_to(&mut text)?;
    text.extend_from_slice(b"\";\n")?;
    for (name, _version) in plan.made().iter() {
        put_import(alloc, &mut text, plan, name)?;
    }
    Ok(text)
}

fn put_import(
    alloc: Global,
    text: &mut Vec<u8>,
    plan: &ToldPlan,
    name: &ModName,
) -> Result<(), AllocError> {
    match kind_of(name) {
        FileKind::Script => put_line(alloc, text, plan, name, b";\n"),
        FileKind::Data => put_line(alloc, text, plan, name, b" with { type: \"json\" };\n"),
        FileKind::Page | FileKind::Style => Ok(()),
    }
}

fn put_line(
    alloc: Global,
    text: &mut Vec<u8>,
    plan: &ToldPlan,
    name: &ModName,
    end: &[u8],
) -> Result<(), AllocError> {
    text.extend_from_slice(b"import \"")?;
    write_url(alloc, text, name, plan.instance(name))?;
    text.push(b'"')?;
    text.extend_from_slice(end)
}
