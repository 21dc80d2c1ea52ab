// What was read of a script so far: its roots, and what may come behind them. What a line says is taken
// where it may stand.
ghost use Rattle.std.specs.Prelude.{true, false, ◌≡◌, ◌++◌, [], ◌∷◌, ◌&&◌, not, nat_lt, length};
ghost use Rattle.hmr_types.specs.declared.limits.TheConstants.{ROOTS};
ghost use Rattle.std.specs.List.{list_any};
ghost use Rattle.hmr_types.specs.ModName.{is_text};
ghost use Rattle.play_script.specs.Script.{Gives, beginning, below_edit, placed, asks_a_root};
ghost use Rattle.play_script.specs.Script.{may_be_root, may_be_command, allowed, is_empty};

use crate::fault::{Refusal, ScriptKind};
use crate::form::Form;
use crate::words::Said;
use hmr_types::limits::ROOTS;
use hmr_types::{ModName, Sequence};
use std::alloc::Global;

/// A script so far.
#[derive(Drop)]
pub struct Draft {
    /// Which commands the script has.
    pub form: Form,
    /// The roots.
    pub roots: Sequence<ModName>,
    /// Whether a command came.
    pub began: bool,
    /// Whether the line before was an edit or a line of its text.
    pub in_edit: bool,
}

impl Draft {
    /// The script before its first line.
    pub fn new(alloc: Global, form: Form) -> Draft
        ensures { result ≡ beginning form }
    {
        Draft {
            form,
            roots: Sequence::new(alloc),
            began: false,
            in_edit: false,
        }
    }

    /// The script so far after a line that says this, where that may stand here.
    pub fn placed(self, said: Said) -> Result<Draft, Refusal>
        ensures { Gives (λ d. d) result (placed self said) }
    {
        match said {
            Said::Nothing => Ok(self.behind_nothing()),
            Said::Text => self.behind_text(),
            Said::Root(name) => self.behind_root(name),
            Said::Edit(_) => self.behind_command(true),
            Said::Command(_) => self.behind_command(false),
        }
    }

    fn behind_nothing(self) -> Draft
        ensures { result ≡ record self { in_edit = false } }
    {
        let Draft {
            form,
            roots,
            began,
            ..
        } = self;
        Draft {
            form,
            roots,
            began,
            in_edit: false,
        }
    }

    fn behind_text(self) -> Result<Draft, Refusal>
        ensures { Gives (λ d. d) result (below_edit self.in_edit self) }
    {
        if !self.in_edit {
            return Err(Refusal::Fault(ScriptKind::TextWithoutEdit));
        }
        Ok(self)
    }

    fn behind_root(self, name: ModName) -> Result<Draft, Refusal>
        ensures { Gives
            (λ d. d)
            result (allowed (may_be_root self name)
            (record self { roots = self.roots ++ name ∷ []; in_edit = false })) }
    {
        if !may_be_root(self.roots.as_slice(), self.began, &name) {
            return Err(Refusal::Fault(ScriptKind::RootPlace));
        }
        let Draft {
            form,
            roots,
            began,
            ..
        } = self;
        let mut names = roots.into_vec();
        names.push(name)?;
        Ok(Draft {
            form,
            roots: Sequence::from_vec(names),
            began,
            in_edit: false,
        })
    }

    fn behind_command(self, is_edit: bool) -> Result<Draft, Refusal>
        ensures { Gives
            (λ d. d)
            result (allowed (may_be_command self) (record self { began = true; in_edit = is_edit })) }
    {
        if asks_a_root(self.form) && self.roots.as_slice().is_empty() {
            return Err(Refusal::Fault(ScriptKind::RootPlace));
        }
        let Draft { form, roots, .. } = self;
        Ok(Draft {
            form,
            roots,
            began: true,
            in_edit: is_edit,
        })
    }
}

fn asks_a_root(form: Form) -> bool
    ensures { result ≡ asks_a_root form }
{
    match form {
        Form::Page => true,
        Form::Edits => false,
    }
}

fn may_be_root(roots: &[ModName], began: bool, name: &ModName) -> bool
    ensures { result
        ≡ (not began && nat_lt (length roots.now) ROOTS
        && not (list_any (λ root. is_text root name.now) roots.now)) }
{
    !began && roots.len() < ROOTS && !has_root(roots, name)
}

fn has_root(roots: &[ModName], name: &ModName) -> bool
    ensures { result ≡ list_any (λ root. is_text root name.now) roots.now }
{
    roots.iter().any(|root| root == name)
}
