// The script that is made of a number of modules and a seed.
ghost use Rattle.std.specs.List.{All};
ghost use Rattle.std.specs.Prelude.{◌≡◌, ◌++◌, ◌∷◌, [], ◌≤◌, ◌<◌, ◌+◌, IfOk, OnOk};
ghost use Rattle.play_script.specs.Asked.{HasFormat};
ghost use Rattle.made_scripts.specs.Making.{edit_of, ending, generated, made, module_name, next, opening};
ghost use Rattle.made_scripts.specs.Making.{round, rounds, state_after};

use crate::draws::Draws;
use crate::module_text::{module_name, module_text};
use hmr_types::{ModName, Sequence};
use play_script::ScriptLine;
use std::alloc::{AllocError, Global};

/// A script as values.
#[derive(Drop)]
pub struct Generated {
    /// The names of the page's roots.
    pub roots: Vec<ModName>,
    /// The commands, in order.
    pub lines: Vec<ScriptLine>,
}

/// The script of a page of `count` modules, from 1 to 4,096, that the seed gives: the page is loaded, and
/// then a module of it is edited eight times, with turns after each edit. What is drawn from the seed is
/// which modules accept themselves, and which module is edited. The time and the memory are linear in the
/// number of modules.
pub fn generate(alloc: Global, count: u32, seed: u32) -> Result<Generated, AllocError>
    requires some { 0 < count }
    requires few { count ≤ 4096 }
    ensures roots { IfOk result (λ g. g.roots.items ≡ (generated count seed).roots) }
    ensures lines { IfOk result (λ g. g.lines.items ≡ (generated count seed).lines) }
    ensures formats { IfOk result (λ g. All HasFormat g.lines.items) }
{
    let lines = script_lines(alloc, count, seed)?;
    let roots = roots(alloc)?;
    Ok(Generated { roots, lines })
}

fn script_lines(alloc: Global, count: u32, seed: u32) -> Result<Vec<ScriptLine>, AllocError>
    requires some { 0 < count }
    requires few { count ≤ 4096 }
    ensures { IfOk result (λ lines. lines.items ≡ (generated count seed).lines) }
{
    let mut lines = Vec::new(alloc);
    let mut draws = Draws { state: seed };
    lines.push(ScriptLine::Quiet)?;
    push_modules(alloc, &mut lines, count, &mut draws)?;
    push_opening(alloc, &mut lines, count)?;
    push_rounds(alloc, &mut lines, count, &mut draws)?;
    push_ending(&mut lines)?;
    Ok(lines)
}

fn roots(alloc: Global) -> Result<Vec<ModName>, AllocError>
    ensures { IfOk result (λ roots. roots.items ≡ module_name 0 ∷ []) }
{
    let mut roots = Vec::new(alloc);
    roots.push(module_name(alloc, 0)?)?;
    Ok(roots)
}

/// Pushes an edit of each module, in the order of their numbers.
#[tactic(auto, using(crate::proofs::MadeSteps::edit_steps))]
fn push_modules(
    alloc: Global,
    lines: &mut Vec<ScriptLine>,
    count: u32,
    draws: &mut Draws,
) -> Result<(), AllocError>
    requires { count ≤ 4096 }
    ensures lines { OnOk result (lines.new.items ≡ lines.old.items ++ made count draws.old.state count) }
    ensures state { OnOk result (draws.new.state ≡ state_after draws.old.state count) }
{
    for number in 0..count {
        let drawn = draws.below(3);
        push_edit(alloc, lines, count, number, 0, drawn)?;
    }
    Ok(())
}

/// Pushes what opens a client and loads the page.
fn push_opening(alloc: Global, lines: &mut Vec<ScriptLine>, count: u32) -> Result<(), AllocError>
    requires { count ≤ 4096 }
    ensures { OnOk result (lines.new.items ≡ lines.old.items ++ opening count) }
{
    lines.push(ScriptLine::SettleAll)?;
    lines.push(ScriptLine::Open(1, Sequence::new(alloc)))?;
    lines.push(ScriptLine::Turns(1, count + 4))?;
    Ok(())
}

/// Pushes the eight rounds.
#[tactic(auto, using(crate::proofs::MadeSteps::round_steps))]
fn push_rounds(
    alloc: Global,
    lines: &mut Vec<ScriptLine>,
    count: u32,
    draws: &mut Draws,
) -> Result<(), AllocError>
    requires some { 0 < count }
    requires few { count ≤ 4096 }
    ensures { OnOk result (lines.new.items ≡ lines.old.items ++ rounds count draws.old.state 8) }
{
    for earlier in 0..8 {
        push_round(alloc, lines, count, draws, earlier + 1)?;
    }
    Ok(())
}

/// Pushes one round: an edit of a module, and turns after it.
#[tactic(auto, unfolding(crate::specs::Making::round))]
fn push_round(
    alloc: Global,
    lines: &mut Vec<ScriptLine>,
    count: u32,
    draws: &mut Draws,
    value: u32,
) -> Result<(), AllocError>
    requires some { 0 < count }
    requires few { count ≤ 4096 }
    ensures lines { OnOk result (lines.new.items ≡ lines.old.items ++ round count draws.old.state value) }
    ensures state { OnOk result (draws.new.state ≡ next (next draws.old.state)) }
{
    let number = draws.below(count);
    let drawn = draws.below(3);
    push_edit(alloc, lines, count, number, value, drawn)?;
    lines.push(ScriptLine::SettleAll)?;
    lines.push(ScriptLine::Turns(1, 2 * count + 16))?;
    Ok(())
}

/// Pushes an edit of a module.
#[tactic(auto, unfolding(crate::specs::Making::edit_of))]
fn push_edit(
    alloc: Global,
    lines: &mut Vec<ScriptLine>,
    count: u32,
    number: u32,
    value: u32,
    drawn: u32,
) -> Result<(), AllocError>
    requires { number < 4096 }
    ensures { OnOk result (lines.new.items ≡ lines.old.items ++ edit_of count number value drawn ∷ []) }
{
    let name = module_name(alloc, number)?;
    let text = module_text(alloc, count, number, value, drawn)?;
    lines.push(ScriptLine::Edit(name, Sequence::from_vec(text)))?;
    Ok(())
}

/// Pushes what shows the client's table, and that of a fresh load.
fn push_ending(lines: &mut Vec<ScriptLine>) -> Result<(), AllocError>
    ensures { OnOk result (lines.new.items ≡ lines.old.items ++ ending) }
{
    lines.push(ScriptLine::Show(1))?;
    lines.push(ScriptLine::Fresh)?;
    Ok(())
}
