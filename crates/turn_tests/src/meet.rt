// Threads with a pass each make calls under one lock, and their passes are joined again.
ghost use Rattle.std.specs.Prelude.{◌≡◌, ◌<◌, ◌+◌, [], IfSome, IsSome, length, true, ℕ};
ghost use Rattle.turn_tests.specs.Totals.{made_by};
ghost use Rattle.turn_lock.specs.Histories.{has};
ghost use Rattle.turn_lock.specs.Passes.{IsPassOf, pass_number, pass_view};

use crate::tally::{Ask, Tally};
use std::sync::Wait;
use std::thread;
use std::thread::Threads;
use turn_lock::{Pass, TurnLock};

/// An addition, and the total before it where it was recorded.
pub fn add<R: Wait>(
    rt: &R,
    lock: &TurnLock<Tally>,
    pass: &mut Pass<Tally, Ask>,
    amount: u64,
) -> Option<u64>
    requires { IsPassOf lock.now pass.old }
    ensures pass { IsPassOf lock.now pass.new }
    ensures made { IsSome result → made_by (pass_view pass.new) ≡ made_by (pass_view pass.old) + 1 }
{
    lock.call(rt, pass, Ask::Add(amount))
}

/// Two more passes. Their numbers are different, and neither is one that the first pass knew.
pub fn two_more<R: Wait>(
    rt: &R,
    lock: &TurnLock<Tally>,
    pass: &mut Pass<Tally, Ask>,
) -> Option<(Pass<Tally, Ask>, Pass<Tally, Ask>)>
    requires { IsPassOf lock.now pass.old }
    ensures pass { IsPassOf lock.now pass.new }
    ensures more { IfSome result (λ p. IsPassOf lock.now p.0 × IsPassOf lock.now p.1) }
    ensures rise { IfSome result (λ p. pass_number p.0 < pass_number p.1) }
    ensures above { IfSome result
        (λ p. (k : ℕ) → has k (pass_view pass.old).known ≡ true → k < pass_number p.0) }
{
    let one = lock.split(rt, pass).ok()?;
    let other = lock.split(rt, pass).ok()?;
    Some((one, other))
}

/// A pass that the other gives, the other joined into the first, and a pass that the first gives then. Their
/// numbers are different: what the other gave counts as given by the first.
pub fn two_between<R: Wait>(
    rt: &R,
    lock: &TurnLock<Tally>,
    pass: &mut Pass<Tally, Ask>,
    mut other: Pass<Tally, Ask>,
) -> Option<(Pass<Tally, Ask>, Pass<Tally, Ask>)>
    requires pass { IsPassOf lock.now pass.old }
    requires other { IsPassOf lock.now other }
    ensures pass { IsPassOf lock.now pass.new }
    ensures more { IfSome result (λ p. IsPassOf lock.now p.0 × IsPassOf lock.now p.1) }
    ensures rise { IfSome result (λ p. pass_number p.0 < pass_number p.1) }
{
    let one = lock.split(rt, &mut other).ok()?;
    lock.join(pass, other);
    let last = lock.split(rt, pass).ok()?;
    Some((one, last))
}

/// The pass has seen its hundred additions of 0 to 99, where each was recorded.
pub fn hundred<R: Wait>(
    rt: &R,
    lock: &TurnLock<Tally>,
    mut pass: Pass<Tally, Ask>,
) -> Option<Pass<Tally, Ask>>
    requires pass { IsPassOf lock.now pass }
    requires first { (pass_view pass).seen ≡ [] }
    ensures pass { IfSome result (λ p. IsPassOf lock.now p) }
    ensures made { IfSome result (λ p. made_by (pass_view p) ≡ 100) }
{
    for amount in 0..100 {
        if add(rt, lock, &mut pass, amount).is_none() {
            return None;
        }
    }
    Some(pass)
}

/// Two threads with a hundred additions each; the pass that is left has seen two hundred.
pub fn two_hundred<R: Threads + Wait + Sync>(
    rt: &R,
    lock: &TurnLock<Tally>,
    mut pass: Pass<Tally, Ask>,
) -> Option<Pass<Tally, Ask>>
    requires pass { IsPassOf lock.now pass }
    requires first { (pass_view pass).seen ≡ [] }
    ensures pass { IfSome result (λ p. IsPassOf lock.now p) }
    ensures made { IfSome result (λ p. made_by (pass_view p) ≡ 200) }
{
    let half = lock.split(rt, &mut pass).ok()?;
    let (one, other) = thread::join(rt, || hundred(rt, lock, pass), || hundred(rt, lock, half));
    let mut one = one?;
    lock.join(&mut one, other?);
    Some(one)
}

/// Four threads.
pub fn four_hundred<R: Threads + Wait + Sync>(
    rt: &R,
    lock: &TurnLock<Tally>,
    mut pass: Pass<Tally, Ask>,
) -> Option<Pass<Tally, Ask>>
    requires pass { IsPassOf lock.now pass }
    requires first { (pass_view pass).seen ≡ [] }
    ensures pass { IfSome result (λ p. IsPassOf lock.now p) }
    ensures made { IfSome result (λ p. made_by (pass_view p) ≡ 400) }
{
    let half = lock.split(rt, &mut pass).ok()?;
    let (one, other) = thread::join(
        rt,
        ||
            requires pass { IsPassOf lock.now pass }
            requires first { (pass_view pass).seen ≡ [] }
            ensures pass { IfSome result (λ p. IsPassOf lock.entry.now p) }
            ensures made { IfSome result (λ p. made_by (pass_view p) ≡ 200) }
        { two_hundred(rt, lock, pass) },
        ||
            requires pass { IsPassOf lock.now half }
            requires first { (pass_view half).seen ≡ [] }
            ensures pass { IfSome result (λ p. IsPassOf lock.entry.now p) }
            ensures made { IfSome result (λ p. made_by (pass_view p) ≡ 200) }
        { two_hundred(rt, lock, half) },
    );
    let mut one = one?;
    lock.join(&mut one, other?);
    Some(one)
}

/// Eight threads, that split and join in a tree.
pub fn eight_hundred<R: Threads + Wait + Sync>(
    rt: &R,
    lock: &TurnLock<Tally>,
    mut pass: Pass<Tally, Ask>,
) -> Option<Pass<Tally, Ask>>
    requires pass { IsPassOf lock.now pass }
    requires first { (pass_view pass).seen ≡ [] }
    ensures pass { IfSome result (λ p. IsPassOf lock.now p) }
    ensures made { IfSome result (λ p. made_by (pass_view p) ≡ 800) }
{
    let half = lock.split(rt, &mut pass).ok()?;
    let (one, other) = thread::join(
        rt,
        ||
            requires pass { IsPassOf lock.now pass }
            requires first { (pass_view pass).seen ≡ [] }
            ensures pass { IfSome result (λ p. IsPassOf lock.entry.now p) }
            ensures made { IfSome result (λ p. made_by (pass_view p) ≡ 400) }
        { four_hundred(rt, lock, pass) },
        ||
            requires pass { IsPassOf lock.now half }
            requires first { (pass_view half).seen ≡ [] }
            ensures pass { IfSome result (λ p. IsPassOf lock.entry.now p) }
            ensures made { IfSome result (λ p. made_by (pass_view p) ≡ 400) }
        { four_hundred(rt, lock, half) },
    );
    let mut one = one?;
    lock.join(&mut one, other?);
    Some(one)
}
