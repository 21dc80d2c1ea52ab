// What the operators make of values. A result that doesn't fit is a fault and never wraps.
ghost use Rattle.std.specs.Prelude.{◌≡◌, ◌++◌, IfOk, OnOk, pos, ◌+ℤ◌, ◌-ℤ◌, ◌*ℤ◌, neg_ℤ, string_bytes};
ghost use Rattle.module_semantics.specs.Values.{number, text, in_range, written, added, subtracted};
ghost use Rattle.module_semantics.specs.Values.{multiplied, negated, truth, with_op};
ghost use Rattle.const_eval.specs.Stops.{Gives};

use crate::stop::Stop;
use hmr_types::limits::{LARGEST_NUMBER, VALUE_BYTES};
use hmr_types::{EvalFault, Text, Value};
use module_tree::Op;
use std::alloc::{AllocError, Global};

const LARGEST: i64 = LARGEST_NUMBER as i64;

fn in_range(n: i64) -> bool
    ensures { result ≡ in_range n }
{
    -LARGEST <= n && n <= LARGEST
}

#[tactic(auto, unfolding(module_semantics::specs::Values::number))]
fn number(n: i64) -> Result<Value, EvalFault>
    ensures { result ≡ number n }
{
    if in_range(n) {
        Ok(Value::Num(n))
    } else {
        Err(EvalFault::Range)
    }
}

#[tactic(auto, using(crate::proofs::Ranges::too_large))]
fn sum(a: i64, b: i64) -> Result<Value, EvalFault>
    ensures { result ≡ number (a +ℤ b) }
{
    match a.checked_add(b) {
        Some(n) => number(n),
        None => Err(EvalFault::Range),
    }
}

#[tactic(auto, using(crate::proofs::Ranges::too_large))]
fn difference(a: i64, b: i64) -> Result<Value, EvalFault>
    ensures { result ≡ number (a -ℤ b) }
{
    match a.checked_sub(b) {
        Some(n) => number(n),
        None => Err(EvalFault::Range),
    }
}

#[tactic(auto, using(crate::proofs::Ranges::too_large))]
fn product(a: i64, b: i64) -> Result<Value, EvalFault>
    ensures { result ≡ number (a *ℤ b) }
{
    match a.checked_mul(b) {
        Some(n) => number(n),
        None => Err(EvalFault::Range),
    }
}

#[tactic(auto, using(crate::proofs::Ranges::too_large))]
fn opposite(a: i64) -> Result<Value, EvalFault>
    ensures { result ≡ number (neg_ℤ a) }
{
    match a.checked_neg() {
        Some(n) => number(n),
        None => Err(EvalFault::Range),
    }
}

/// The value of a number literal.
#[tactic(auto, unfolding(module_semantics::specs::Values::number))]
pub fn literal(n: u64) -> Result<Value, EvalFault>
    ensures { result ≡ number (pos n) }
{
    if n <= LARGEST_NUMBER {
        Ok(Value::Num(n as i64))
    } else {
        Err(EvalFault::Range)
    }
}

/// A text, where it isn't too long for a value.
#[tactic(auto, unfolding(module_semantics::specs::Values::text))]
pub fn text(characters: Text) -> Result<Value, EvalFault>
    ensures { result ≡ text characters }
{
    if characters.as_str().len() <= VALUE_BYTES {
        Ok(Value::Str(characters))
    } else {
        Err(EvalFault::Range)
    }
}

/// Appends a value written as text. It takes time in proportion to that text.
pub fn put_value(out: &mut String, value: &Value) -> Result<(), AllocError>
    ensures { OnOk result (string_bytes out.new ≡ string_bytes out.old ++ written value.now) }
{
    match value {
        Value::Num(n) => put_number(out, *n),
        Value::Str(text) => out.push_str(text.as_str()),
        Value::Undef => out.push_str("undefined"),
    }
}

fn put_number(out: &mut String, n: i64) -> Result<(), AllocError>
    ensures { OnOk result (string_bytes out.new ≡ string_bytes out.old ++ written (Value.Num n)) }
{
    let mut buffer = itoa::Buffer::new();
    out.push_str(buffer.format(n))
}

/// A value written as text.
pub fn text_of(alloc: Global, value: &Value) -> Result<Text, AllocError>
    ensures { IfOk result (λ t. t ≡ written value.now) }
{
    let mut out = String::new(alloc);
    put_value(&mut out, value)?;
    Ok(Text::from_string(out))
}

fn joined(alloc: Global, a: &Value, b: &Value) -> Result<Value, Stop>
    ensures { Gives result (text (written a.now ++ written b.now)) }
{
    let mut out = String::new(alloc);
    put_value(&mut out, a)?;
    put_value(&mut out, b)?;
    Ok(text(Text::from_string(out))?)
}

fn add(alloc: Global, a: &Value, b: &Value) -> Result<Value, Stop>
    ensures { Gives result (added a.now b.now) }
{
    match (a, b) {
        (Value::Num(m), Value::Num(n)) => Ok(sum(*m, *n)?),
        (Value::Str(_), _) | (_, Value::Str(_)) => joined(alloc, a, b),
        _ => Err(Stop::Fault(EvalFault::NotNumber)),
    }
}

fn subtract(a: &Value, b: &Value) -> Result<Value, EvalFault>
    ensures { result ≡ subtracted a.now b.now }
{
    match (a, b) {
        (Value::Num(m), Value::Num(n)) => difference(*m, *n),
        _ => Err(EvalFault::NotNumber),
    }
}

fn multiply(a: &Value, b: &Value) -> Result<Value, EvalFault>
    ensures { result ≡ multiplied a.now b.now }
{
    match (a, b) {
        (Value::Num(m), Value::Num(n)) => product(*m, *n),
        _ => Err(EvalFault::NotNumber),
    }
}

/// The opposite of a number.
pub fn negate(a: &Value) -> Result<Value, EvalFault>
    ensures { result ≡ negated a.now }
{
    match a {
        Value::Num(n) => opposite(*n),
        _ => Err(EvalFault::NotNumber),
    }
}

/// Whether a value is true: all but 0, the empty text and `undefined`.
pub fn truth(a: &Value) -> bool
    ensures { result ≡ truth a.now }
{
    match a {
        Value::Num(n) => *n != 0,
        Value::Str(text) => !text.as_str().is_empty(),
        Value::Undef => false,
    }
}

/// An operator between two values; of `??` this is the right one.
pub fn with_op(alloc: Global, op: Op, a: &Value, b: Value) -> Result<Value, Stop>
    ensures { Gives result (with_op op a.now b) }
{
    match op {
        Op::Null => Ok(b),
        Op::Add => add(alloc, a, &b),
        Op::Sub => Ok(subtract(a, &b)?),
        Op::Mul => Ok(multiply(a, &b)?),
    }
}
