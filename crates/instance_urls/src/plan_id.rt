// Plans of pages, and their texts.
ghost use Rattle.std.specs.Prelude.{◌≡◌, ◌≤◌, ◌++◌, IfSome, OnOk, Some, decimal, true, ℕ};
ghost use Rattle.hmr_types.specs.declared.limits.TheConstants.{LARGEST_NUMBER};
ghost use Rattle.instance_urls.specs.Plans.{IsPlan, both, number_of, plan_of, plan_text};
ghost use Rattle.instance_urls.specs.declared.plan_id.PlanId as plans;

use hmr_types::limits::LARGEST_NUMBER;
use std::alloc::AllocError;

/// A plan of a page. Its text is `5.2`, for plan 2 of page 5: two numbers in decimal, each 2^53 - 1 at most.
#[derive(Clone, Copy, Debug, PartialEq, Eq, PartialOrd, Ord, Hash)]
pub struct PlanId {
    /// The number of the page.
    pub page: u64,
    /// Which of the page's plans it is.
    pub plan: u64,
}

impl PlanId {
    /// The plan whose text this is; None where it is no plan's.
    pub fn read(text: &str) -> Option<PlanId>
        ensures written { IfSome result (λ id. (text.now ≡ plan_text id) × IsPlan id) }
        ensures value { result ≡ plan_of text.now }
        ensures each { (id : plans.PlanId) → IsPlan id → text.now ≡ plan_text id → result ≡ Some id }
    {
        match text.split_once('.') {
            Some((page, plan)) => both(number_of(page), number_of(plan)),
            None => None,
        }
    }

    /// Puts the text of the plan.
    pub fn append_to(self, out: &mut Vec<u8>) -> Result<(), AllocError>
        ensures { OnOk result (out.new.items ≡ out.old.items ++ plan_text self) }
    {
        put_number(out, self.page)?;
        out.extend_from_slice(b".")?;
        put_number(out, self.plan)
    }
}

/// The plan of these numbers, where both are there.
fn both(page: Option<u64>, plan: Option<u64>) -> Option<PlanId>
    ensures { result ≡ both page plan }
{
    match (page, plan) {
        (Some(page), Some(plan)) => Some(PlanId { page, plan }),
        _ => None,
    }
}

/// The number that a text is in decimal, without leading zeros, where it is 2^53 - 1 at most.
fn number_of(text: &str) -> Option<u64>
    ensures written { IfSome result (λ n. (text.now ≡ decimal n) × (n ≤ LARGEST_NUMBER)) }
    ensures each { (n : ℕ) → n ≤ LARGEST_NUMBER → text.now ≡ decimal n → result ≡ Some n }
    ensures value { result ≡ number_of text.now }
{
    let number = parsed(text);
    number
}

fn parsed(text: &str) -> Option<u64>
    ensures written { IfSome result (λ n. (text.now ≡ decimal n) × (n ≤ LARGEST_NUMBER)) }
    ensures each { (n : ℕ) → n ≤ LARGEST_NUMBER → text.now ≡ decimal n → result ≡ Some n }
{
    match text.parse::<u64>() {
        Ok(number) => {
            if number <= LARGEST_NUMBER && is_decimal(text, number) {
                Some(number)
            } else {
                None
            }
        }
        Err(_) => None,
    }
}

/// Whether a text is a number in decimal.
fn is_decimal(text: &str, number: u64) -> bool
    ensures yes { result ≡ true → text.now ≡ decimal number }
    ensures no { text.now ≡ decimal number → result ≡ true }
{
    let mut buffer = itoa::Buffer::new();
    buffer.format(number) == text
}

fn put_number(out: &mut Vec<u8>, number: u64) -> Result<(), AllocError>
    ensures { OnOk result (out.new.items ≡ out.old.items ++ decimal number) }
{
    let mut buffer = itoa::Buffer::new();
    out.extend_from_slice(buffer.format(number).as_bytes())
}
