// Which calls of a form in memory fail. The calls are numbered from 0 as they come, a call fails where
// its number stands in a list that a test wrote, and each fault is counted.
ghost use Rattle.std.specs.Prelude.{◌≡◌, ◌≤◌, is_err};
ghost use Rattle.hmr_base.specs.Causes.{HasCause, Rose};

use crate::Failed;

/// Which calls of a form in memory fail, and how many have.
#[derive(Debug, Drop)]
pub struct FaultPlan {
    call: u64,
    failing: Vec<u64>,
    faults: u64,
}

impl FaultPlan {
    ghost use Rattle.hmr_base.specs.Plans.{after_call, faults_of, fresh_plan, is_to_fail, plan_of};

    /// The plan by which the calls fail whose numbers, from 0, stand in `failing`.
    pub fn new(failing: Vec<u64>) -> Self
        ensures plan { plan_of result ≡ fresh_plan failing.items }
        ensures faults { faults_of result ≡ 0 }
    {
        FaultPlan {
            call: 0,
            failing,
            faults: 0,
        }
    }

    /// Begins a call. [`Failed`] comes exactly where its number stands in the list, and is counted. It takes
    /// time in proportion to the list.
    pub fn begin(&mut self) -> Result<(), Failed>
        ensures plan { plan_of self.new ≡ after_call (plan_of self.old) }
        ensures planned { is_err result ≡ is_to_fail (plan_of self.old) }
        ensures cause { HasCause (faults_of self.old) (faults_of self.new) result }
    {
        let call = self.call;
        self.call = self.call.saturating_add(1);
        if self.failing.contains(&call) {
            return Err(self.fail());
        }
        Ok(())
    }

    /// Counts a fault that the call now under way has for a cause of its own.
    pub fn fail(&mut self) -> Failed
        ensures plan { plan_of self.new ≡ plan_of self.old }
        ensures later { faults_of self.old ≤ faults_of self.new }
        ensures rose { Rose (faults_of self.old) (faults_of self.new) }
    {
        self.faults = self.faults.saturating_add(1);
        Failed
    }

    /// How many calls failed, up to the largest `u64`.
    pub fn faults(&self) -> u64
        ensures { result ≡ faults_of self.now }
    {
        self.faults
    }
}
