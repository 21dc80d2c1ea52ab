// What the nets in memory have in common: what they were asked, the port that they listen at, which of
// their calls are to fail and which calls of the ends to come, and what became of the ends that they gave.
ghost use Rattle.std.specs.Prelude.{◌≡◌, ◌≢◌, ◌≤◌, ◌<◌, ◌-◌, ◌^◌, Some, None, false, IfOk, OnErr, OnOk};
ghost use Rattle.hmr_base.specs.Causes.{Rose};
ghost use Rattle.hmr_base.specs.OutCauses.{HasOutCause, is_failed};
ghost use Rattle.hmr_base.specs.Plans.{AsPlanned, faults_of, fresh_plan, plan_of};
ghost use Rattle.hmr_base.specs.declared.out_fault.OutFault.{OutFault};
ghost use Rattle.transport.specs.declared.net.Asked.{Asked};
ghost use Rattle.transport.specs.Asks.{first_asked};
ghost use Rattle.transport.specs.Ends.{ends_after, ends_of, failing_next};
ghost use Rattle.transport.specs.Lent.{Gives, IsSameLending, Refuses};

use crate::{Asked, OutFault};
use hmr_base::FaultPlan;
use std::alloc::Global;
use std::collections::VecDeque;

/// The port that is answered where any would do.
const FREE_PORT: u16 = 5173;

/// The common part of a net in memory.
#[derive(Drop)]
pub(crate) struct Port {
    asked: Option<Asked>,
    heard: Option<u16>,
    plan: FaultPlan,
    ends: VecDeque<Vec<u64>>,
    lent: u64,
    refused: bool,
    late: bool,
}

impl Port {
    pub(crate) fn new(failing: Vec<u64>, ends: VecDeque<Vec<u64>>) -> Self
        ensures unasked { (result.asked ≡ None) × (result.heard ≡ None) }
        ensures plan { plan_of result.plan ≡ fresh_plan failing.items }
        ensures faults { faults_of result.plan ≡ 0 }
        ensures ends { result.ends ≡ ends }
        ensures none { (result.lent ≡ 0) × (result.refused ≡ false) × (result.late ≡ false) }
    {
        Port {
            asked: None,
            heard: None,
            plan: FaultPlan::new(failing),
            ends,
            lent: 0,
            refused: false,
            late: false,
        }
    }

    pub(crate) fn listen(&mut self, port: u16) -> Result<u16, OutFault>
        ensures asked { self.new.asked ≡ Some (Asked.Listen port) }
        ensures heard { IfOk result (λ heard. self.new.heard ≡ Some heard) }
        ensures ends { self.new.ends ≡ self.old.ends }
        ensures lent { IsSameLending self.old self.new }
        ensures cause { HasOutCause (faults_of self.old.plan) (faults_of self.new.plan) result }
        ensures planned { AsPlanned (Some (plan_of self.old.plan)) (Some (plan_of self.new.plan))
            (is_failed result) false }
    {
        self.asked = Some(Asked::Listen(port));
        self.plan.begin()?;
        let heard = if port == 0 { FREE_PORT } else { port };
        self.heard = Some(heard);
        Ok(heard)
    }

    /// Refused as planned, and where one more end can't be counted.
    pub(crate) fn begin_accept(&mut self) -> Result<(), OutFault>
        ensures asked { self.new.asked ≡ self.old.asked }
        ensures heard { self.new.heard ≡ self.old.heard }
        ensures ends { self.new.ends ≡ self.old.ends }
        ensures same { OnOk result (IsSameLending self.old self.new) }
        ensures room { OnOk result (self.new.lent < 2 ^ 64 - 1) }
        ensures kept { OnErr result (Refuses self.old self.new) }
        ensures cause { HasOutCause (faults_of self.old.plan) (faults_of self.new.plan) result }
        ensures planned { AsPlanned (Some (plan_of self.old.plan)) (Some (plan_of self.new.plan))
            (is_failed result) false }
    {
        match self.plan.begin() {
            Ok(()) if self.lent < u64::MAX => Ok(()),
            Ok(()) => Err(self.refuse(OutFault::NoMemory)),
            Err(fault) => Err(self.refuse(OutFault::from(fault))),
        }
    }

    /// Notes that an end is refused for this cause.
    pub(crate) fn refuse(&mut self, fault: OutFault) -> OutFault
        ensures same { result ≡ fault }
        ensures kept { Refuses self.old self.new }
        ensures asked { self.new.asked ≡ self.old.asked }
        ensures heard { self.new.heard ≡ self.old.heard }
        ensures ends { self.new.ends ≡ self.old.ends }
        ensures plan { self.new.plan ≡ self.old.plan }
    {
        self.refused = true;
        fault
    }

    pub(crate) fn begin_connect(&mut self, port: u16) -> Result<(), OutFault>
        ensures asked { self.new.asked ≡ first_asked self.old.asked (Asked.Connect port) }
        ensures heard { self.new.heard ≡ self.old.heard }
        ensures ends { self.new.ends ≡ self.old.ends }
        ensures same { OnOk result (IsSameLending self.old self.new) }
        ensures room { OnOk result (self.new.lent < 2 ^ 64 - 1) }
        ensures kept { OnErr result (Refuses self.old self.new) }
        ensures cause { HasOutCause (faults_of self.old.plan) (faults_of self.new.plan) result }
        ensures planned { AsPlanned (Some (plan_of self.old.plan)) (Some (plan_of self.new.plan))
            (is_failed result) false }
    {
        if self.asked.is_none() {
            self.asked = Some(Asked::Connect(port));
        }
        self.begin_accept()
    }

    /// Counts the end that comes now, and gives the numbers of its calls that are to fail.
    pub(crate) fn next_end(&mut self, alloc: Global) -> Vec<u64>
        requires room { self.old.lent < 2 ^ 64 - 1 }
        ensures gave { Gives self.old self.new }
        ensures failing { result.items ≡ failing_next (ends_of self.old) }
        ensures ends { Some (ends_of self.new) ≡ ends_after (Some (ends_of self.old)) }
        ensures asked { self.new.asked ≡ self.old.asked }
        ensures heard { self.new.heard ≡ self.old.heard }
        ensures plan { self.new.plan ≡ self.old.plan }
    {
        self.lent += 1;
        self.late = self.late || self.refused;
        self.ends.pop_front().unwrap_or(Vec::new(alloc))
    }

    /// Takes an end back, and counts a fault where it has some.
    pub(crate) fn retire(&mut self, end_faults: u64)
        ensures rose { end_faults ≢ 0 → Rose (faults_of self.old.plan) (faults_of self.new.plan) }
        ensures same { end_faults ≡ 0 → faults_of self.new.plan ≡ faults_of self.old.plan }
        ensures later { faults_of self.old.plan ≤ faults_of self.new.plan }
        ensures plan { plan_of self.new.plan ≡ plan_of self.old.plan }
        ensures asked { self.new.asked ≡ self.old.asked }
        ensures heard { self.new.heard ≡ self.old.heard }
        ensures ends { self.new.ends ≡ self.old.ends }
        ensures lent { self.new.lent ≡ self.old.lent - 1 }
        ensures refused { (self.new.refused ≡ self.old.refused) × (self.new.late ≡ self.old.late) }
    {
        self.lent = self.lent.saturating_sub(1);
        if end_faults > 0 {
            self.plan.fail();
        }
    }
}
