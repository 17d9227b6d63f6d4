// The calls that callers have yet to make.
ghost use Rattle.std.specs.Prelude.{◌≡◌, ◌∷◌, ◌++◌, ◌-◌, ◌<◌, ◌≤◌, ℕ, [], true, false, length, map, slice_set, vec_len, IfOk, IfNone, OnOk, IsSome, Some};
ghost use Rattle.std.specs.List.{AllByRecursion};
ghost use Rattle.std.specs.Option.{option_to_list};
ghost use Rattle.call_model.specs.Legal.{calls_in};
ghost use Rattle.call_model.specs.declared.call.Call.{Call};
ghost use Rattle.call_model.specs.declared.call.Line.{Line};
ghost use Rattle.call_model.specs.declared.reply.Reply.{Reply};
ghost use Rattle.script_text.specs.Fits.{FitsLine};
ghost use Rattle.vfs_core.specs.Seats.{IsSeatOf, Called, made};
ghost use Rattle.vfs_cli.specs.Workers.{plan_at, ArePlans, IsUpTo, line_of};

use call_model::{Call, Line};
use std::alloc::{AllocError, Global};
use std::collections::VecDeque;
use std::marker::Model;
use std::sync::Wait;
use vfs_core::{Seat, Vfs};

/// The calls that a caller has yet to make, the next one first. Contracts see their list.
#[derive(Drop)]
pub struct Plan {
    calls: VecDeque<Call>,
}

impl Model for Plan {
    ghost use Rattle.std.specs.Prelude.{List};
    ghost use Rattle.call_model.specs.declared.call.Call.{Call};

    ghost Value = { List Call };

    ghost view = { λ p. p.calls.items };
}

impl Plan {
    /// No call.
    fn new(alloc: Global) -> Plan
        ensures { result ≡ [] }
    {
        Plan {
            calls: VecDeque::new(alloc),
        }
    }

    /// Whether there is no call.
    pub fn is_empty(&self) -> bool
        ensures none { result ≡ true → self.now ≡ [] }
        ensures some { result ≡ false → 0 < length self.now }
    {
        self.calls.is_empty()
    }

    /// Puts a call at the end. The only fault is want of memory.
    fn push(&mut self, call: Call) -> Result<(), AllocError>
        ensures { OnOk result (self.new ≡ self.old ++ call ∷ []) }
    {
        match self.calls.push_back(call) {
            Ok(()) => Ok(()),
            Err(_) => Err(AllocError),
        }
    }

    /// Takes the next call out.
    fn take(&mut self) -> Option<Call>
        ensures taken { self.old ≡ option_to_list result ++ self.new }
        ensures none { IfNone result (self.old ≡ []) }
    {
        self.calls.pop_front()
    }

    /// Makes the next call by a seat, and answers whether it was answered. Where it came back it is the next one still.
    pub fn make_next<R: Wait>(&mut self, rt: &R, alloc: Global, vfs: &Vfs, seat: &mut Seat) -> bool
        requires own { IsSeatOf vfs.now seat.old }
        requires some { 0 < length self.old }
        ensures own { IsSeatOf vfs.now seat.new }
        ensures caller { seat.new.caller ≡ seat.old.caller }
        ensures answered { result ≡ true → (call : Call) × (reply : Reply) × (self.old ≡ call ∷ self.new) × Called vfs.now.limits seat.old seat.new call reply }
        ensures back { result ≡ false → (self.new ≡ self.old) × ((n : ℕ) → made n seat.new ≡ made n seat.old) }
    {
        let Some(call) = self.calls.pop_front() else {
            unreachable!()
        };
        match vfs.call(rt, alloc, seat, call) {
            Ok(_reply) => true,
            Err(call) => {
                self.calls.push_front_reserved(call);
                false
            }
        }
    }
}

/// A plan for each caller, without a call. The only fault is want of memory.
fn empty_plans(alloc: Global, callers: u32) -> Result<Vec<Plan>, AllocError>
    ensures count { IfOk result (λ plans. vec_len plans ≡ callers) }
    ensures none { IfOk result (λ plans. (c : ℕ) → plan_at plans.items c ≡ []) }
{
    let mut plans = Vec::new(alloc);
    for _ in 0..callers {
        plans.push(Plan::new(alloc))?;
    }
    Ok(plans)
}

/// Puts a call at the end of its caller's plan. The only fault is want of memory.
fn add(plans: &mut [Plan], caller: u32, call: Call) -> Result<(), AllocError>
    requires { IsUpTo (length plans.old) caller }
    ensures { OnOk result (plans.new ≡ slice_set plans.old (caller - 1) (plan_at plans.old caller ++ call ∷ [])) }
{
    plans[caller as usize - 1].push(call)
}

/// A plan for each caller, with its calls among the lines. The only fault is want of memory.
pub fn plans_of(alloc: Global, callers: u32, lines: Vec<Line>) -> Result<Vec<Plan>, AllocError>
    requires { AllByRecursion (FitsLine callers) lines.items }
    ensures { IfOk result (λ plans. ArePlans callers lines.items plans.items) }
{
    let mut plans = empty_plans(alloc, callers)?;
    for line in lines {
        let Line { caller, call } = line;
        add(&mut plans, caller, call)?;
    }
    Ok(plans)
}

/// Appends the calls of a caller's plan as lines. The only fault is want of memory.
fn put_lines(lines: &mut Vec<Line>, caller: u32, plan: Plan) -> Result<(), AllocError>
    ensures { OnOk result (lines.new.items ≡ lines.old.items ++ map (line_of caller) plan) }
{
    let mut plan = plan;
    loop {
        match plan.take() {
            Some(call) => lines.push(Line { caller, call })?,
            None => return Ok(()),
        }
    }
}

/// The calls that callers have yet to make as lines, caller by caller. The only fault is want of memory.
pub fn lines_of(alloc: Global, plans: Vec<Plan>) -> Result<Vec<Line>, AllocError>
    requires { vec_len plans ≤ 16 }
    ensures calls { IfOk result (λ lines. (c : ℕ) → IsUpTo (vec_len plans) c → calls_in c lines.items ≡ plan_at plans.items c) }
    ensures callers { IfOk result (λ lines. AllByRecursion (λ line. IsUpTo (vec_len plans) line.caller) lines.items) }
{
    let mut lines = Vec::new(alloc);
    let mut caller = 0;
    for plan in plans {
        caller += 1;
        put_lines(&mut lines, caller, plan)?;
    }
    Ok(lines)
}
