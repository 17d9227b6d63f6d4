ghost use Rattle.std.specs.Prelude.{◌≡◌, ◌++◌, ◌<◌, ℕ, List, true, false, suc, IfOk, OnOk, IsSome, None, nat_lt};
ghost use Rattle.std.specs.List.{AllByRecursion};
ghost use Rattle.std.specs.FinMap as map;
ghost use Rattle.vfs_tree.specs.Limits.{IsCaller};
ghost use Rattle.vfs_tree.specs.Start.{start_world};
ghost use Rattle.call_model.specs.Legal.{IsLegal, Extends, calls_of, calls_in};
ghost use Rattle.call_model.specs.declared.call.Line.{Line};
ghost use Rattle.vfs_core.specs.Turning.{FitsJob, Turns, Begins, Runs, IsDone, calls_with, owed, callers_left, HasLeft, lines_left, is_ready, ready_to, ready, Paces, pace_of, calls_left, RunsLine, Ends, lines_of};

use crate::kern::{Kern, Stepped};
use crate::queue::{Begun, CallQueue, enqueue};
use call_model::Line;
use finite_maps::NumberMap;
use std::alloc::{AllocError, Global};
use std::marker::Model;
use turn_order::pick;

/// What a turn of a caller did.
#[derive(Debug, Drop)]
pub enum Turned {
    /// The caller's next call was begun.
    Began,
    /// The caller has no live call, and none left.
    Idle,
    /// For want of memory the caller's next call wasn't begun.
    NoMemory,
    /// The caller's live call was stepped.
    Did {
        /// What the step did.
        stepped: Stepped,
    },
}

/// What a turn means for a run of all calls.
#[derive(Clone, Copy)]
enum Pace {
    /// Nobody has a call live or left.
    Over,
    /// Memory is wanting.
    Stuck,
    /// A call was begun or has ended.
    Moved,
    /// A live call went on.
    Went,
}

/// A kernel, and the calls that its callers have yet to make.
///
/// Contracts see the kernel, by caller the calls that are left, and the callers of the lines in their order.
#[derive(Drop)]
pub struct Job {
    kern: Kern,
    left: NumberMap<CallQueue>,
    order: Vec<u32>,
}

impl Model for Job {
    ghost use Rattle.vfs_core.specs.Work.{Work, IsRunning};

    ghost Value = { Work };

    ghost use Rattle.call_model.specs.contracts.call.Call as call;
    ghost use Rattle.vfs_core.specs.contracts.kern.Kern as kernel;
    ghost use Rattle.std.specs.Coded.{codes, coded_ℕ, coded_list};
    ghost use Rattle.std.specs.Ordering.{nat_cmp};
    ghost use Rattle.std.specs.FinMap as map;

    ghost coded = { Prim.hlevel (codes, map.code {R = nat_cmp} coded_ℕ (coded_list call.the_row.coded), kernel.the_row.coded) };

    ghost view = { λ j. record { kern = j.kern; left = j.left; order = j.order.items } };

    ghost invariant = { λ j. IsRunning j.kern j.left j.order.items };
}

impl Job {
    /// A job with these calls, each caller's in their order. The only fault is want of memory.
    pub fn new(alloc: Global, kern: Kern, calls: Vec<Line>) -> Result<Job, AllocError>
        requires idle { kern.pending ≡ map.empty }
        requires fits { AllByRecursion (FitsJob kern.limits) calls.items }
        ensures kern { IfOk result (λ job. job.kern ≡ kern) }
        ensures each_call { IfOk result (λ job. (c : ℕ) → calls_with job c ≡ calls_of c kern.history ++ calls_in c calls.items) }
        ensures left { IfOk result (λ job. HasLeft calls.items job) }
    {
        let _history = kern.history();
        let mut left = NumberMap::new(alloc);
        let mut order = Vec::new(alloc);
        for line in calls {
            let Line { caller, call } = line;
            enqueue(alloc, &mut left, caller, call)?;
            order.push(caller)?;
        }
        Ok(Job { kern, left, order })
    }

    /// Gives a caller a turn: its live call is stepped, or else its next call is begun.
    pub fn turn(&mut self, alloc: Global, caller: u32) -> Turned
        requires { IsCaller self.old.kern.limits caller }
        ensures turned { Turns self.old self.new caller result }
        // The history is legal with the calls that are pending, and begins with the one before.
        ensures legal { IsLegal self.new.kern.pending (start_world self.new.kern.limits) self.new.kern.history }
        ensures extends { Extends self.old.kern.history self.new.kern.history }
        // Each caller's calls in it, then its live call, then its calls left are what they were.
        ensures each_call { (c : ℕ) → calls_with self.new c ≡ calls_with self.old c }
        // The lines that were left are left, but the caller's first one where its call ended.
        ensures left { (lines : List Line) → HasLeft lines self.old → HasLeft (lines_left caller result lines) self.new }
    {
        if self.kern.is_live(caller) {
            let stepped = self.kern.step(alloc, caller);
            return Turned::Did { stepped };
        }
        match self.begin(caller) {
            Begun::Began => Turned::Began,
            Begun::Idle => Turned::Idle,
            Begun::NoMemory => Turned::NoMemory,
        }
    }

    /// Begins the next call of a caller that has none live.
    fn begin(&mut self, caller: u32) -> Begun
        requires caller { IsCaller self.old.kern.limits caller }
        requires idle { map.get self.old.kern.pending caller ≡ None }
        ensures begun { Begins self.old self.new caller result }
        ensures legal { IsLegal self.new.kern.pending (start_world self.new.kern.limits) self.new.kern.history }
    {
        match self.left.get_mut(caller) {
            Some(queue) => queue.begin_next(&mut self.kern, caller),
            None => Begun::Idle,
        }
    }

    /// Whether a caller has a call live or left.
    fn is_ready(&self, caller: u32) -> bool
        ensures { result ≡ is_ready self.now caller }
    {
        if self.kern.is_live(caller) {
            return true;
        }
        match self.left.get(caller) {
            Some(queue) => !queue.is_empty(),
            None => false,
        }
    }

    /// How many callers have a call live or left.
    fn ready(&self) -> u32
        ensures count { result ≡ ready self.now }
        ensures none { result ≡ 0 → (c : ℕ) → IsDone self.now c }
    {
        let callers = self.kern.limits().callers;
        let mut count = 0;
        for before in 0..callers {
            if self.is_ready(before + 1) {
                count += 1;
            }
        }
        count
    }

    /// The caller at a position, counted from 0, among those that have a call live or left, in ascending order.
    fn ready_at(&self, position: u32) -> u32
        requires { position < ready self.now }
        ensures caller { IsCaller self.now.kern.limits result }
        ensures ready { is_ready self.now result ≡ true }
        ensures at { ready_to self.now result ≡ suc position }
    {
        let callers = self.kern.limits().callers;
        let mut count = 0;
        for before in 0..callers {
            if !self.is_ready(before + 1) {
                continue;
            }
            if count == position {
                return before + 1;
            }
            count += 1;
        }
        unreachable!()
    }

    /// Gives the turn to the caller on whom it falls by the seed.
    fn turn_by_seed(&mut self, alloc: Global, seed: u64, turn: u64) -> Pace
        ensures runs { Runs self.old self.new }
        ensures paces { Paces self.old self.new result }
    {
        let ready = self.ready();
        if ready == 0 {
            return Pace::Over;
        }
        let caller = self.ready_at(pick(seed, turn, ready));
        let turned = self.turn(alloc, caller);
        pace_of(&turned)
    }

    /// Gives turns until one has begun or ended a call; false where nobody has a call live or left.
    fn move_on(&mut self, alloc: Global, seed: u64, turn: &mut u64) -> Result<bool, AllocError>
        ensures runs { Runs self.old self.new }
        ensures moved { IfOk result (λ more. more ≡ true → calls_left self.new < calls_left self.old) }
        ensures done { IfOk result (λ more. more ≡ false → (c : ℕ) → IsDone self.new c) }
    {
        loop {
            let now = *turn;
            *turn = now.wrapping_add(1);
            match self.turn_by_seed(alloc, seed, now) {
                Pace::Over => return Ok(false),
                Pace::Stuck => return Err(AllocError),
                Pace::Moved => return Ok(true),
                Pace::Went => {}
            }
        }
    }

    /// Runs the next call of a caller to its end, or its live one. Where it has neither, it does nothing.
    fn run_line(&mut self, alloc: Global, caller: u32) -> Result<(), AllocError>
        requires { IsCaller self.old.kern.limits caller }
        ensures runs { Runs self.old self.new }
        ensures line { OnOk result (RunsLine caller self.old self.new) }
    {
        if !self.kern.is_live(caller) {
            match self.begin(caller) {
                Begun::Began => {}
                Begun::Idle => return Ok(()),
                Begun::NoMemory => return Err(AllocError),
            }
        }
        end_call(alloc, &mut self.kern, caller);
        Ok(())
    }

    /// Whether a caller has more than that many calls live or left.
    fn is_owed_more(&self, caller: u32, count: usize) -> bool
        ensures { result ≡ nat_lt count (owed self.now caller) }
    {
        let queued = match self.left.get(caller) {
            Some(queue) => queue.len(),
            None => 0,
        };
        if self.kern.is_live(caller) {
            return count <= queued;
        }
        count < queued
    }

    /// The callers of the lines that have not ended, in the order of the lines. The only fault is want of memory.
    fn callers_left(&self, alloc: Global) -> Result<Vec<u32>, AllocError>
        ensures callers { IfOk result (λ callers. callers.items ≡ callers_left (owed self.now) self.now.order) }
        ensures fits { IfOk result (λ callers. AllByRecursion (IsCaller self.now.kern.limits) callers.items) }
    {
        let mut callers = Vec::new(alloc);
        let mut later = NumberMap::new(alloc);
        for at in (0..self.order.len()).rev() {
            let caller = self.order[at];
            let count = later.get(caller).copied().unwrap_or(0);
            if self.is_owed_more(caller, count) {
                callers.push(caller)?;
            }
            later.insert(caller, count + 1)?;
        }
        callers.reverse();
        Ok(callers)
    }

    /// Runs all calls that are left. Turns count from 0; each goes to one of the callers that have a call live or left, in
    /// ascending order, by `pick` of the seed and the turn. The only fault is want of memory, after which the turns that
    /// were made stand.
    pub fn run_seed(&mut self, alloc: Global, seed: u64) -> Result<(), AllocError>
        ensures runs { Runs self.old self.new }
        ensures done { OnOk result ((c : ℕ) → IsDone self.new c) }
    {
        let mut turn = 0;
        while self.move_on(alloc, seed, &mut turn)? {}
        Ok(())
    }

    /// Runs all calls that are left, each to its end, in the order of their lines; a call that is live stands at the place of
    /// its line. The only fault is want of memory, after which the turns that were made stand.
    pub fn run_order(&mut self, alloc: Global) -> Result<(), AllocError>
        ensures runs { Runs self.old self.new }
        ensures done { OnOk result ((c : ℕ) → IsDone self.new c) }
        // The call entries that are new are the lines that were left, in their order.
        ensures ordered { OnOk result ((lines : List Line) → HasLeft lines self.old → lines_of self.new.kern.history ≡ lines_of self.old.kern.history ++ lines) }
    {
        let callers = self.callers_left(alloc)?;
        for caller in callers {
            self.run_line(alloc, caller)?;
        }
        self.run_seed(alloc, 0)
    }

    /// The kernel.
    pub fn kern(&self) -> &Kern
        ensures { result.now ≡ self.now.kern }
    {
        &self.kern
    }

    /// The kernel, without the calls that are left.
    pub fn into_kern(self) -> Kern
        ensures { result ≡ self.kern }
    {
        self.kern
    }
}

/// What a turn means for a run of all calls.
fn pace_of(turned: &Turned) -> Pace
    ensures { result ≡ pace_of turned.now }
{
    match turned {
        Turned::Idle => Pace::Over,
        Turned::NoMemory => Pace::Stuck,
        Turned::Began => Pace::Moved,
        Turned::Did {
            stepped: Stepped::Went,
        } => Pace::Went,
        Turned::Did {
            stepped: Stepped::Ended { .. },
        } => Pace::Moved,
    }
}

/// Takes the live call of a caller to its end.
fn end_call(alloc: Global, kern: &mut Kern, caller: u32)
    requires { IsSome (map.get kern.old.pending caller) }
    ensures ended { Ends kern.old kern.new caller }
    ensures legal { IsLegal kern.new.pending (start_world kern.new.limits) kern.new.history }
{
    loop {
        match kern.step(alloc, caller) {
            Stepped::Went => {}
            Stepped::Ended { .. } => return,
        }
    }
}
