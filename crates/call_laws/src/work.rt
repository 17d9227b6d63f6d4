// An inner entry that a call may need lowers the work that is left.
ghost use Rattle.std.specs.Prelude.{◌≤◌, ◌<◌, ℕ};
ghost use Rattle.vfs_tree.specs.declared.limits.Limits.{Limits};
ghost use Rattle.vfs_tree.specs.declared.world.World.{World};
ghost use Rattle.call_model.specs.Effects.{effect};
ghost use Rattle.call_model.specs.declared.call.Call.{Call};
ghost use Rattle.call_model.specs.declared.entry.Inner.{Inner};
ghost use Rattle.call_laws.specs.Fitting.{MayNeed, TakesNumber};
ghost use Rattle.call_laws.specs.Live.{work_left};

/// An inner entry that a caller's call may need leaves less work than there was: a node takes an inode number for good, a
/// detached mount has one caller more that is leaving one, and a doomed reference lives no more. So no call needs inner
/// entries without end.
pub fn an_entry_uses_up_work()
    ensures { (limits : Limits) (w : World) (c : ℕ) (call : Call) (x : Inner)
        → 1 ≤ c → c ≤ limits.callers → MayNeed w c call x → TakesNumber w x
        → work_left limits (effect w c x) < work_left limits w }
{}
