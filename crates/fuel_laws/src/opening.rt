// An open answers the lowest free descriptor.
ghost use Rattle.std.specs.Prelude.{◌≡◌, ◌<◌, ℕ, List, false};
ghost use Rattle.vfs_tree.specs.declared.errno.Errno.TheVariants as errno;
ghost use Rattle.vfs_tree.specs.declared.world.World.{World};
ghost use Rattle.call_model.specs.Apply.{Finished, apply};
ghost use Rattle.call_model.specs.NameEdits.{is_fail};
ghost use Rattle.call_model.specs.declared.call.Call.TheVariants as call;
ghost use Rattle.call_model.specs.declared.call.Flags.{Flags};
ghost use Rattle.call_model.specs.declared.reply.Reply.{Reply};
ghost use Rattle.call_model.specs.declared.reply.Reply.TheVariants as reply;
ghost use Rattle.fuel_laws.specs.Lowest.{IsJustOpened, IsLowestFree};

/// An open that is done answers the lowest free descriptor: a law of the model, with no code.
pub fn open_answers_the_lowest_descriptor()
    // It answers a descriptor,
    ensures descriptor { (w new : World) (c : ℕ) (text : List ℕ) (f : Flags) (r : Reply)
        → apply w c (call.Open text f) ≡ Finished new r → is_fail r ≡ false → (fd : ℕ) × (r ≡ reply.Fd fd) }
    // which was free, and below which every one was taken,
    ensures lowest { (w new : World) (c fd : ℕ) (text : List ℕ) (f : Flags)
        → apply w c (call.Open text f) ≡ Finished new (reply.Fd fd) → IsLowestFree w c fd }
    // is one of 32,
    ensures few { (w new : World) (c fd : ℕ) (text : List ℕ) (f : Flags)
        → apply w c (call.Open text f) ≡ Finished new (reply.Fd fd) → fd < 32 }
    // and stands from then on for what was opened, at its start.
    ensures opened { (w new : World) (c fd : ℕ) (text : List ℕ) (f : Flags)
        → apply w c (call.Open text f) ≡ Finished new (reply.Fd fd) → IsJustOpened new c fd f }
{}
