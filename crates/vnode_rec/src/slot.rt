// A slot of the vnode table, and the data by which its vnode is found.
ghost use Rattle.std.specs.Prelude.{◌≡◌, ◌↔◌, true, IsTrue};
ghost use Rattle.std.specs.Option.{option_copied};
ghost use Rattle.vnode_rec.specs.Identity.{found_by, identity};

use op_vector::VData;
use vfs_tree::Name;

/// A slot of the vnode table. It is empty where it has no box.
#[derive(Drop)]
pub struct Slot<B> {
    /// The operation vector of the vnode.
    pub vop: Option<B>,
    /// The data of the vnode's file system.
    pub vdata: VData,
    /// The name of a file that is in the lower layer of a union alone.
    pub name: Option<Name>,
    /// How often the slot has been filled.
    pub generation: u64,
    /// Whether the vnode was reclaimed by force.
    pub doomed: bool,
}

/// The data by which a vnode is found.
pub fn key_of(vd: &VData, is_named: bool) -> VData
    ensures { result ≡ found_by vd.now is_named }
{
    match *vd {
        VData::Union {
            mount,
            ino,
            lower,
            ..
        } => VData::Union {
            mount,
            ino,
            upper: None,
            lower: if is_named { lower } else { None },
            at: 0,
        },
        other => other,
    }
}

fn is_same_name(a: &Option<Name>, b: Option<&Name>) -> bool
    ensures { IsTrue result ↔ (a.now ≡ option_copied b.entry) }
{
    match (a, b) {
        (Some(a), Some(b)) => a == b,
        (None, None) => true,
        _ => false,
    }
}

impl<B> Slot<B> {
    pub fn is_of(&self, vd: &VData, name: Option<&Name>) -> bool
        ensures { IsTrue result ↔ (identity self.now.vdata self.now.name ≡ identity vd.now (option_copied name.entry)) }
    {
        is_same_name(&self.name, name)
            && key_of(&self.vdata, name.is_some()) == key_of(vd, name.is_some())
    }
}
