// What a send says besides joins the region that was sent (document 02, request 1).
ghost use Rattle.std.specs.Prelude.{◌≡◌};
ghost use Rattle.tables.specs.Tables.{hash_given};
ghost use Rattle.tables.specs.View.{view, Sized, Left};
ghost use Rattle.send_options.specs.Joining.{add_hcv, with_options, apply_options};

use crate::SendOptions;
use rights::Rights;
use tables::{Hash, RegionCapa, RegionHash};

// The flags join the rights of region i.
fn add_hcv(t: &mut [u64], i: usize, flags: Rights)
    requires { Sized t.old }
    ensures { Left t.new (add_hcv i flags (view t.old)) }
{
    let mut r = rows::load::<RegionCapa>(t, i);
    let ops = children::rights_of(r.rights).union(flags);
    r.rights = ops.0 as u64;
    rows::store(t, i, r);
}

// The row of a hash that was given.
fn hash_given(h: Hash) -> RegionHash
    ensures { result ≡ hash_given h }
{
    RegionHash {
        given: 1,
        word0: h.word0,
        word1: h.word1,
        word2: h.word2,
        word3: h.word3,
    }
}

// The flags join the rights of region i, and its hash becomes `hash`.
fn set_options(t: &mut [u64], i: usize, flags: Rights, hash: RegionHash)
    requires { Sized t.old }
    ensures { Left t.new (with_options i flags hash (view t.old)) }
{
    add_hcv(t, i, flags);
    rows::store(t, i, hash);
}

// Region i was sent: with a flag word its flags join the region's rights, and the hash is stored, or cleared when
// absent; without one nothing is done, so that the stored hash stays.
pub fn apply_options(t: &mut [u64], i: usize, o: SendOptions)
    requires { Sized t.old }
    ensures { Left t.new (apply_options i o (view t.old)) }
{
    match o {
        SendOptions::None => (),
        SendOptions::Flags(flags) => set_options(t, i, flags, RegionHash::default()),
        SendOptions::Hashed(flags, hash) => set_options(t, i, flags, hash_given(hash)),
    }
}
