// What a freed slot has in the sections, made 0.

#![tactic(auto)]

ghost use Rattle.tables.specs.Tables.{no_region, no_record, no_hash, no_interface, with_region, with_record, with_hash, with_interface, without_domain};
ghost use Rattle.tables.specs.View.{view, Sized, Left};

use tables::{Interface, Region, RegionCapa, RegionHash};

// A domain's record with its slots, and its interface (document 02, request 5: its list is as a making leaves it).
pub fn wipe_domain(t: &mut [u64], i: usize)
    requires { Sized t.old }
    ensures { Left t.new (with_interface (without_domain (view t.old) i) i no_interface) }
{
    rows::clear_domain(t, i);
    rows::store(t, i, Interface::default());
}

// A region's record and its hash (document 02, request 1: a slot that is given again has none).
pub fn wipe_region(t: &mut [u64], i: usize)
    requires { Sized t.old }
    ensures { Left t.new (with_hash (with_region (view t.old) i no_region) i no_hash) }
{
    rows::store(t, i, RegionCapa::default());
    rows::store(t, i, RegionHash::default());
}

// A tracker's record.
pub fn wipe_record(t: &mut [u64], i: usize)
    requires { Sized t.old }
    ensures { Left t.new (with_record (view t.old) i no_record) }
{
    rows::store(t, i, Region::default());
}
