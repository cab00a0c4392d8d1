// A region comes and goes; what a domain gains and loses with it.
ghost use Rattle.std.specs.Prelude.{◌≡◌};
ghost use Rattle.tables.specs.View.{view, Sized, Left};
ghost use Rattle.segment.specs.Regions.{access, capa_for, new_region, freed_region, move_piece};

use answers::Answer;
use pools::Pool;
use refusals::Refusal;
use region::AccessRights;
use tables::RegionCapa;

// A range with the rights of a stored word.
pub fn access(start: u64, end: u64, rights: u64) -> AccessRights
    ensures { result ≡ access start end rights }
{
    let ops = children::rights_of(rights);
    AccessRights { start, end, ops }
}

// A region of domain d, with that kind and that link to its parent.
pub fn capa_for(d: usize, kind: u64, parent: u64, a: AccessRights) -> RegionCapa
    ensures { result ≡ capa_for d kind parent a }
{
    let ops = a.ops;
    RegionCapa {
        kind,
        owner: tables::link_to(d as u64),
        parent,
        start: a.start,
        end: a.end,
        rights: ops.0 as u64,
        child: 0,
        next: 0,
    }
}

// In a slot of its own, which is the answer; 11 where none is free.
pub fn new_region(t: &mut [u64], r: RegionCapa) -> Answer
    requires { Sized t.old }
    ensures value { result ≡ (new_region r (view t.old)).answer }
    ensures left { Left t.new (new_region r (view t.old)).tables }
{
    let h = pools::allocate(t, Pool::Regions).ok_or(Refusal::NoRegion)?;
    rows::store(t, h.slot as usize, r);
    Ok(h.slot)
}

// 16 where its generation is spent.
pub fn free_region(t: &mut [u64], i: usize) -> Answer
    requires { Sized t.old }
    ensures value { result ≡ (freed_region i (view t.old)).answer }
    ensures left { Left t.new (freed_region i (view t.old)).tables }
{
    pools::free(t, Pool::Regions, i)?;
    Ok(0)
}

// The range from x up to y, where it is not empty, leaves domain `old` and joins domain `new`.
pub fn move_piece(t: &mut [u64], old: usize, new: usize, rights: u64, x: u64, y: u64) -> Answer
    requires { Sized t.old }
    ensures value { result ≡ (move_piece old new rights x y (view t.old)).answer }
    ensures left { Left t.new (move_piece old new rights x y (view t.old)).tables }
{
    if x >= y {
        return Ok(0);
    }
    let a = access(x, y, rights);
    domain::deactivate_region(t, old, a, 0)?;
    domain::activate_region(t, new, a, 0)
}
