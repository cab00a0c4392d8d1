// Child lists (document 01, **Child lists**): a region's children, linked in the order of their starts; the checks of
// alias and carve. A link is a region's slot + 1, or 0 for none.

#![tactic(auto)]

ghost use Rattle.std.specs.Prelude.{◌≡◌, true, false, ◌%◌};
ghost use Rattle.tables.specs.View.{view, Sized, Left};
ghost use Rattle.children.specs.Children.{overlaps_b, ends_b, find, link_child, insert_child, remove_child, fits_b, check_child};

use region::AccessRights;
use rights::Rights;
use tables::RegionCapa;

// Where a search of a child list stands: the links of the child before and of the child at hand.
#[derive(Clone, Copy)]
pub struct Place {
    pub prev: u64,
    pub at: u64,
}

// A range, and whether only carves count.
#[derive(Clone, Copy)]
pub struct Overlap {
    pub start: u64,
    pub end: u64,
    pub carves: bool,
}

// What ends a search of a child list: a child that starts after an address, the child with that link, a child that
// overlaps a range. An enum and no closure: the definition of the search takes it as a value.
#[derive(Clone, Copy)]
pub enum Search {
    After(u64),
    Link(u64),
    Overlap(Overlap),
}

// ---- Searches

// Whether the range and region r overlap; ranges that only touch do not.
#[tactic(auto, unfolding(crate::specs::Children::overlaps_b))]
fn overlaps(o: Overlap, r: RegionCapa) -> bool
    ensures { result ≡ overlaps_b o r }
{
    (!o.carves || r.kind == RegionCapa::CARVE) && o.start < r.end && r.start < o.end
}

// Whether the child with that link, region r, ends the search.
fn ends(search: Search, link: u64, r: RegionCapa) -> bool
    ensures { result ≡ ends_b search link r }
{
    match search {
        Search::After(a) => a < r.start,
        Search::Link(l) => link == l,
        Search::Overlap(o) => overlaps(o, r),
    }
}

// Among the children of region p. There are fewer than regions, or their links go round.
fn find(t: &[u64], p: usize, search: Search) -> Place
    requires { Sized t.now }
    ensures { result ≡ find search (view t.now) p }
{
    let parent = rows::load::<RegionCapa>(t, p);
    let mut place = Place {
        prev: 0,
        at: parent.child,
    };
    for _ in 0..words::size(t, sizes::REGIONS) {
        if place.at == 0 {
            return place;
        }
        let r = rows::load::<RegionCapa>(t, tables::slot_to(place.at));
        if ends(search, place.at, r) {
            return place;
        }
        place = Place {
            prev: place.at,
            at: r.next,
        };
    }
    place
}

// ---- A child joins, and leaves

// Link `link` behind the child `prev`, or first under region p where that is 0.
fn link_child(t: &mut [u64], p: usize, prev: u64, link: u64)
    requires { Sized t.old }
    ensures { Left t.new (link_child (view t.old) p prev link) }
{
    if prev == 0 {
        let mut r = rows::load::<RegionCapa>(t, p);
        r.child = link;
        rows::store(t, p, r);
    } else {
        let i = tables::slot_to(prev);
        let mut r = rows::load::<RegionCapa>(t, i);
        r.next = link;
        rows::store(t, i, r);
    }
}

// Region i joins the children of region p, after those that start where it starts or before.
pub fn insert_child(t: &mut [u64], p: usize, i: usize)
    requires { Sized t.old }
    ensures { Left t.new (insert_child (view t.old) p i) }
{
    let mut r = rows::load::<RegionCapa>(t, i);
    let c = find(t, p, Search::After(r.start));
    r.next = c.at;
    rows::store(t, i, r);
    link_child(t, p, c.prev, tables::link_to(i as u64));
}

// Region i leaves the children of region p.
pub fn remove_child(t: &mut [u64], p: usize, i: usize)
    requires { Sized t.old }
    ensures { Left t.new (remove_child (view t.old) p i) }
{
    let mut r = rows::load::<RegionCapa>(t, i);
    let next = r.next;
    let c = find(t, p, Search::Link(tables::link_to(i as u64)));
    r.next = 0;
    rows::store(t, i, r);
    link_child(t, p, c.prev, next);
}

// ---- The checks of alias and carve

// The rights of a stored word.
pub fn rights_of(word: u64) -> Rights
    ensures { result.0 ≡ word % 256 }
{
    Rights((word % 256) as u8)
}

// Whether the range lies in region r's, and the rights are allowed under it.
#[tactic(auto, unfolding(crate::specs::Children::fits_b))]
fn fits(a: AccessRights, r: RegionCapa) -> bool
    ensures { result ≡ fits_b a r }
{
    r.start <= a.start && a.end <= r.end && rights_of(r.rights).allows(a.ops)
}

#[tactic(auto, unfolding(crate::specs::Children::check_child))]
fn check_child(t: &[u64], p: usize, a: AccessRights, carves: bool) -> bool
    requires { Sized t.now }
    ensures { result ≡ check_child carves (view t.now) p a }
{
    let r = rows::load::<RegionCapa>(t, p);
    let o = Overlap {
        start: a.start,
        end: a.end,
        carves,
    };
    fits(a, r) && find(t, p, Search::Overlap(o)).at == 0
}

// An alias may overlap other aliases, and no carve (document 01, **Alias**).
pub fn check_alias(t: &[u64], p: usize, a: AccessRights) -> bool
    requires { Sized t.now }
    ensures { result ≡ check_child true (view t.now) p a }
{
    check_child(t, p, a, true)
}

// A carve may overlap no child (document 01, **Carve**).
pub fn check_carve(t: &[u64], p: usize, a: AccessRights) -> bool
    requires { Sized t.now }
    ensures { result ≡ check_child false (view t.now) p a }
{
    check_child(t, p, a, false)
}
