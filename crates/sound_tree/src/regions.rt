// Each region in use, with its parent; how many are children.
ghost use Rattle.std.specs.Prelude.{◌≡◌, ◌≤◌};
ghost use Rattle.sections.specs.Rows.{region_in};
ghost use Rattle.sound_tree.specs.Tree.{rights_fit, in_parent, place_fits, row_fits, region_fits, more, count_from};

use rights::Rights;
use tables::RegionCapa;

#[tactic(auto, unfolding(crate::specs::Tree::rights_fit))]
fn rights_fit(parent: u64, child: u64) -> bool
    ensures { result ≡ rights_fit parent child }
{
    parent < 256 && child < 256 && Rights(parent as u8).allows(Rights(child as u8))
}

#[tactic(auto, unfolding(crate::specs::Tree::in_parent))]
fn in_parent(g: RegionCapa, h: RegionCapa) -> bool
    ensures { result ≡ in_parent g h }
{
    h.start <= g.start && g.end <= h.end && rights_fit(h.rights, g.rights)
}

#[tactic(auto, unfolding(crate::specs::Tree::place_fits))]
fn place_fits(g: RegionCapa, h: RegionCapa) -> bool
    ensures { result ≡ place_fits g h }
{
    if g.kind == RegionCapa::ROOT {
        g.parent == 0 && g.next == 0
    } else {
        0 < g.parent && in_parent(g, h)
    }
}

#[tactic(auto, unfolding(crate::specs::Tree::row_fits))]
fn row_fits(g: RegionCapa) -> bool
    ensures { result ≡ row_fits g }
{
    let kind = RegionCapa::ROOT <= g.kind && g.kind <= RegionCapa::CARVE;
    kind && 0 < g.owner && g.start < g.end && g.rights < 256
}

// The row g of a slot that is free or not.
#[tactic(auto, unfolding(crate::specs::Tree::region_fits))]
fn region_fits(p: &[u64], free: bool, g: RegionCapa) -> bool
    ensures { result ≡ region_fits (region_in p.now) free g }
{
    if free {
        return true;
    }
    let h = sections::row_in::<RegionCapa>(p, tables::slot_to(g.parent));
    row_fits(g) && place_fits(g, h)
}

// How many of the n regions are not roots; none where a row is not fit. A free row is no region's.
pub fn count_children(links: &[u64], p: &[u64], n: usize) -> Option<usize>
    requires { n ≤ 1024 }
    ensures { more result ≡ count_from links.now (region_in p.now) 0 n 0 }
{
    let mut many = 0;
    for i in 0..n {
        let g = sections::row_in::<RegionCapa>(p, i);
        if !region_fits(p, 0 < words::word(links, i), g) {
            return None;
        }
        many += usize::from(RegionCapa::ROOT < g.kind);
    }
    Some(many)
}
