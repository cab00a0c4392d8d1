// What a revoked carve held goes back (document 01, **Revoke**). `closing` has the domains that are closing (document 02, request 5): they queue nothing.

#![tactic(auto)]

ghost use Rattle.std.specs.Prelude.{◌≡◌};
ghost use Rattle.tables.specs.View.{view, Sized, Left};
ghost use Rattle.giving_back.specs.GiveBack.{give_back};

use answers::Answer;
use tables::RegionCapa;

// It goes to the parent's domain, with the parent's rights. An alias took nothing from its parent, and a root has none.
pub fn give_back(t: &mut [u64], g: RegionCapa, closing: u64) -> Answer
    requires { Sized t.old }
    ensures value { result ≡ (give_back closing g (view t.old)).answer }
    ensures left { Left t.new (give_back closing g (view t.old)).tables }
{
    if g.kind == RegionCapa::CARVE {
        let p = rows::load::<RegionCapa>(t, tables::slot_to(g.parent));
        let a = segment::access(g.start, g.end, p.rights);
        return domain::activate_region(t, tables::slot_to(p.owner), a, closing);
    }
    Ok(0)
}
