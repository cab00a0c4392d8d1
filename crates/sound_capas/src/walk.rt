// The walk over the slots of all domains. Slices are named as in `capa_claims`; `s` holds the slots of one domain, `m` the marks.
ghost use Rattle.std.specs.Prelude.{◌≡◌, ◌+◌, true};
ghost use Rattle.tables.specs.View.{view, Sized};
ghost use Rattle.sizes.specs.Limits.{Limits};
ghost use Rattle.sections.specs.Rows.{slot_in};
ghost use Rattle.claims.specs.Walk.{marking, walked, rows_walked};
ghost use Rattle.capa_claims.specs.Lent.{lent, lent_of, list_claim};
ghost use Rattle.sound_capas.specs.Capas.{row_claim};

use claims::Tally;
use sizes::Sizes;
use tables::Slot;

// The slots of domain d.
fn list_walk(
    m: &mut [u64],
    y: Tally,
    z: Sizes,
    rl: &[u64],
    rg: &[u64],
    r: &[u64],
    dl: &[u64],
    dg: &[u64],
    p: &[u64],
    s: &[u64],
    d: usize,
) -> Tally
    requires { Limits z }
    ensures { marking m.new result ≡ walked (list_claim (lent z rl.now rg.now r.now dl.now dg.now p.now) d (slot_in s.now)) z.slots 0 (marking m.old y) }
{
    let mut seen = y;
    for j in 0..z.slots {
        let c = capa_claims::slot_claim(z, rl, rg, r, dl, dg, p, d, sections::row_in::<Slot>(s, j));
        seen = claims::take(m, seen, c);
    }
    seen
}

// The slots of domain d, and then its head; nothing where no domain is there.
fn domain_walk(
    m: &mut [u64],
    y: Tally,
    t: &[u64],
    z: Sizes,
    rl: &[u64],
    rg: &[u64],
    r: &[u64],
    dl: &[u64],
    dg: &[u64],
    p: &[u64],
    d: usize,
) -> Tally
    requires sized { Sized t.now }
    requires limits { Limits z }
    requires p_value { lent z rl.now rg.now r.now dl.now dg.now p.now ≡ lent_of (view t.now) }
    ensures { marking m.new result ≡ walked (row_claim (view t.now) d) (z.slots + 1) 0 (marking m.old y) }
{
    if 0 < words::word(dl, d) {
        return y;
    }
    let s = sections::slots_of(t, d);
    let seen = list_walk(m, y, z, rl, rg, r, dl, dg, p, s, d);
    claims::take(m, seen, capa_claims::head_claim(z, p, d))
}

// All domains, with `want` claims left.
pub fn walk(
    m: &mut [u64],
    want: usize,
    t: &[u64],
    z: Sizes,
    rl: &[u64],
    rg: &[u64],
    r: &[u64],
    dl: &[u64],
    dg: &[u64],
    p: &[u64],
) -> Tally
    requires sized { Sized t.now }
    requires limits { Limits z }
    requires p_value { lent z rl.now rg.now r.now dl.now dg.now p.now ≡ lent_of (view t.now) }
    ensures { marking m.new result ≡ rows_walked (row_claim (view t.now)) (z.slots + 1) z.domains 0 (marking m.old (record { fits = true; left = want })) }
{
    let mut seen = Tally {
        fits: true,
        left: want,
    };
    for d in 0..z.domains {
        seen = domain_walk(m, seen, t, z, rl, rg, r, dl, dg, p, d);
    }
    seen
}
