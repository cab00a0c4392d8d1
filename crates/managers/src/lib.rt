// The managers of domains, read from the section of domains: a manager's link is the first word of its domain.

#![tactic(auto)]

ghost use Rattle.std.specs.Prelude.{◌≡◌};
ghost use Rattle.tables.specs.View.{view, Sized};
ghost use Rattle.sizes.specs.Limits.{Limits};
ghost use Rattle.managers.specs.Managers.{manager_of, above, climbed, manager_in};

use sizes::Sizes;

// The section of domains.
pub fn domains_of<'a>(t: &'a [u64]) -> &'a [u64]
    requires { Sized t.now }
    ensures { manager_in (view t.now).sizes result.now ≡ manager_of (view t.now) }
{
    let z = sizes::read_sizes(t);
    words::run(t, sizes::domains_at(z), z.domains * sizes::domain_width(z))
}

#[tactic(auto, unfolding(crate::specs::Managers::manager_in))]
pub fn manager_in(z: Sizes, p: &[u64], i: usize) -> u64
    requires { Limits z }
    ensures { result ≡ manager_in z p.now i }
{
    if i < z.domains {
        words::word(p, i * sizes::domain_width(z))
    } else {
        0
    }
}

// The manager's link of the domain that a link names.
#[tactic(auto, unfolding(crate::specs::Managers::above))]
fn above_of(z: Sizes, p: &[u64], l: u64) -> u64
    requires { Limits z }
    ensures { result ≡ above (manager_in z p.now) l }
{
    if 0 < l {
        manager_in(z, p, (l - 1) as usize)
    } else {
        0
    }
}

// n steps up from a link, or fewer where there is nobody above.
pub fn climb(z: Sizes, p: &[u64], n: usize, l: u64) -> u64
    requires { Limits z }
    ensures { result ≡ climbed (manager_in z p.now) n l }
{
    let mut at = l;
    for _ in 0..n {
        if at == 0 {
            return 0;
        }
        at = above_of(z, p, at);
    }
    at
}
