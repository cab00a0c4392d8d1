// The records in use, along the trackers of all domains.
ghost use Rattle.std.specs.Prelude.{◌≡◌};
ghost use Rattle.tables.specs.View.{view, Sized};
ghost use Rattle.sound_lists.specs.Marks.{Clean};
ghost use Rattle.sound_pools.specs.Hold.{trackers_hold};
ghost use Rattle.sound_pools.specs.Trackers.{TrackersMarked};

use list_links::Stack;
use sound_lists::walks;
use sound_lists::walks::Followed;
use tables::DomainHead;

// Marks the records of all trackers.
fn follow_trackers(t: &[u64], w: &mut [u64]) -> Followed
    requires sized { Sized t.now }
    requires clean { Clean t.now w.old }
    ensures { TrackersMarked (view t.now) w.old result w.new }
{
    let n = words::size(t, sizes::DOMAINS);
    let records = words::size(t, sizes::RECORDS);
    let mut links = 0;
    for d in 0..n {
        if !list_links::may_meet(t, Stack::Domains, d) {
            let first = rows::load::<DomainHead>(t, d).tracker;
            let x = walks::follow(t, Stack::Trackers, 0, records, first, w);
            if !x.ended {
                return Followed {
                    ended: false,
                    links,
                };
            }
            links += x.links;
        }
    }
    Followed { ended: true, links }
}

// Whether each record in use is on one tracker, once.
pub fn trackers_hold(t: &[u64], w: &mut [u64]) -> bool
    requires sized { Sized t.now }
    requires clean { Clean t.now w.old }
    ensures value { result ≡ trackers_hold (view t.now) }
    ensures w_unchanged { w.new ≡ w.old }
{
    let x = follow_trackers(t, w);
    walks::settle(t, Stack::Trackers, x, w)
}
