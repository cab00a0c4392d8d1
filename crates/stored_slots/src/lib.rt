// The list of domain d as one record: read out of the tables' words, and put back.

#![tactic(auto)]

ghost use Rattle.std.specs.Prelude.{◌≡◌, ◌+◌, ◌*◌, ◌≤◌, ◌<◌, length};
ghost use Rattle.sizes.specs.Limits.{most_slots};
ghost use Rattle.sizes.specs.Sizes.{sizes_of, head_width, slot_width};
ghost use Rattle.tables.specs.View.{view, Sized, Left, domain_of};
ghost use Rattle.slot_list.specs.Lists.{no_list};
ghost use Rattle.stored_slots.specs.Record.{list_of, put_list, list_at, with_list};
ghost use Rattle.stored_slots.specs.Rows.{RowAt};

use rows::Record;
use sizes::{HEAD_WIDTH, MOST_SLOTS, SLOT_WIDTH};
use slot_list::SlotList;
use tables::{DomainHead, Slot};

// The words of a domain, from `start` up to `end`.
#[derive(Clone, Copy)]
struct Row {
    start: usize,
    end: usize,
    slots: usize,
}

fn row_of(t: &[u64], d: usize) -> Row
    requires sized { Sized t.now }
    requires d_bound { d < (sizes_of t.now).domains }
    ensures { RowAt t.now d result }
{
    let z = sizes::read_sizes(t);
    let width = sizes::domain_width(z);
    let start = tables::rows::row_at(t, sizes::domains_at(z), z.domains, width, d);
    Row {
        start,
        end: start + width,
        slots: z.slots,
    }
}

fn no_list() -> SlotList
    ensures { result ≡ no_list }
{
    SlotList {
        slots: [Slot::default(); MOST_SLOTS],
        head: 0,
        count: 0,
        size: 0,
    }
}

// ---- In the words of one domain

fn list_of(p: &[u64], n: usize) -> SlotList
    requires p_len { length p.now ≡ head_width + n * slot_width }
    requires n_le_most_slots { n ≤ most_slots }
    ensures { result ≡ list_of (domain_of n p.now) }
{
    let mut slots = [Slot::default(); MOST_SLOTS];
    for i in 0..n {
        let a = HEAD_WIDTH + i * SLOT_WIDTH;
        slots[i] = Slot::of_words(&p[a..a + SLOT_WIDTH]);
    }
    SlotList {
        slots,
        head: p[DomainHead::HEAD],
        count: p[DomainHead::COUNT],
        size: n,
    }
}

fn write_list(p: &mut [u64], n: usize, list: SlotList)
    requires p_len { length p.old ≡ head_width + n * slot_width }
    requires n_le_most_slots { n ≤ most_slots }
    ensures { domain_of n p.new ≡ put_list (domain_of n p.old) list }
{
    for i in 0..n {
        list.slots[i].put(p, HEAD_WIDTH + i * SLOT_WIDTH);
    }
    p[DomainHead::HEAD] = list.head;
    p[DomainHead::COUNT] = list.count;
}

// ---- In the tables

pub fn load_list(t: &[u64], d: usize) -> SlotList
    requires { Sized t.now }
    ensures { result ≡ list_at (view t.now) d }
{
    if d < words::size(t, sizes::DOMAINS) {
        let r = row_of(t, d);
        list_of(&t[r.start..r.end], r.slots)
    } else {
        no_list()
    }
}

// Nothing where there is no such domain. Its manager, core map and tracker stay.
pub fn store_list(t: &mut [u64], d: usize, list: SlotList)
    requires { Sized t.old }
    ensures { Left t.new (with_list (view t.old) d list) }
{
    if d < words::size(t, sizes::DOMAINS) {
        let r = row_of(t, d);
        write_list(&mut t[r.start..r.end], r.slots, list);
    }
}
