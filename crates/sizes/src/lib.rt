// The sizes that the tables' header holds, and where the sections start.

#![tactic(auto)]

ghost use Rattle.std.specs.Prelude.{◌≡◌};
ghost use Rattle.words.specs.Cuts.{offset};
ghost use Rattle.sizes.specs.Limits.{Limits, within_b, limits_b};
ghost use Rattle.sizes.specs.Tests.{sized_b};
ghost use Rattle.sizes.specs.Sizes.{sizes_of, stride, region_pool_section, record_pool_section, domains_section, regions_section, records_section, ring_section, hash_section, interface_section, mark_section, widths, total};

// ---- The header's words: five sizes, and the ring's two places

pub const DOMAINS: usize = 0;

pub const SLOTS: usize = 1;

pub const REGIONS: usize = 2;

pub const RECORDS: usize = 3;

pub const UPDATES: usize = 4;

pub const READ: usize = 5;

pub const WRITE: usize = 6;

// ---- How many words each has: the header; a domain before its slots; a slot; a region; a tracker record; a ring place; a
// region's hash; a domain's interface; a ring place's marks

pub const HEADER_WIDTH: usize = 7;

// a pool's head and count, before two words for each slot
pub const POOL_HEAD: usize = 2;

pub const HEAD_WIDTH: usize = 5;

pub const SLOT_WIDTH: usize = 3;

pub const REGION_WIDTH: usize = 8;

pub const RECORD_WIDTH: usize = 9;

pub const UPDATE_WIDTH: usize = 4;

pub const HASH_WIDTH: usize = 5;

pub const INTERFACE_WIDTH: usize = 2;

pub const MARK_WIDTH: usize = 1;

// ---- The limits, and the words of the largest tables

pub const MOST_DOMAINS: usize = 32;

pub const MOST_SLOTS: usize = 128;

pub const MOST_REGIONS: usize = 1024;

pub const MOST_RECORDS: usize = 1024;

pub const MOST_UPDATES: usize = 128;

pub const MOST_WORDS: usize = HEADER_WIDTH
    + 3 * POOL_HEAD
    + 2 * (MOST_DOMAINS + MOST_REGIONS + MOST_RECORDS)
    + MOST_DOMAINS * (HEAD_WIDTH + MOST_SLOTS * SLOT_WIDTH)
    + MOST_REGIONS * REGION_WIDTH
    + MOST_RECORDS * RECORD_WIDTH
    + (MOST_UPDATES + 1) * UPDATE_WIDTH
    + MOST_REGIONS * HASH_WIDTH
    + MOST_DOMAINS * INTERFACE_WIDTH
    + (MOST_UPDATES + 1) * MARK_WIDTH;

// How many of each the tables hold; `slots` in each domain.
#[derive(Clone, Copy)]
pub struct Sizes {
    pub domains: usize,
    pub slots: usize,
    pub regions: usize,
    pub records: usize,
    pub updates: usize,
}

pub fn read_sizes(t: &[u64]) -> Sizes
    ensures { result ≡ sizes_of t.now }
{
    Sizes {
        domains: words::size(t, DOMAINS),
        slots: words::size(t, SLOTS),
        regions: words::size(t, REGIONS),
        records: words::size(t, RECORDS),
        updates: words::size(t, UPDATES),
    }
}

fn within(n: usize, high: usize) -> bool
    ensures { result ≡ within_b n high }
{
    (1..=high).contains(&n)
}

// Whether each size lies in its limits (document 01, "Memory and who can be refused").
pub fn limits_hold(z: Sizes) -> bool
    ensures { result ≡ limits_b z }
{
    within(z.domains, MOST_DOMAINS)
        && within(z.slots, MOST_SLOTS)
        && within(z.regions, MOST_REGIONS)
        && within(z.records, MOST_RECORDS)
        && within(z.updates, MOST_UPDATES)
}

// How many words a domain with its slots has.
pub fn domain_width(z: Sizes) -> usize
    requires { Limits z }
    ensures { result ≡ stride z }
{
    HEAD_WIDTH + z.slots * SLOT_WIDTH
}

// ---- Where the sections start: the domain pool behind the header, each other one behind the section before it

pub fn region_pool_at(z: Sizes) -> usize
    requires { Limits z }
    ensures { result ≡ offset (widths z) region_pool_section }
{
    HEADER_WIDTH + (POOL_HEAD + 2 * z.domains)
}

pub fn record_pool_at(z: Sizes) -> usize
    requires { Limits z }
    ensures { result ≡ offset (widths z) record_pool_section }
{
    region_pool_at(z) + (POOL_HEAD + 2 * z.regions)
}

pub fn domains_at(z: Sizes) -> usize
    requires { Limits z }
    ensures { result ≡ offset (widths z) domains_section }
{
    record_pool_at(z) + (POOL_HEAD + 2 * z.records)
}

pub fn regions_at(z: Sizes) -> usize
    requires { Limits z }
    ensures { result ≡ offset (widths z) regions_section }
{
    domains_at(z) + z.domains * domain_width(z)
}

pub fn records_at(z: Sizes) -> usize
    requires { Limits z }
    ensures { result ≡ offset (widths z) records_section }
{
    regions_at(z) + z.regions * REGION_WIDTH
}

pub fn ring_at(z: Sizes) -> usize
    requires { Limits z }
    ensures { result ≡ offset (widths z) ring_section }
{
    records_at(z) + z.records * RECORD_WIDTH
}

pub fn hashes_at(z: Sizes) -> usize
    requires { Limits z }
    ensures { result ≡ offset (widths z) hash_section }
{
    ring_at(z) + (z.updates + 1) * UPDATE_WIDTH
}

pub fn interfaces_at(z: Sizes) -> usize
    requires { Limits z }
    ensures { result ≡ offset (widths z) interface_section }
{
    hashes_at(z) + z.regions * HASH_WIDTH
}

pub fn marks_at(z: Sizes) -> usize
    requires { Limits z }
    ensures { result ≡ offset (widths z) mark_section }
{
    interfaces_at(z) + z.domains * INTERFACE_WIDTH
}

pub fn total_of(z: Sizes) -> usize
    requires { Limits z }
    ensures { result ≡ total z }
{
    marks_at(z) + (z.updates + 1) * MARK_WIDTH
}

// Whether the words are as many as the sizes in their header ask.
pub fn is_sized(t: &[u64]) -> bool
    ensures { result ≡ sized_b t.now }
{
    let z = read_sizes(t);
    limits_hold(z) && t.len() == total_of(z)
}
