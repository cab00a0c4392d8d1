// Runs calls from standard input on tables of its own, and prints of each call its answer and a hash of the tables' words, a line
// for each (oracle/README.md, "Replay"). A call is eleven 64-bit words, little-endian: its kind, and its arguments.

#![tactic(auto)]

ghost use Rattle.tables.specs.View.{Sized};

use call::{Call, Child};
use pools::Pool;
use refusals::Refusal;
use region::AccessRights;
use rights::Rights;
use send_options::SendOptions;
use sizes::{MOST_WORDS, Sizes};
use std::io::{Read, Write};
use tables::{DomainHead, Handle, Hash};

pub mod input;
pub mod output;

pub const MAKE: u64 = 16;

// The first of the kinds behind making, both of them steps.
pub const SET_INTERFACE: u64 = 17;

// Ends the calls, as the end of the input does.
pub const END: u64 = 19;

// A call as it is read: its kind and its arguments, the last four of them a send's hash.
#[derive(Clone, Copy)]
pub struct Request {
    pub kind: u64,
    pub a: u64,
    pub b: u64,
    pub c: u64,
    pub d: u64,
    pub e: u64,
    pub f: u64,
    pub hash: Hash,
}

fn handle(slot: u64, generation: u64) -> Handle {
    Handle { slot, generation }
}

fn rights_of(word: u64) -> Rights {
    Rights((word % 256) as u8)
}

fn access(start: u64, end: u64, rights: u64) -> AccessRights {
    AccessRights {
        start,
        end,
        ops: rights_of(rights),
    }
}

// What a send says besides: nothing, a flag word, or a flag word and a hash.
fn options(c: Request) -> SendOptions {
    match c.e {
        0 => SendOptions::None,
        1 => SendOptions::Flags(rights_of(c.f)),
        _ => SendOptions::Hashed(rights_of(c.f), c.hash),
    }
}

// The part of the region in local slot c of the domain.
fn child(domain: Handle, c: Request) -> Child {
    Child {
        domain,
        local: c.c as usize,
        access: access(c.d, c.e, c.f),
    }
}

// The calls that are one step on the tables, by their kinds 0 to 9, 17 and 18.
fn call_of(c: Request) -> Call {
    let h = handle(c.a, c.b);
    match c.kind {
        0 => Call::Open(c.a),
        1 => Call::OpenUnder(h, c.c),
        2 => Call::Root(h, access(c.c, c.d, c.e)),
        3 => Call::Alias(child(h, c)),
        4 => Call::Carve(child(h, c)),
        5 => Call::Send(h, c.c as usize, c.d as usize, options(c)),
        6 => Call::Revoke(h, c.c as usize),
        7 => Call::CreateRevokeCapa(h, c.c as usize),
        8 => Call::Channel(h, handle(c.c, c.d)),
        17 => Call::SetInterface(h, c.c),
        18 => Call::FreezeInterface(h),
        _ => Call::SetCoreMap(h, c.c),
    }
}

// The generation of domain d; 0 in memory of a wrong length.
fn generation_of(t: &[u64], d: usize) -> u64 {
    if sizes::is_sized(t) {
        pools::generation(t, Pool::Domains, d)
    } else {
        0
    }
}

// A call that changes the tables, which are put back where it is refused.
fn run_change<W: Write>(out: &mut W, t: &mut [u64], w: &mut [u64], c: Request)
    requires { Sized t.old }
{
    words::copy(t, w);
    match calls::step(t, call_of(c)) {
        Ok(v) => {
            output::number(out, 0);
            output::number(out, v);
            if c.kind <= 1 {
                output::number(out, generation_of(t, v as usize));
            }
        }
        Err(r) => {
            words::copy(w, t);
            output::number(out, u64::from(r));
        }
    }
}

fn run_pop<W: Write>(out: &mut W, t: &mut [u64])
    requires { Sized t.old }
{
    let entry = update::pop_update(t).unwrap_or_default();
    let u = entry.update;
    output::number(out, 0);
    output::number(out, u.kind);
    output::number(out, u.a);
    output::number(out, u.b);
    output::number(out, u.c);
    output::number(out, entry.marks);
}

// The readings of a domain.
fn run_reading<W: Write>(out: &mut W, t: &[u64], c: Request)
    requires { Sized t.now }
{
    if !pools::is_live(t, Pool::Domains, handle(c.a, c.b)) {
        output::number(out, u64::from(Refusal::NoDomain));
        return;
    }
    let d = c.a as usize;
    output::number(out, 0);
    match c.kind {
        11 => {
            let h = rows::load::<DomainHead>(t, d);
            output::number(out, h.cores);
        }
        12 => run_permissions(out, t, d),
        _ => output::number(out, readings::get_refcount(t, d, c.c, c.d)),
    }
}

fn run_permissions<W: Write>(out: &mut W, t: &[u64], d: usize)
    requires { Sized t.now }
{
    let p = readings::plan_of(t, d, 1024);
    output::number(out, p.answer);
    let mut at = p.at;
    for _ in 0..p.turns {
        let f = readings::found_at(t, at);
        output::permission(out, f.p);
        at = f.next;
    }
}

fn run_holders<W: Write>(out: &mut W, t: &[u64], a: u64)
    requires { Sized t.now }
{
    let mut run = [0u64; 32];
    let n = holders::holders(t, a, &mut run);
    output::number(out, 0);
    output::number(out, n);
    output::slots(out, &run, n);
}

// No call of document 01: word i becomes v where it is less, for generations that no list of calls comes to.
fn raise(t: &mut [u64], i: usize, v: u64) {
    if words::word(t, i) < v {
        words::put(t, i, v);
    }
}

fn run<W: Write>(out: &mut W, t: &mut [u64], w: &mut [u64], c: Request)
    requires { Sized t.old }
{
    match c.kind {
        0..=9 | SET_INTERFACE.. => run_change(out, t, w, c),
        10 => run_pop(out, t),
        14 => run_holders(out, t, c.a),
        15 => {
            raise(t, c.a as usize, c.b);
            output::number(out, 0);
        }
        _ => run_reading(out, t, c),
    }
}

// The words that tables of these sizes have; 0 for none.
fn length_for(z: Sizes) -> usize {
    if sizes::limits_hold(z) {
        sizes::total_of(z)
    } else {
        0
    }
}

fn make(t: &mut [u64], z: Sizes) {
    if sizes::limits_hold(z) && sizes::total_of(z) == t.len() {
        making::make_empty(t, z);
    }
}

fn sizes_of(c: Request) -> Sizes {
    Sizes {
        domains: c.a as usize,
        slots: c.b as usize,
        regions: c.c as usize,
        records: c.d as usize,
        updates: c.e as usize,
    }
}

fn run_sized<W: Write>(out: &mut W, t: &mut [u64], w: &mut [u64], c: Request) {
    if sizes::is_sized(t) {
        run(out, t, w, c);
    }
}

fn answer<W: Write>(out: &mut W, t: &mut [u64], w: &mut [u64], c: Request) {
    if c.kind == MAKE {
        make(t, sizes_of(c));
        output::number(out, 0);
    } else {
        run_sized(out, t, w, c);
    }
}

// A line of the output.
fn line<W: Write>(out: &mut W, t: &mut [u64], w: &mut [u64], c: Request) {
    answer(out, t, w, c);
    output::number(out, output::hash(t));
    output::line_end(out);
}

// The words that the tables have after a call, n before it.
fn length_after(n: usize, c: Request) -> usize {
    if c.kind == MAKE {
        length_for(sizes_of(c))
    } else {
        n
    }
}

// One call on tables of n words; answers how many words they have after it.
fn turn<W: Write>(out: &mut W, t: &mut [u64], w: &mut [u64], n: usize, c: Request) -> usize {
    let m = length_after(n, c);
    if t.len() < m || w.len() < m {
        return n;
    }
    line(out, &mut t[..m], &mut w[..m], c);
    m
}

// Every call of the input, on tables of no words at first.
fn run_all<R: Read, W: Write>(input: &mut R, out: &mut W, t: &mut [u64], w: &mut [u64]) {
    let mut n = 0;
    for _ in 0..u64::MAX {
        let Some(c) = input::next(input) else { return };
        n = turn(out, t, w, n, c);
    }
}

fn main(rt: HostRuntime) {
    let mut input = rt.stdin();
    let mut out = rt.stdout();
    let mut t = [0u64; MOST_WORDS];
    let mut w = [0u64; MOST_WORDS];
    run_all(&mut input, &mut out, &mut t, &mut w);
}
