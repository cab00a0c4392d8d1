// The script program (document 01, "The script program"): runs the records of standard input on tables of its own and prints a line for
// each, then what the domains reach, and then the queue. The contract of `run` says what it prints, byte by byte and in order: `text_of` of calls
// (crate script_text), which are those of the bytes that were read. Both lists are of `ScriptTables`: tables that an accepted making and calls of the
// exported functions left, of which demand 3 holds (`everything`, crate promise). No contract can say what is read or written. That reading on loses
// no byte, and that no record is taken for cut while more may come, is proved in crate input; that bytes are handed over once, and none after a
// write that failed, is seen in `write` of crate output. That a read or a write that fails is said on standard error is tested
// (tests/script).
#![tactic(auto)]

ghost use Rattle.std.specs.Prelude.{◌≡◌, ◌+◌, ◌≤◌, ◌<◌, length, None, IfSome, unwrap_or};
ghost use Rattle.model.specs.Lists.{at_slot};
ghost use Rattle.model.specs.State.{State};
ghost use Rattle.model.specs.Making.{script_sizes};
ghost use Rattle.model.specs.Memory.{Lent};
ghost use Rattle.tables.specs.View.{Sized};
ghost use Rattle.promise.specs.Reached.{Leads};
ghost use Rattle.script_records.specs.Parsed.{parsed};
ghost use Rattle.listing.specs.Lines.{slot_lines, domain_lines};
ghost use Rattle.running.specs.RunScript.{ScriptTables, Fit};
ghost use Rattle.output.specs.Text.{call_line, Puts};
ghost use Rattle.output.specs.Printed.{Prints};
ghost use Rattle.script_text.specs.ScriptText.{bad_reply, domain_text, queue_text, Output};
ghost use Rattle.script_text.specs.Turns.{Turns};
ghost use Rattle.script_text.specs.Records.{RanAll};
ghost use Rattle.script_text.specs.Domains.{Holds};

use input::{Buffered, Source};
use output::Pending;
use refusals::Refusal;
use replies::Reply;
use std::io::{Read, Write};

// The sizes of a script's tables, and how many words these are.
const DOMAINS: usize = 8;

const SLOTS: usize = 16;

const REGIONS: usize = 128;

const RECORDS: usize = 128;

const UPDATES: usize = 32;

const WORDS: usize = sizes::HEADER_WIDTH
    + 3 * sizes::POOL_HEAD
    + 2 * (DOMAINS + REGIONS + RECORDS)
    + DOMAINS * (sizes::HEAD_WIDTH + SLOTS * sizes::SLOT_WIDTH)
    + REGIONS * sizes::REGION_WIDTH
    + RECORDS * sizes::RECORD_WIDTH
    + (UPDATES + 1) * sizes::UPDATE_WIDTH
    + REGIONS * sizes::HASH_WIDTH
    + DOMAINS * sizes::INTERFACE_WIDTH
    + (UPDATES + 1) * sizes::MARK_WIDTH;

// Bytes of input, and of output, that are held at a time.
const BYTES: usize = 16384;

// What a record left: the bytes of output, and how many it took of the input; `None` where reading ends.
#[derive(Clone, Copy)]
struct Step {
    n: usize,
    taken: Option<usize>,
}

// The line of a bad or cut record, "and ends reading".
fn bad(text: &mut [u8], n: usize, k: u64) -> Step
    requires { n + 128 ≤ length text.old }
    ensures n_bound { (result.n ≤ n + 128) × (result.taken ≡ None) }
    ensures puts { Puts text.old n (call_line k bad_reply) result.n text.new }
{
    let y = Reply {
        refusal: u64::from(Refusal::BadRecord),
        value: 0,
    };
    Step {
        n: output::call_line(text, n, k, y),
        taken: None,
    }
}

// The k-th record, at the front of the bytes at hand.
fn turn(b: &[u8], text: &mut [u8], n: usize, k: u64, t: &mut [u64], w: &mut [u64]) -> Step
    requires { n + 128 ≤ length text.old }
    ensures n_bound { (result.n ≤ n + 128) × IfSome result.taken (λ m. (0 < m) × (m ≤ length b.now)) }
    ensures leads { Leads t.old t.new }
    ensures turns { Turns (parsed b.now) k n t.old w.old text.old result.n (unwrap_or result.taken 0) t.new w.new text.new }
{
    match running::take(b, t, w) {
        Ok(Some(x)) => Step {
            n: output::call_line(text, n, k, x.reply),
            taken: Some(x.size),
        },
        Ok(None) | Err(_) => bad(text, n, k),
    }
}

// What the records left: the output that is yet to be written, and the input behind them.
#[derive(Clone, Copy)]
struct Ran {
    text: Pending,
    input: Buffered,
}

// All records that can be read, or those up to a write that fails: what calls leave behind is in the lines alone.
fn run_records<R: Read, W: Write>(
    reader: &mut R,
    out: &mut W,
    b: &mut [u8],
    text: &mut [u8],
    t: &mut [u64],
    w: &mut [u64],
) -> Ran
    requires { 128 ≤ length text.old }
    ensures n_in_bounds { result.text.n ≤ length text.old }
    ensures leads { Leads t.old t.new }
    ensures ran_all { (s : State) → Lent t.old w.old s → RanAll s t.new w.new text.new result.text result.input }
{
    let mut h = Buffered {
        at: 0,
        end: 0,
        source: Source::Open,
    };
    let mut p = Pending {
        n: 0,
        failed: false,
    };
    for k in 1..u64::MAX {
        h = input::ready(reader, b, h);
        p = output::room(out, text, p);
        if h.at == h.end || p.failed {
            break;
        }
        let x = turn(&b[h.at..h.end], text, p.n, k, t, w);
        p.n = x.n;
        let Some(taken) = x.taken else { break };
        h.at += taken;
    }
    Ran { text: p, input: h }
}

// "one line for each permission record" of domain slot d.
fn list_domain<W: Write>(out: &mut W, text: &mut [u8], p: Pending, t: &[u64], d: usize) -> Pending
    requires n_in_bounds { p.n ≤ length text.old }
    requires in_bounds { 128 ≤ length text.old }
    requires sized { Sized t.now }
    ensures n_in_bounds_2 { result.n ≤ length text.old }
    ensures prints { (s : State) → Holds t.now s → Prints text.old p (domain_text (slot_lines d (at_slot s.domains d))) text.new result }
{
    let mut run = [0u64; 5 * RECORDS];
    let lines = listing::fill_lines(t, d, &mut run);
    let mut q = p;
    for i in 0..lines {
        q = output::room(out, text, q);
        q.n = output::domain_line(text, q.n, &run, 5 * i);
    }
    q
}

// "domain slots rising".
fn list_domains<W: Write>(out: &mut W, text: &mut [u8], p: Pending, t: &[u64]) -> Pending
    requires n_in_bounds { p.n ≤ length text.old }
    requires in_bounds { 128 ≤ length text.old }
    requires script_tables { ScriptTables t.now }
    ensures n_in_bounds_2 { result.n ≤ length text.old }
    ensures prints { (s : State) → Holds t.now s → Prints text.old p (domain_text (domain_lines s)) text.new result }
{
    let mut q = p;
    for d in 0..DOMAINS {
        q = list_domain(out, text, q, t, d);
    }
    q
}

// "Then the queue, oldest first".
fn list_queue<W: Write>(
    out: &mut W,
    text: &mut [u8],
    p: Pending,
    t: &mut [u64],
    w: &mut [u64],
) -> Pending
    requires n_in_bounds { p.n ≤ length text.old }
    requires in_bounds { 128 ≤ length text.old }
    requires script_tables { ScriptTables t.old }
    ensures n_in_bounds_2 { result.n ≤ length text.old }
    ensures script_tables_2 { ScriptTables t.new }
    ensures prints { (s : State) → Lent t.old w.old s → s.sizes ≡ script_sizes → Prints text.old p (queue_text s.queue.items) text.new result }
{
    let mut q = p;
    for _ in 0..UPDATES {
        let u = lent_queue::pop(t, w);
        if u.kind == 0 {
            return q;
        }
        q = output::room(out, text, q);
        q.n = output::queue_line(text, q.n, u);
    }
    q
}

// A whole script, from the making of its tables on: all that is printed, the last of it yet to be written.
fn run<R: Read, W: Write>(
    reader: &mut R,
    out: &mut W,
    b: &mut [u8],
    text: &mut [u8],
    t: &mut [u64],
    w: &mut [u64],
) -> Ran
    requires in_bounds { 128 ≤ length text.old }
    requires fit { Fit t.old w.old script_sizes }
    ensures n_in_bounds { result.text.n ≤ length text.old }
    ensures script_tables { ScriptTables t.new }
    ensures output { Output text.new result.text result.input }
{
    lent_make::make_tables(
        t,
        w,
        DOMAINS as u64,
        SLOTS as u64,
        REGIONS as u64,
        RECORDS as u64,
        UPDATES as u64,
    );
    let x = run_records(reader, out, b, text, t, w);
    let p = list_domains(out, text, x.text, t);
    let q = list_queue(out, text, p, t, w);
    let input = x.input;
    Ran { text: q, input }
}

// The exit status is 0 in any case, so that standard error alone can say that reading or writing failed.
fn main(rt: HostRuntime) {
    let mut reader = rt.stdin();
    let mut out = rt.stdout();
    let mut err = rt.stderr();
    let mut t = [0u64; WORDS];
    let mut w = [0u64; WORDS];
    let mut b = [0u8; BYTES];
    let mut text = [0u8; BYTES];
    let x = run(&mut reader, &mut out, &mut b, &mut text, &mut t, &mut w);
    let r = output::write(&mut out, &text, x.text);
    if x.input.source == Source::Failed {
        output::error_line(
            &mut err,
            b"script: reading standard input failed; records may be missing\n",
        );
    }
    if r.failed {
        output::error_line(
            &mut err,
            b"script: writing standard output failed; lines may be missing\n",
        );
    }
}
