// The lines that follow a script's calls (document 01, "The script program"), as numbers.

#![tactic(auto)]

ghost use Rattle.std.specs.Prelude.{◌≡◌, ◌<◌, length};
ghost use Rattle.words.specs.Rows.{flat};
ghost use Rattle.tables.specs.View.{view, Sized};
ghost use Rattle.readings.specs.Readings.{fill_run};
ghost use Rattle.listing.specs.Listed.{line_of, listed_of, with_line};

use pools::Pool;
use tables::Region;
use tracker_records::links;

// A record's line into five places of a lent run, from `at` on.
fn put_line(run: &mut [u64], at: usize, d: u64, q: Region)
    requires { at < 65536 }
    ensures { run.new ≡ with_line run.old at (line_of d q) }
{
    words::put(run, at, d);
    words::put(run, at + 1, q.start);
    words::put(run, at + 2, q.end);
    words::put(run, at + 3, readings::get_ops(q));
    words::put(run, at + 4, q.ref_count);
}

// The numbers of domain d's lines into a lent run, five to a line; the answer is the number of lines. A free slot has none.
pub fn fill_lines(t: &[u64], d: usize, run: &mut [u64]) -> usize
    requires { Sized t.now }
    ensures value { result ≡ length (listed_of (view t.now) d) }
    ensures run_after { run.new ≡ fill_run (flat (line_of d) (listed_of (view t.now) d)) run.old }
{
    if pools::is_free(t, Pool::Domains, d) {
        return 0;
    }
    let records = words::size(t, sizes::RECORDS);
    let mut k = links::first(t, d);
    for n in 0..records {
        if k == 0 {
            return n;
        }
        let q = rows::load::<Region>(t, tables::slot_to(k));
        put_line(run, 5 * n, d as u64, q);
        k = q.next;
    }
    records
}
