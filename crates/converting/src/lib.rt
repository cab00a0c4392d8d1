// The converter (document 02, request 2): former tables, without marks, become this delivery's.

#![tactic(auto)]

ghost use Rattle.std.specs.Prelude.{◌≡◌, true};
ghost use Rattle.converted.specs.Former.{rebuilt};
ghost use Rattle.converting.specs.Exact.{converts_b};
ghost use Rattle.replies.specs.Replies.{Converts};

use refusals::Refusal;
use replies::Reply;

// Whether the old tables can be converted in memory of these lengths; v is then the new ones. Old tables are never tested:
// the new ones are, by the one test of lent tables.
fn converts(old: &[u64], t: &[u64], v: &mut [u64], w: &mut [u64]) -> bool
    ensures value { result ≡ converts_b old.now t.now v.old w.old }
    ensures v_after { result ≡ true → v.new ≡ rebuilt old.now }
{
    if t.len() == v.len() {
        if converted_words::build(old, v) {
            return frame::admits(v, w);
        }
    }
    false
}

// Makes of former tables `old` this delivery's in t. Both work areas, as long as t, end all zero.
pub fn convert(old: &[u64], t: &mut [u64], v: &mut [u64], w: &mut [u64]) -> Reply
    ensures { Converts old.now t.old v.old w.old result t.new v.new w.new }
{
    if converts(old, t, v, w) {
        words::copy(v, t);
        words::clear(v);
        words::clear(w);
        return Reply {
            refusal: 0,
            value: 0,
        };
    }
    words::clear(v);
    words::clear(w);
    Reply::from(Refusal::Memory)
}
