// Former tables, from before request 4, made this delivery's.
ghost use Rattle.replies.specs.Replies.{Converts};

use replies::Reply;

// `old` is only read; v and w are two work areas, each as long as the new tables t.
#[unsafe(no_mangle)]
pub extern "C" fn mityvurno_convert_tables(
    old: &[u64],
    t: &mut [u64],
    v: &mut [u64],
    w: &mut [u64],
) -> Reply
    ensures { Converts old.now t.old v.old w.old result t.new v.new w.new }
{
    engine::convert::mityvurno_convert_tables(old, t, v, w)
}
