// Rows of words, one record each.
ghost use Rattle.std.specs.Prelude.{◌≡◌, ◌+◌, ◌*◌, ◌≤◌, length};
ghost use Rattle.tables.specs.Rows.{row_at};

// Where row i stands of the n rows of w words from o on; the end of the words where there is no such row.
pub fn row_at(t: &[u64], o: usize, n: usize, w: usize, i: usize) -> usize
    requires { o + n * w ≤ length t.now }
    ensures { result ≡ row_at (length t.now) o n w i }
{
    if i < n { o + i * w } else { t.len() }
}
