// For the crates above: bytes copied, cleared and moved, and a table's entry put. What a call leaves in a lent buffer is defined in specs/, and
// its laws are in proofs/. Nothing here knows the format. Rests on nothing.
#![tactic(auto)]

ghost use Rattle.std.specs.Prelude.{◌+◌, ◌*◌, ◌≤◌, ◌<◌, length, get_or};
ghost use Rattle.tables.specs.Lent.{Leaves};
ghost use Rattle.tables.specs.Inner.{Puts};

// For the crates above. Copies n bytes of a source from a place on to a place of a list. Here and in move_up byte by byte: where the compiler cannot
// tell that two parts lie apart, the library's copies need `memmove`, which the archive asks of no host.
pub fn copy(list: &mut [u8], to: usize, source: &[u8], at: usize, n: usize)
    requires { (to + n ≤ length list.old) × (0 < n → at + n ≤ length source.now) }
    ensures { Leaves list.old to n (λ i. get_or source.now (at + i) 0) list.new }
{
    for k in 0..n {
        list[to + k] = source[at + k];
    }
}

// For the crates above. Makes n bytes of a list zero, from a place on.
pub fn clear(list: &mut [u8], from: usize, n: usize)
    requires { from + n ≤ length list.old }
    ensures { Leaves list.old from n (λ i. 0) list.new }
{
    list[from..from + n].fill(0);
}

// For the crates above. Moves n bytes of a list from `by` places on to its front.
pub fn move_up(list: &mut [u8], by: usize, n: usize)
    requires { by + n ≤ length list.old }
    ensures { Leaves list.old 0 n (λ i. get_or list.old (by + i) 0) list.new }
{
    for k in 0..n {
        list[k] = list[by + k];
    }
}

// For the crates above. Puts an entry of N words under a number of a table, if that is to be written. Written where it is called: the entry's words
// then need no memory of their own.
#[inline(always)]
pub fn put_entry<const N: usize>(table: &mut [u32], number: usize, most: usize, entry: &[u32; N])
    requires { N * most ≤ length table.old }
    ensures { Puts table.old number most entry.now table.new }
{
    if most <= number {
        return;
    }
    let at = N * number;
    table[at..at + N].copy_from_slice(entry);
}
