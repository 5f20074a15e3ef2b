// Bytes into the hold and out of it: a payload is put behind what is held, and what has been read is dropped in front.
// For the rest of this crate and for the crates above. Rests on tables, and on blocks for the size.
ghost use Rattle.std.specs.Prelude.{◌+◌, ◌≤◌, length, get_or};
ghost use Rattle.tables.specs.Lent.{Leaves};
ghost use Rattle.hold.specs.Inner.{Dropped};

use blocks::PAYLOAD;

// Puts the payload that lies in a source behind the bytes that are held.
pub fn append(hold: &mut [u8; 12288], held: usize, source: &[u8], at: usize)
    requires { (held + 506 ≤ 12288) × (at + 506 ≤ length source.now) }
    ensures { Leaves hold.old held 506 (λ i. get_or source.now (at + i) 0) hold.new }
{
    tables::copy(hold, held, source, at, PAYLOAD);
}

// Drops the first `by` of the bytes that are held; the rest moves up, and zeros follow it.
pub fn drop_front(list: &mut [u8], by: usize, held: usize)
    requires { (by ≤ held) × (held ≤ length list.old) }
    ensures { Dropped list.old by held list.new }
{
    if by == 0 {
        return;
    }
    let left = held - by;
    tables::move_up(list, by, left);
    tables::clear(list, left, by);
}
