//! Vectors filled within their room.
ghost use Rattle.std.specs.Prelude.{◌≡◌, ◌≤◌, [], vec_len, vec_capacity};

use ssa_reverse::room::exchange;

// Exchanges the vectors where the empty one has more room.
pub(crate) fn exchange_where_wider<X: Drop>(items: &mut Vec<X>, room: &mut Vec<X>)
    requires empty { room.old.items ≡ [] }
    ensures items { items.new.items ≡ items.old.items }
    ensures empty { room.new.items ≡ [] }
    ensures kept { vec_capacity items.old ≤ vec_capacity items.new }
    ensures wide { vec_capacity room.old ≤ vec_capacity items.new }
    ensures room { vec_len items.old ≤ vec_capacity room.old → vec_len items.old ≤ vec_capacity room.new }
{
    if items.capacity() < room.capacity() {
        exchange(items, room);
    }
}

// Exchanges the vectors where the empty one has room for all elements, but not for as many as there were before.
pub(crate) fn exchange_where_short<X: Drop>(items: &mut Vec<X>, room: &mut Vec<X>, before: usize)
    requires empty { room.old.items ≡ [] }
    requires before { before ≤ vec_capacity items.old }
    ensures items { items.new.items ≡ items.old.items }
    ensures empty { room.new.items ≡ [] }
    ensures room { vec_len items.old ≤ vec_capacity room.old → before ≤ vec_capacity room.new }
{
    if items.len() <= room.capacity() && room.capacity() < before {
        exchange(items, room);
    }
}
