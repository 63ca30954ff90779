//! Vectors without room that nobody needs.
ghost use Rattle.std.specs.Prelude.{◌≡◌, ◌<◌, [], ◌∷◌, ◌++◌, length, vec_capacity, OnErr, OnOk};

use std::alloc::AllocError;

// Vectors of so many elements and more are left to grow where they stand, if there is room behind them.
const MANY: usize = 64;

// Gives a vector without spare room that for twice as many elements, and one of two or three that for four times as many:
// where there are more than two, there mostly are some. To move few elements costs less than to ask whether they can stay.
fn widen<T>(items: &mut Vec<T>) -> Result<(), AllocError>
where
    T: Drop,
    requires some { 0 < length items.old.items }
    requires few { length items.old.items < 64 }
    ensures items { items.new.items ≡ items.old.items }
    ensures room { OnOk result (length items.new.items < vec_capacity items.new) }
{
    let times = match items.len() {
        2 | 3 => 4,
        _ => 2,
    };
    let mut wider = Vec::with_capacity(*items.allocator(), items.len() * times)?;
    wider.append(items)?;
    *items = wider;
    Ok(())
}

/// Puts an element behind the others. The first one takes room for itself alone, where a vector's own `push`
/// takes room for four: of many vectors with one element each, as records and sets have, most of the memory
/// would be such room. On `Err` the others are as they were.
pub fn push_closely<T>(items: &mut Vec<T>, item: T) -> Result<(), AllocError>
where
    T: Drop,
    ensures ok { OnOk result (items.new.items ≡ items.old.items ++ item ∷ []) }
    ensures err { OnErr result (items.new.items ≡ items.old.items) }
{
    if items.capacity() == 0 {
        *items = Vec::with_capacity(*items.allocator(), 1)?;
    } else if items.len() == items.capacity() && items.len() < MANY {
        widen(items)?;
    }
    items.push(item)?;
    Ok(())
}
