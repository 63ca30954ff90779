//! Whether what is told of a body is told where the body has something, and no more than a body has.
ghost use Rattle.std.specs.Prelude.{◌≡◌, nat_le};
ghost use Rattle.std.specs.List.{list_all};
ghost use Rattle.ssa_model.specs.definitions.Limits.{most_places};
ghost use Rattle.ssa_told.specs.Told.{told_body};
ghost use Rattle.ssa_record.specs.Standing.{are_few, stand, stands};

use ssa_path::path::Path;
use ssa_told::told::{ToldBody, ToldLeaf, ToldOrder, ToldPut};
use ssa_typed::body::{Body, MOST_PLACES};

// Whether the body has the path's parent.
fn has_parent(body: &Body, path: &Path) -> bool
    ensures { result ≡ stands body.now path.now }
{
    let elements = path.elements();
    let above = elements.len().saturating_sub(1);
    body.root().node_at(&elements[..above]).is_some()
}

// Whether the body has the parent of each path that is cut.
fn cut_stands(body: &Body, cut: &[Path]) -> bool
    ensures { result ≡ list_all (stands body.now) cut.now }
{
    for path in cut {
        if !has_parent(body, path) {
            return false;
        }
    }
    true
}

// Whether the body has the parent of each leaf.
fn leaves_stand(body: &Body, leaves: &[ToldLeaf]) -> bool
    ensures { result ≡ list_all (λ e. stands body.now e.path) leaves.now }
{
    for leaf in leaves {
        if !has_parent(body, &leaf.path) {
            return false;
        }
    }
    true
}

// Whether the body has the parent of each list whose order changes.
fn orders_stand(body: &Body, orders: &[ToldOrder]) -> bool
    ensures { result ≡ list_all (λ e. stands body.now e.path) orders.now }
{
    for order in orders {
        if !has_parent(body, &order.path) {
            return false;
        }
    }
    true
}

// Whether the body has the parent of each path that something is put at.
fn puts_stand(body: &Body, puts: &[ToldPut]) -> bool
    ensures { result ≡ list_all (λ e. stands body.now e.path) puts.now }
{
    for put in puts {
        if !has_parent(body, &put.path) {
            return false;
        }
    }
    true
}

/// Whether the body has the parent of each path of which something is told, as it has where what is
/// told is a record of it. Takes no memory.
///
/// So no path of what is told is longer than the body's by more than one element.
pub fn told_stands(body: &Body, told: &ToldBody) -> bool
    ensures { result ≡ stand body.now (told_body told.now) }
{
    if !cut_stands(body, &told.cut) {
        return false;
    }
    if !leaves_stand(body, &told.leaves) {
        return false;
    }
    if !orders_stand(body, &told.order) {
        return false;
    }
    puts_stand(body, &told.put)
}

// Whether a body may have so many places.
fn is_few(places: usize) -> bool
    ensures { result ≡ nat_le places most_places }
{
    places <= MOST_PLACES
}

/// Whether no list of what is told has more paths than a body may have places, as none has where what
/// is told is a record of two valid bodies. Takes no memory.
///
/// So putting the paths by their elements, in whatever order they are told, takes no more than that
/// many steps for a path.
pub fn told_are_few(told: &ToldBody) -> bool
    ensures { result ≡ are_few (told_body told.now) }
{
    if !is_few(told.cut.len()) {
        return false;
    }
    if !is_few(told.leaves.len()) {
        return false;
    }
    if !is_few(told.order.len()) {
        return false;
    }
    is_few(told.put.len())
}
