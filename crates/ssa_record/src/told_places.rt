//! What is told of a body, put by whole paths.
ghost use Rattle.std.specs.Prelude.{◌≡◌, ◌∷◌, [], ◌++◌, map, IfOk, OnOk, option_map};
ghost use Rattle.ssa_model.specs.definitions.PathMap.{get, has, marked};
ghost use Rattle.ssa_json.specs.View.{view};
ghost use Rattle.ssa_path.specs.TopPaths.{lent_path};
ghost use Rattle.ssa_path.specs.View.{element_view, path_view};
ghost use Rattle.ssa_told.specs.Told.{told_body};
ghost use Rattle.ssa_record.specs.Places.{cut_view, leaves_view, maps_of, maps_told, order_view, put_view, told_paths};
ghost use Rattle.ssa_record.specs.ToldEntries.{told_leaf, told_order, told_put, AddsPaths};

use crate::by_path::ByPath;
use crate::places::ToldPlaces;
use ssa_json::value::Json;
use ssa_path::element::Elem;
use ssa_path::field_set::FieldSet;
use ssa_path::path::Path;
use ssa_path::top_path::LentPath;
use ssa_told::told::{ToldBody, ToldLeaf, ToldOrder, ToldPut};
use std::alloc::{AllocError, Global};

// The path itself, with none behind it.
fn lent(path: &Path) -> LentPath<'_>
    ensures { lent_path result ≡ path.now }
{
    LentPath {
        place: path.elements(),
        last: None,
    }
}

// The paths that are cut. Each is added to those of which anything is told.
fn cut_told<'a>(
    alloc: Global,
    cut: &'a [Path],
    touched: &mut FieldSet,
) -> Result<Vec<(LentPath<'a>, ())>, AllocError>
    ensures told { IfOk result (λ es. cut_view es.items ≡ marked cut.now) }
    ensures touched { OnOk result (AddsPaths (told_paths (marked cut.now)) touched.old touched.new) }
{
    let mut told = Vec::with_capacity(alloc, cut.len())?;
    for path in cut {
        touched.insert(alloc, path)?;
        told.push((lent(path), ()))?;
    }
    Ok(told)
}

// The leaves that change, each by its path. Each path is added to those of which anything is told.
fn leaves_told<'a>(
    alloc: Global,
    leaves: &'a [ToldLeaf],
    touched: &mut FieldSet,
) -> Result<Vec<(LentPath<'a>, &'a Json)>, AllocError>
    ensures told { IfOk result (λ es. leaves_view es.items ≡ map told_leaf leaves.now) }
    ensures touched { OnOk result (AddsPaths (told_paths (map told_leaf leaves.now)) touched.old touched.new) }
{
    let mut told = Vec::with_capacity(alloc, leaves.len())?;
    for leaf in leaves {
        touched.insert(alloc, &leaf.path)?;
        told.push((lent(&leaf.path), &leaf.value))?;
    }
    Ok(told)
}

// The orders, each by the path of its list. Each path is added to those of which anything is told.
fn orders_told<'a>(
    alloc: Global,
    orders: &'a [ToldOrder],
    touched: &mut FieldSet,
) -> Result<Vec<(LentPath<'a>, &'a [Elem])>, AllocError>
    ensures told { IfOk result (λ es. order_view es.items ≡ map told_order orders.now) }
    ensures touched { OnOk result (AddsPaths (told_paths (map told_order orders.now)) touched.old touched.new) }
{
    let mut told = Vec::with_capacity(alloc, orders.len())?;
    for order in orders {
        touched.insert(alloc, &order.path)?;
        told.push((lent(&order.path), order.items.as_slice()))?;
    }
    Ok(told)
}

// What is put, each by its path. Each path is added to those of which anything is told.
fn puts_told<'a>(
    alloc: Global,
    puts: &'a [ToldPut],
    touched: &mut FieldSet,
) -> Result<Vec<(LentPath<'a>, &'a ToldPut)>, AllocError>
    ensures told { IfOk result (λ es. put_view es.items ≡ map told_put puts.now) }
    ensures touched { OnOk result (AddsPaths (told_paths (map told_put puts.now)) touched.old touched.new) }
{
    let mut told = Vec::with_capacity(alloc, puts.len())?;
    for put in puts {
        touched.insert(alloc, &put.path)?;
        told.push((lent(&put.path), put))?;
    }
    Ok(told)
}

/// What is told of a body, by whole paths. Takes about n log n comparisons of paths.
pub fn places_told<'a>(alloc: Global, told: &'a ToldBody) -> Result<ToldPlaces<'a>, AllocError>
    ensures { IfOk result (λ t. maps_of t ≡ maps_told (told_body told.now)) }
{
    let mut touched = FieldSet::new(alloc);
    let cut = cut_told(alloc, &told.cut, &mut touched)?;
    let leaves = leaves_told(alloc, &told.leaves, &mut touched)?;
    let order = orders_told(alloc, &told.order, &mut touched)?;
    let put = puts_told(alloc, &told.put, &mut touched)?;
    Ok(ToldPlaces {
        cut: ByPath::of(alloc, cut)?,
        leaves: ByPath::of(alloc, leaves)?,
        order: ByPath::of(alloc, order)?,
        put: ByPath::of(alloc, put)?,
        touched,
    })
}

impl<'a> ToldPlaces<'a> {
    /// Whether the child of the element is cut.
    pub fn is_cut(&self, place: &[Elem], last: &Elem) -> bool
        ensures { result ≡ has (maps_of self.now).cut (path_view place.now ++ element_view last.now ∷ []) }
    {
        self.cut.get(place, Some(last)).is_some()
    }

    /// The new content of a leaf, where one is told.
    pub fn leaf_at(&self, path: &[Elem]) -> Option<&'a Json>
        ensures { option_map (λ v. view v.now) result ≡ get (maps_of self.now).leaves (path_view path.now) }
    {
        self.leaves.get(path, None).copied()
    }

    /// All items of a list in their new order, where one is told.
    pub fn order_at(&self, path: &[Elem]) -> Option<&'a [Elem]>
        ensures { option_map (λ es. path_view es.now) result ≡ get (maps_of self.now).order (path_view path.now) }
    {
        self.order.get(path, None).copied()
    }

    /// What is put as the child of the element.
    pub fn put_at(&self, place: &[Elem], last: &Elem) -> Option<&'a ToldPut>
        ensures { option_map (λ x. (view x.now.value, x.now.place)) result
            ≡ get (maps_of self.now).put (path_view place.now ++ element_view last.now ∷ []) }
    {
        self.put.get(place, Some(last)).copied()
    }
}
