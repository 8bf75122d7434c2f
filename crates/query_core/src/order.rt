//! The order in which hits are given.
ghost use Rattle.std.specs.Prelude.{◌≡◌, [], option_map};
ghost use Rattle.dobj_field.specs.Scalar.{scalar_value};
ghost use Rattle.query_core.specs.Order.{by_key, by_keys, rising, falling, kind_of};

use dobj_field::{Field, Scalar, first_scalar};
use dobj_model::Object;
use std::alloc::Global;
use std::cmp::Ordering;
use std::marker::Model;

/// A field by whose key objects are sorted.
#[derive(Debug, Drop)]
pub struct SortKey {
    /// The field. The key is the first string, number or boolean that it reaches.
    pub field: Field,
    /// Whether the highest key comes first.
    pub descending: bool,
}

/// The keys by which objects are sorted, the first one first. Ties go by identifier.
#[derive(Debug, Drop)]
pub struct Order {
    keys: Vec<SortKey>,
}

impl Model for Order {
    ghost use Rattle.std.specs.Prelude.{List};
    ghost use Rattle.query_core.specs.declared.order.SortKey.{SortKey};

    ghost Value = { List SortKey };

    ghost view = { λ order. order.keys.items };
}

impl Order {
    /// No keys: objects go by identifier alone. It takes no memory.
    pub fn none(alloc: Global) -> Order
        ensures { result ≡ [] }
    {
        Order {
            keys: Vec::new(alloc),
        }
    }

    // The order by these keys.
    pub(crate) fn of(keys: Vec<SortKey>) -> Order
        ensures { result ≡ keys.items }
    {
        Order { keys }
    }

    /// Which of two objects comes first. It takes no memory.
    pub fn compare(&self, a: &Object, b: &Object) -> Ordering
        ensures { result ≡ by_keys self.now a.now b.now }
    {
        for key in &self.keys {
            match compare_key(key, a, b) {
                Ordering::Equal => {}
                other => return other,
            }
        }
        a.id().get().cmp(b.id().get())
    }
}

// Which of two objects comes first by one key.
fn compare_key(key: &SortKey, a: &Object, b: &Object) -> Ordering
    ensures { result ≡ by_key key.now a.now b.now }
{
    let a = first_scalar(a, &key.field);
    let b = first_scalar(b, &key.field);
    if key.descending {
        compare_falling(&a, &b)
    } else {
        compare_rising(&a, &b)
    }
}

fn compare_falling(a: &Option<Scalar>, b: &Option<Scalar>) -> Ordering
    ensures { result ≡ falling (option_map scalar_value a.now) (option_map scalar_value b.now) }
{
    match (a, b) {
        (None, None) => Ordering::Equal,
        (None, Some(_)) => Ordering::Greater,
        (Some(_), None) => Ordering::Less,
        _ => compare_rising(b, a),
    }
}

fn compare_rising(a: &Option<Scalar>, b: &Option<Scalar>) -> Ordering
    ensures { result ≡ rising (option_map scalar_value a.now) (option_map scalar_value b.now) }
{
    match (a, b) {
        (Some(Scalar::Number(a)), Some(Scalar::Number(b))) => a.get().cmp(&b.get()),
        (Some(Scalar::Text(a)), Some(Scalar::Text(b))) => a.cmp(b),
        _ => kind_of(a).cmp(&kind_of(b)),
    }
}

// The place of a key's kind in the order.
fn kind_of(key: &Option<Scalar>) -> u8
    ensures { result ≡ kind_of (option_map scalar_value key.now) }
{
    match key {
        Some(Scalar::Number(_)) => 0,
        Some(Scalar::Text(_)) => 1,
        Some(Scalar::Truth(false)) => 2,
        Some(Scalar::Truth(true)) => 3,
        None => 4,
    }
}
