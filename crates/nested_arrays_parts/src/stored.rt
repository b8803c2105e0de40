//! What an array without children stores, by its form.
ghost use Rattle.std.specs.Prelude.{◌≡◌, ◌≢◌, ◌<◌, ◌≤◌, MatchOption, option_copied};
ghost use Rattle.nested_arrays_flat.specs.columns.Slots.{bytes, text};
ghost use Rattle.nested_arrays_flat.specs.columns.StoredColumns.{column_len, slot_at};
ghost use Rattle.nested_arrays_flat.specs.FlatColumns.{boolean_column};
ghost use Rattle.nested_arrays_parts.specs.Forms.{bare, column_form};

use crate::flats::{FlatArray, FlatNode};
use nested_arrays_flat::AnyPrimitive;
use nested_arrays_flat::flat_arrays::BooleanArray;

/// Hands to a proof that an array of numbers stores numbers.
#[tactic(auto, using(crate::proofs::StoredForms::numbers_form))]
pub(crate) fn holds_numbers(array: &AnyPrimitive)
    ensures { column_form array.now ≡ 2 }
{
    let _node = &array.node;
}

/// Hands to a proof that an array without children stores values without slots inside.
pub fn holds_values(array: &FlatArray)
    ensures { column_form array.now ≤ 4 }
{
    match &array.node {
        FlatNode::Null(array) => array.holds_nulls(),
        FlatNode::Boolean(_) => {}
        FlatNode::Primitive(array) => holds_numbers(array),
        FlatNode::Binary(_) => {}
        FlatNode::LargeBinary(_) => {}
        FlatNode::FixedSizeBinary(array) => {
            let _values = array.values();
        }
        FlatNode::Utf8(_) => {}
        FlatNode::LargeUtf8(_) => {}
    }
}

/// The array of booleans, if it is one.
pub(crate) fn booleans(array: &FlatArray) -> Option<&BooleanArray>
    ensures { MatchOption result (column_form array.now ≢ 1) (λ booleans. boolean_column booleans.now ≡ array.now) }
{
    match &array.node {
        FlatNode::Null(array) => {
            array.holds_nulls();
            None
        }
        FlatNode::Boolean(array) => Some(array),
        FlatNode::Primitive(array) => {
            holds_numbers(array);
            None
        }
        FlatNode::Binary(_) => None,
        FlatNode::LargeBinary(_) => None,
        FlatNode::FixedSizeBinary(array) => {
            let _values = array.values();
            None
        }
        FlatNode::Utf8(_) => None,
        FlatNode::LargeUtf8(_) => None,
    }
}

/// The array of numbers, if it is one.
pub(crate) fn numbers(array: &FlatArray) -> Option<&AnyPrimitive>
    ensures { MatchOption result (column_form array.now ≢ 2) (λ numbers. (numbers.now ≡ array.now) × (column_form array.now ≡ 2)) }
{
    match &array.node {
        FlatNode::Null(array) => {
            array.holds_nulls();
            None
        }
        FlatNode::Boolean(_) => None,
        FlatNode::Primitive(array) => {
            holds_numbers(array);
            Some(array)
        }
        FlatNode::Binary(_) => None,
        FlatNode::LargeBinary(_) => None,
        FlatNode::FixedSizeBinary(array) => {
            let _values = array.values();
            None
        }
        FlatNode::Utf8(_) => None,
        FlatNode::LargeUtf8(_) => None,
    }
}

/// The stored text at a place, if the array is one of texts.
#[tactic(auto, using(crate::proofs::StoredForms::text_stored))]
pub(crate) fn text(array: &FlatArray, i: usize) -> Option<&str>
    requires { i < column_len array.now }
    ensures { MatchOption result (column_form array.now ≢ 3) (λ t. slot_at (bare array.now) i ≡ text t.now) }
{
    match &array.node {
        FlatNode::Null(array) => {
            array.holds_nulls();
            None
        }
        FlatNode::Boolean(_) => None,
        FlatNode::Primitive(array) => {
            holds_numbers(array);
            None
        }
        FlatNode::Binary(_) => None,
        FlatNode::LargeBinary(_) => None,
        FlatNode::FixedSizeBinary(array) => {
            let _values = array.values();
            None
        }
        FlatNode::Utf8(array) => Some(array.value(i)),
        FlatNode::LargeUtf8(array) => Some(array.value(i)),
    }
}

/// The stored byte string at a place, if the array is one of byte strings.
#[tactic(auto, using(crate::proofs::StoredForms::bytes_stored))]
pub(crate) fn bytes(array: &FlatArray, i: usize) -> Option<&[u8]>
    requires { i < column_len array.now }
    ensures { MatchOption result (column_form array.now ≢ 4) (λ b. slot_at (bare array.now) i ≡ bytes b.now) }
{
    match &array.node {
        FlatNode::Null(array) => {
            array.holds_nulls();
            None
        }
        FlatNode::Boolean(_) => None,
        FlatNode::Primitive(array) => {
            holds_numbers(array);
            None
        }
        FlatNode::Binary(array) => Some(array.value(i)),
        FlatNode::LargeBinary(array) => Some(array.value(i)),
        FlatNode::FixedSizeBinary(array) => Some(array.value(i)),
        FlatNode::Utf8(_) => None,
        FlatNode::LargeUtf8(_) => None,
    }
}
