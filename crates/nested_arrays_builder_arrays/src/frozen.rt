//! Arrays of what builders hold, with no copy of values.
ghost use Rattle.std.specs.Prelude.{◌≡◌, ◌≤◌, length, map, true};
ghost use Rattle.nested_arrays_builders.specs.columnar_memory.Layouts.{physical_type};
ghost use Rattle.nested_arrays_builders.specs.columnar_memory.Results.{OrOutOfMemory};
ghost use Rattle.nested_arrays_builders.specs.columnar_memory.Spans.{offsets_of};
ghost use Rattle.nested_arrays_builders.specs.columnar_memory.declared.PhysicalType.TheVariants as physical;
ghost use Rattle.nested_arrays_builders.specs.columns.Kinds.{most_values};
ghost use Rattle.nested_arrays_builders.specs.columns.SoundColumns.{is_sound};
ghost use Rattle.nested_arrays_builders.specs.columns.StoredColumns.{dictionary, fixed_lists, in_columns, lists, records, slots};
ghost use Rattle.nested_arrays_builders.specs.arrays.Lengths.{size_of, struct_len};
ghost use Rattle.nested_arrays_builders.specs.arrays.parts.Widths as frozen;
ghost use Rattle.nested_arrays_builders.specs.parts.Marks.{mask_of_marks};
ghost use Rattle.nested_arrays_builders.specs.parts.Open.{column_of};
ghost use Rattle.nested_arrays_builders.specs.Nodes.{parts_of};
ghost use Rattle.nested_arrays_builders.specs.Parts.{parts_column, IsKept};
ghost use Rattle.nested_arrays_builders.specs.values.Uses.{greatest, keys_from};
ghost use Rattle.nested_arrays_builders.specs.Widths.{is_large, spans_in};
ghost use Rattle.nested_arrays_builder_arrays.specs.Layouts.{lists_layout};

use crate::keys::{dictionary_array, freeze_keys};
use nested_arrays_builders::arrays::parts::ListOffsets;
use nested_arrays_builders::arrays::{AnyArray, FixedSizeListArray, ListNode, Node, StructArray};
use nested_arrays_builders::columnar_memory::{Bitmap, DataType, Result};
use nested_arrays_builders::values::MutableKeys;
use nested_arrays_builders::{
    AnyMutableArray, Head, MutableChildren, MutableListOffsets, MutableNode,
};
use std::alloc::Global;

/// The array of what a builder holds, with no copy of values but of keys: zeros or no bytes stand under nulls, offsets go from 0 on without
/// gaps, values of dictionaries stand in the order of first use, and there is a mask exactly where a slot is null, at every depth.
///
/// # Errors
/// `OutOfMemory`: the places of children or counts of owners found no memory.
#[cycle(freezing)]
pub fn into_array(alloc: Global, builder: AnyMutableArray) -> Result<AnyArray>
    ensures { OrOutOfMemory result (λ array. array ≡ column_of builder) }
{
    match builder.into_node() {
        MutableNode::Flat(builder) => Ok(AnyArray::from(builder.freeze()?)),
        MutableNode::Nested(head, children) => freeze_nested(alloc, head, children),
    }
}

/// The array of what a builder with children holds.
#[cycle(freezing)]
fn freeze_nested(alloc: Global, head: Head, children: MutableChildren) -> Result<AnyArray>
    requires { IsKept head.data_type head.marks (parts_of children) (slots (parts_column head.data_type head.marks (parts_of children))) }
    ensures { OrOutOfMemory result (λ array. array ≡ parts_column head.data_type head.marks (parts_of children)) }
{
    match children {
        MutableChildren::List(offsets, values) => {
            freeze_list(alloc, head, offsets, Box::into_inner(values))
        }
        MutableChildren::FixedSizeList(_, values) => {
            freeze_sized(alloc, head, Box::into_inner(values))
        }
        MutableChildren::Struct(fields) => freeze_struct(alloc, head, fields),
        MutableChildren::Dictionary(keys, values) => {
            freeze_keyed(alloc, head, keys, Box::into_inner(values))
        }
    }
}

/// The array of lists.
#[cycle(freezing)]
fn freeze_list(
    alloc: Global,
    head: Head,
    offsets: MutableListOffsets,
    values: AnyMutableArray,
) -> Result<AnyArray>
    requires sound { is_sound (lists head.data_type (mask_of_marks head.marks) (offsets_of (spans_in offsets)) (column_of values)) ≡ true }
    requires lies { physical_type head.data_type ≡ lists_layout (is_large offsets) }
    ensures { OrOutOfMemory result (λ array. array
        ≡ lists head.data_type (mask_of_marks head.marks) (offsets_of (spans_in offsets)) (column_of values)) }
{
    let values = into_array(alloc, values)?;
    let values = Box::new(alloc, values)?;
    let offsets = freeze_offsets(offsets)?;
    let Head { data_type, marks } = head;
    let validity = marks.freeze()?;
    Ok(list_array(data_type, offsets, values, validity))
}

/// The array of lists of one size.
#[cycle(freezing)]
fn freeze_sized(alloc: Global, head: Head, values: AnyMutableArray) -> Result<AnyArray>
    requires { is_sound (fixed_lists head.data_type (mask_of_marks head.marks) (size_of head.data_type) (column_of values)) ≡ true }
    ensures { OrOutOfMemory result (λ array. array
        ≡ fixed_lists head.data_type (mask_of_marks head.marks) (size_of head.data_type) (column_of values)) }
{
    let values = into_array(alloc, values)?;
    let values = Box::new(alloc, values)?;
    let Head { data_type, marks } = head;
    let validity = marks.freeze()?;
    Ok(AnyArray::from(FixedSizeListArray::new(data_type, values, validity)))
}

/// The array of structs.
#[cycle(freezing)]
fn freeze_struct(alloc: Global, head: Head, fields: Vec<AnyMutableArray>) -> Result<AnyArray>
    requires sound { is_sound (records head.data_type (mask_of_marks head.marks) (length head.marks) (in_columns (map column_of fields.items)))
        ≡ true }
    requires long { struct_len (map column_of fields.items) ≡ length head.marks }
    ensures { OrOutOfMemory result (λ array. array
        ≡ records head.data_type (mask_of_marks head.marks) (length head.marks) (in_columns (map column_of fields.items))) }
{
    let fields = freeze_each(alloc, fields)?;
    let Head { data_type, marks } = head;
    let validity = marks.freeze()?;
    Ok(AnyArray::from(StructArray::new(data_type, fields, validity)))
}

/// The array of a dictionary.
#[cycle(freezing)]
fn freeze_keyed(
    alloc: Global,
    head: Head,
    keys: MutableKeys,
    values: AnyMutableArray,
) -> Result<AnyArray>
    requires sound { is_sound (dictionary head.data_type (mask_of_marks head.marks) (keys_from keys.uses) (column_of values)) ≡ true }
    requires lies { physical_type head.data_type ≡ physical.Dictionary keys.key }
    requires few { greatest keys.uses ≤ most_values keys.key }
    ensures { OrOutOfMemory result (λ array. array
        ≡ dictionary head.data_type (mask_of_marks head.marks) (keys_from keys.uses) (column_of values)) }
{
    let values = into_array(alloc, values)?;
    let values = Box::new(alloc, values)?;
    let Head { data_type, marks } = head;
    let MutableKeys { key, uses, known } = keys;
    drop(known);
    let validity = marks.freeze()?;
    let keys = freeze_keys(alloc, key, uses, validity)?;
    Ok(dictionary_array(data_type, keys, values))
}

/// The array of each builder.
#[cycle(freezing)]
fn freeze_each(alloc: Global, builders: Vec<AnyMutableArray>) -> Result<Vec<AnyArray>>
    ensures { OrOutOfMemory result (λ arrays. arrays.items ≡ map column_of builders.items) }
{
    let mut arrays = Vec::new(alloc);
    for builder in builders {
        let array = into_array(alloc, builder)?;
        arrays.push(array)?;
    }
    Ok(arrays)
}

/// Offsets that grow no more.
fn freeze_offsets(offsets: MutableListOffsets) -> Result<ListOffsets>
    ensures { OrOutOfMemory result (λ kept. (frozen.spans_in kept ≡ spans_in offsets) × (frozen.layout_of kept ≡ lists_layout (is_large offsets))) }
{
    match offsets {
        MutableListOffsets::Small(offsets) => Ok(ListOffsets::Small(offsets.freeze()?)),
        MutableListOffsets::Large(offsets) => Ok(ListOffsets::Large(offsets.freeze()?)),
    }
}

/// The array of lists with these parts, which fit.
fn list_array(
    data_type: DataType,
    offsets: ListOffsets,
    values: Box<AnyArray>,
    validity: Option<Bitmap>,
) -> AnyArray
    requires sound { is_sound (lists data_type validity (offsets_of (frozen.spans_in offsets)) values.value) ≡ true }
    requires lies { physical_type data_type ≡ frozen.layout_of offsets }
    ensures { result ≡ lists data_type validity (offsets_of (frozen.spans_in offsets)) values.value }
{
    AnyArray {
        node: Node::List(ListNode {
            data_type,
            offsets,
            values,
            validity,
        }),
    }
}
