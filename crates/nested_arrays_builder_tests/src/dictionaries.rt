use columnar_memory_types::{Boxed, DataType, Error, Field, IntegerType, Items, Text};
use nested_arrays_dictionary_builders::cells::TryPushFrom;
use nested_arrays_dictionary_builders::cells::builders::AnyMutableArray;
use nested_arrays_dictionary_builders::cells::taken::MutableArray;
use nested_arrays_dictionary_builders::flat_arrays::Utf8Array;
use nested_arrays_dictionary_builders::nulls::Downcast;
use nested_arrays_dictionary_builders::nulls::arrays::{AnyArray, Node, StructArray};
use nested_arrays_dictionary_builders::nulls::flat::PrimitiveKind;
use nested_arrays_scalars::AnyScalar;
use std::alloc::Global;
use std::test::Fail;

/// The type of texts by keys of 8 bits.
fn texts(alloc: Global) -> Result<DataType, Error> {
    Ok(DataType::Dictionary(IntegerType::Int8, Boxed::new(alloc, DataType::Utf8)?, false))
}

fn push_text(builder: &mut AnyMutableArray, alloc: Global, text: &str) -> Result<(), Error> {
    builder.try_push_scalar(&AnyScalar::Text(Text::from_str(alloc, text)?))
}

/// Whether an array is a dictionary with these keys and these texts.
fn stores(array: AnyArray, keys: &[i8], texts: &[&str]) -> bool {
    let Node::Dictionary(node) = &array.node else {
        return false;
    };
    let Some(own) = i8::downcast_ref(&node.keys) else {
        return false;
    };
    let Some(values) = Utf8Array::<i32>::downcast_ref(&node.values) else {
        return false;
    };
    own.values().as_slice() == keys && are_texts(values, texts)
}

/// The last key of a dictionary whose keys have 8 bits.
fn last_key(array: AnyArray) -> Option<i8> {
    let Node::Dictionary(node) = &array.node else {
        return None;
    };
    i8::downcast_ref(&node.keys)?
        .values()
        .as_slice()
        .last()
        .copied()
}

fn are_texts(values: &Utf8Array<i32>, texts: &[&str]) -> bool {
    if values.len() != texts.len() {
        return false;
    }
    for i in 0..values.len() {
        if values.value(i) != texts[i] {
            return false;
        }
    }
    true
}

#[test]
fn a_cut_forgets_values_and_keys(rt: HostRuntime) -> Result<(), Fail> {
    let mut builder = AnyMutableArray::new(rt.alloc(), &texts(rt.alloc())?)?;
    push_text(&mut builder, rt.alloc(), "a")?;
    push_text(&mut builder, rt.alloc(), "b")?;
    if builder.len() == 2 {
        builder.truncate(1);
    }
    push_text(&mut builder, rt.alloc(), "c")?;
    let array = builder.as_box(rt.alloc())?;
    assert!(rt; stores(array, &[0, 1], &["a", "c"]));
    push_text(&mut builder, rt.alloc(), "a")?;
    let array = builder.as_box(rt.alloc())?;
    assert!(rt; stores(array, &[0], &["a"]));
    drop(builder);
    Ok(())
}

#[test]
fn keys_that_are_used_up_refuse_a_new_value(rt: HostRuntime) -> Result<(), Fail> {
    let mut builder = AnyMutableArray::new(rt.alloc(), &texts(rt.alloc())?)?;
    for i in 0u32..128 {
        push_text(&mut builder, rt.alloc(), &format!(in rt.alloc(); "{i}")?)?;
    }
    let refused = push_text(&mut builder, rt.alloc(), "128");
    assert!(rt; matches!(refused, Err(Error::Overflow)));
    drop(refused);
    push_text(&mut builder, rt.alloc(), "0")?;
    let array = builder.as_box(rt.alloc())?;
    assert!(rt; array.len() == 129 && last_key(array) == Some(0));
    drop(builder);
    Ok(())
}

/// The type of structs of a text by its key and of a list of two numbers.
fn rows(alloc: Global) -> Result<DataType, Error> {
    let item = Field::new(alloc, Text::from_str(alloc, "item")?, DataType::Int32, true);
    let pairs = DataType::FixedSizeList(Boxed::new(alloc, item)?, 2);
    let mut fields = Items::new(alloc);
    fields.push(Field::new(alloc, Text::from_str(alloc, "text")?, texts(alloc)?, true))?;
    fields.push(Field::new(alloc, Text::from_str(alloc, "pair")?, pairs, true))?;
    Ok(DataType::Struct(fields))
}

fn row(alloc: Global, text: &str, pair: AnyScalar) -> Result<AnyScalar, Error> {
    let mut cells = Items::new(alloc);
    cells.push(AnyScalar::Text(Text::from_str(alloc, text)?))?;
    cells.push(pair)?;
    Ok(AnyScalar::Record(cells))
}

#[test]
fn a_refused_row_leaves_no_text(rt: HostRuntime) -> Result<(), Fail> {
    let mut builder = AnyMutableArray::new(rt.alloc(), &rows(rt.alloc())?)?;
    let mut one = Items::new(rt.alloc());
    one.push(AnyScalar::Int32(7))?;
    let refused = builder.try_push_scalar(&row(rt.alloc(), "z", AnyScalar::List(one))?);
    assert!(rt; matches!(refused, Err(Error::InvalidArgumentError(_))));
    drop(refused);
    builder.try_push_scalar(&row(rt.alloc(), "y", AnyScalar::Null)?)?;
    let array = builder.as_box(rt.alloc())?;
    let Some(rows) = StructArray::downcast_ref(&array) else {
        return Err(Fail::from("an array of structs"));
    };
    let [first, _] = rows.values() else {
        return Err(Fail::from("two fields"));
    };
    let first = first.clone()?;
    assert!(rt; stores(first, &[0], &["y"]));
    drop(builder);
    Ok(())
}

#[test]
fn a_slot_is_pushed_from_an_array(rt: HostRuntime) -> Result<(), Fail> {
    let mut builder = AnyMutableArray::new(rt.alloc(), &texts(rt.alloc())?)?;
    push_text(&mut builder, rt.alloc(), "a")?;
    push_text(&mut builder, rt.alloc(), "b")?;
    let array = builder.as_box(rt.alloc())?;
    if array.len() == 2 {
        builder.try_push_from(rt.alloc(), &array, 1)?;
        builder.try_push_from(rt.alloc(), &array, 0)?;
    }
    drop(array);
    let array = builder.as_box(rt.alloc())?;
    assert!(rt; stores(array, &[0, 1], &["b", "a"]));
    drop(builder);
    Ok(())
}
