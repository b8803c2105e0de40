use columnar_memory_types::{Boxed, DataType, Error, Field, IntegerType, Items, Text};
use nested_arrays_dictionary_builders::cells::builders::AnyMutableArray;
use nested_arrays_dictionary_builders::cells::taken::MutableArray;
use std::alloc::Global;
use std::test::Fail;

/// What a call to begin a builder of a type answers.
fn answer(alloc: Global, data_type: DataType) -> u8 {
    let begun = AnyMutableArray::new(alloc, &data_type);
    let found = match &begun {
        Ok(_) => 0,
        Err(Error::InvalidArgumentError(_)) => 1,
        Err(Error::NotYetImplemented(_)) => 2,
        Err(_) => 3,
    };
    drop(begun);
    drop(data_type);
    found
}

fn dictionary(alloc: Global, value: DataType, is_ordered: bool) -> Result<DataType, Error> {
    Ok(DataType::Dictionary(IntegerType::Int8, Boxed::new(alloc, value)?, is_ordered))
}

fn list(alloc: Global, item: DataType) -> Result<DataType, Error> {
    let item = Field::new(alloc, Text::from_str(alloc, "item")?, item, true);
    Ok(DataType::List(Boxed::new(alloc, item)?))
}

fn map(alloc: Global) -> Result<DataType, Error> {
    let entry = Field::new(alloc, Text::from_str(alloc, "entry")?, DataType::Null, true);
    Ok(DataType::Map(Boxed::new(alloc, entry)?, false))
}

#[test]
fn a_builder_is_begun_of_a_type_that_has_one(rt: HostRuntime) -> Result<(), Fail> {
    let alloc = rt.alloc();
    let inside = list(alloc, dictionary(alloc, DataType::Utf8, false)?)?;
    assert_eq!(rt; answer(alloc, dictionary(alloc, inside, false)?), 0);
    assert_eq!(rt; answer(alloc, list(alloc, DataType::Float64)?), 2);
    assert_eq!(rt; answer(alloc, dictionary(alloc, DataType::Utf8, true)?), 1);
    let inner = dictionary(alloc, DataType::Utf8, false)?;
    assert_eq!(rt; answer(alloc, dictionary(alloc, inner, false)?), 1);
    assert_eq!(rt; answer(alloc, list(alloc, map(alloc)?)?), 1);
    assert_eq!(rt; answer(alloc, DataType::FixedSizeBinary(0)), 1);
    assert_eq!(rt; answer(alloc, DataType::Struct(Items::new(alloc))), 1);
    Ok(())
}

/// How many slots an array of a builder with one null more has, and the builder then; whether there was a mask.
fn with_a_null<B: MutableArray>(builder: B, alloc: Global) -> Result<(usize, usize, bool), Error> {
    let mut builder = builder;
    builder.reserve(2)?;
    builder.push_null()?;
    builder.shrink_to_fit();
    let masked = builder.validity().is_some() && !builder.is_empty();
    let array = builder.as_arc(alloc)?;
    let found = (array.len(), builder.len(), masked);
    drop(array);
    builder.push_null()?;
    builder.truncate(0);
    drop(builder);
    Ok(found)
}

#[test]
fn any_builder_is_one(rt: HostRuntime) -> Result<(), Fail> {
    let numbers = AnyMutableArray::new(rt.alloc(), &DataType::Int32)?;
    assert_eq!(rt; with_a_null(numbers, rt.alloc())?, (1, 0, true));
    let nulls = AnyMutableArray::new(rt.alloc(), &DataType::Null)?;
    assert_eq!(rt; with_a_null(nulls, rt.alloc())?, (1, 0, false));
    Ok(())
}
