//! Builders of byte strings and of texts as far as every builder has them: a null more, offsets from 0 on, and the array that leaves a builder empty.
ghost use Rattle.std.specs.Prelude.{◌≡◌, ◌≤◌, [], None};
ghost use Rattle.flat_arrays.specs.ByteStrings.{byte_strings, len_of, with_mask};
ghost use Rattle.nested_arrays_builder_parts.specs.arrays.columnar_memory.Results.{OrOutOfMemory};
ghost use Rattle.nested_arrays_builder_parts.specs.arrays.columnar_memory.Spans.{last_of, no_spans};
ghost use Rattle.nested_arrays_builder_values.specs.ByteBuilders.{AddsByteNull, LeavesNoBytes, Rebases, from_zero};

use flat_arrays::{BinaryArray, ByteBuilder, MutableBinaryArray, MutableUtf8Array, Utf8Array};
use nested_arrays_builder_parts::columnar_memory::{
    Bitmap, Buffer, DataType, Error, MutableBitmap, Offset, Offsets, Result,
};
use std::alloc::Global;
use std::mem;

/// As many slots as an array may have.
const MOST_SLOTS: usize = 9_223_372_036_854_775_807;

/// How many slots there are.
fn count_of<O: Offset>(builder: &ByteBuilder<O>) -> usize
    ensures { result ≡ len_of builder.now }
{
    builder.len()
}

/// A mask as it is, also where no slot is null.
///
/// # Errors
/// `OutOfMemory`: the mask found no memory.
pub fn frozen_mask(validity: Option<MutableBitmap>) -> Result<Option<Bitmap>>
    ensures { OrOutOfMemory result (λ mask. mask ≡ validity) }
{
    match validity {
        Some(mask) => Ok(Some(mask.freeze()?)),
        None => Ok(None),
    }
}

/// A copy of the data type.
fn type_of<O: Offset>(builder: &ByteBuilder<O>) -> Result<DataType>
    ensures { OrOutOfMemory result (λ data_type. data_type ≡ builder.now.data_type) }
{
    Ok(builder.data_type().clone()?)
}

/// Where the bytes of the first slot begin.
fn start_of<O: Offset>(builder: &ByteBuilder<O>) -> usize
    ensures start { result ≡ builder.now.offsets.start }
    ensures bound { last_of builder.now.offsets ≤ O.greatest }
{
    let _end = builder.offsets().last().to_usize();
    builder.offsets().first().to_usize()
}

/// Pushes a null, which stores no bytes.
///
/// # Errors
/// `Overflow`: there are as many slots as a column may have.
/// `OutOfMemory`: the null found no memory.
pub fn push_null_to_strings<O: Offset>(strings: &mut MutableBinaryArray<O>) -> Result<()>
    ensures { AddsByteNull strings.old strings.new result }
{
    if count_of(strings) >= MOST_SLOTS {
        return Err(Error::Overflow);
    }
    strings.push_null()
}

/// A builder without slots, of the data type of another.
fn no_strings<O: Offset>(
    alloc: Global,
    strings: &MutableBinaryArray<O>,
) -> Result<MutableBinaryArray<O>>
    ensures { OrOutOfMemory result (λ fresh. fresh ≡ byte_strings strings.now.data_type no_spans [] None) }
{
    strings.whole();
    let data_type = type_of(strings)?;
    let offsets = Offsets::new(alloc)?;
    MutableBinaryArray::try_new(data_type, offsets, Vec::new(alloc), None)
}

/// The slots of a builder, which is left empty.
#[tactic(auto, using(crate::proofs::ByteParts::new_left, crate::proofs::ByteParts::none_left))]
fn take_strings<O: Offset>(
    alloc: Global,
    strings: &mut MutableBinaryArray<O>,
) -> Result<MutableBinaryArray<O>>
    ensures left { LeavesNoBytes strings.old strings.new }
    ensures taken { OrOutOfMemory result (λ taken. taken ≡ strings.old) }
{
    match no_strings(alloc, strings) {
        Ok(fresh) => Ok(mem::replace(strings, fresh)),
        Err(error) => {
            strings.truncate(0);
            strings.set_validity(None);
            Err(error)
        }
    }
}

/// The values of a builder with offsets from 0 on.
#[tactic(auto, using(crate::proofs::ByteParts::copied, crate::proofs::ByteParts::copy_fault))]
fn copy_of_strings<O: Offset>(
    alloc: Global,
    strings: &MutableBinaryArray<O>,
) -> Result<MutableBinaryArray<O>>
    ensures { OrOutOfMemory result (λ copy. with_mask copy strings.now.validity ≡ from_zero strings.now) }
{
    let _start = start_of(strings);
    let mut copy = no_strings(alloc, strings)?;
    copy.try_extend_from_self(strings)?;
    Ok(copy)
}

/// Keeps the slots with offsets from 0 on, or changes nothing. Takes no memory where they are from 0 on.
///
/// # Errors
/// `OutOfMemory`: the copy of the bytes found no memory.
#[tactic(auto, using(crate::proofs::ByteParts::from_start, crate::proofs::ByteParts::same_count))]
pub fn rebase_strings<O: Offset>(strings: &mut MutableBinaryArray<O>) -> Result<()>
    ensures { Rebases strings.old strings.new result }
{
    if start_of(strings) == 0 {
        return Ok(());
    }
    let alloc = *strings.values().allocator();
    let copy = copy_of_strings(alloc, strings)?;
    let (_, _, _, validity) = mem::replace(strings, copy).into_inner();
    strings.set_validity(validity);
    Ok(())
}

/// The array of the slots of a builder with offsets from 0 on; the builder is left empty.
///
/// # Errors
/// `OutOfMemory`: the array, or what is left, found no memory. The builder is left empty too.
pub fn take_binary_array<O: Offset>(
    alloc: Global,
    strings: &mut MutableBinaryArray<O>,
) -> Result<BinaryArray<O>>
    ensures left { LeavesNoBytes strings.old strings.new }
    ensures taken { OrOutOfMemory result (λ array. array ≡ from_zero strings.old) }
{
    let mut taken = take_strings(alloc, strings)?;
    rebase_strings(&mut taken)?;
    array_of_strings(taken)
}

/// The array of the slots of a builder, with its mask as it is.
#[tactic(auto, using(crate::proofs::ByteParts::parts_fit))]
fn array_of_strings<O: Offset>(strings: MutableBinaryArray<O>) -> Result<BinaryArray<O>>
    ensures { OrOutOfMemory result (λ array. array ≡ strings) }
{
    strings.whole();
    let (data_type, offsets, values, validity) = strings.into_inner();
    let validity = frozen_mask(validity)?;
    let offsets = offsets.freeze()?;
    Ok(BinaryArray::new(data_type, offsets, Buffer::from_vec(values)?, validity))
}

/// Pushes a null, which stores no bytes.
///
/// # Errors
/// `Overflow`: there are as many slots as a column may have.
/// `OutOfMemory`: the null found no memory.
pub fn push_null_to_texts<O: Offset>(texts: &mut MutableUtf8Array<O>) -> Result<()>
    ensures { AddsByteNull texts.old texts.new result }
{
    if count_of(texts) >= MOST_SLOTS {
        return Err(Error::Overflow);
    }
    texts.push_null()
}

/// A builder without slots, of the data type of another.
fn no_texts<O: Offset>(alloc: Global, texts: &MutableUtf8Array<O>) -> Result<MutableUtf8Array<O>>
    ensures { OrOutOfMemory result (λ fresh. fresh ≡ byte_strings texts.now.data_type no_spans [] None) }
{
    texts.whole();
    let data_type = type_of(texts)?;
    let offsets = Offsets::new(alloc)?;
    MutableUtf8Array::try_new(data_type, offsets, Vec::new(alloc), None)
}

/// The slots of a builder, which is left empty.
#[tactic(auto, using(crate::proofs::ByteParts::new_left, crate::proofs::ByteParts::none_left))]
fn take_texts<O: Offset>(
    alloc: Global,
    texts: &mut MutableUtf8Array<O>,
) -> Result<MutableUtf8Array<O>>
    ensures left { LeavesNoBytes texts.old texts.new }
    ensures taken { OrOutOfMemory result (λ taken. taken ≡ texts.old) }
{
    match no_texts(alloc, texts) {
        Ok(fresh) => Ok(mem::replace(texts, fresh)),
        Err(error) => {
            texts.truncate(0);
            texts.set_validity(None);
            Err(error)
        }
    }
}

/// The values of a builder with offsets from 0 on.
#[tactic(auto, using(crate::proofs::ByteParts::copied, crate::proofs::ByteParts::copy_fault))]
fn copy_of_texts<O: Offset>(
    alloc: Global,
    texts: &MutableUtf8Array<O>,
) -> Result<MutableUtf8Array<O>>
    ensures { OrOutOfMemory result (λ copy. with_mask copy texts.now.validity ≡ from_zero texts.now) }
{
    let _start = start_of(texts);
    let mut copy = no_texts(alloc, texts)?;
    copy.try_extend_from_self(texts)?;
    Ok(copy)
}

/// Keeps the slots with offsets from 0 on, or changes nothing. Takes no memory where they are from 0 on.
///
/// # Errors
/// `OutOfMemory`: the copy of the bytes found no memory.
#[tactic(auto, using(crate::proofs::ByteParts::from_start, crate::proofs::ByteParts::same_count))]
pub fn rebase_texts<O: Offset>(texts: &mut MutableUtf8Array<O>) -> Result<()>
    ensures { Rebases texts.old texts.new result }
{
    if start_of(texts) == 0 {
        return Ok(());
    }
    let alloc = *texts.values().allocator();
    let copy = copy_of_texts(alloc, texts)?;
    let (_, _, _, validity) = mem::replace(texts, copy).into_data();
    texts.set_validity(validity);
    Ok(())
}

/// The array of the slots of a builder with offsets from 0 on; the builder is left empty.
///
/// # Errors
/// `OutOfMemory`: the array, or what is left, found no memory. The builder is left empty too.
pub fn take_text_array<O: Offset>(
    alloc: Global,
    texts: &mut MutableUtf8Array<O>,
) -> Result<Utf8Array<O>>
    ensures left { LeavesNoBytes texts.old texts.new }
    ensures taken { OrOutOfMemory result (λ array. array ≡ from_zero texts.old) }
{
    let mut taken = take_texts(alloc, texts)?;
    rebase_texts(&mut taken)?;
    array_of_texts(taken)
}

/// The array of the slots of a builder, with its mask as it is.
#[tactic(auto, using(crate::proofs::ByteParts::parts_fit))]
fn array_of_texts<O: Offset>(texts: MutableUtf8Array<O>) -> Result<Utf8Array<O>>
    ensures { OrOutOfMemory result (λ array. array ≡ texts) }
{
    texts.whole();
    let (data_type, offsets, values, validity) = texts.into_data();
    let validity = frozen_mask(validity)?;
    let offsets = offsets.freeze()?;
    Ok(Utf8Array::new(data_type, offsets, Buffer::from_vec(values)?, validity))
}
