//! Arrays of byte strings and of texts that their builders take over.
ghost use Rattle.std.specs.Prelude.{◌≡◌};
ghost use Rattle.flat_arrays_byte_values_builders.specs.columnar_memory.Results.{OrOutOfMemory};
ghost use Rattle.either.specs.Either.{MatchEither};
ghost use Rattle.flat_arrays_byte_values_builders.specs.Growing.{trimmed};

use crate::{MutableBinaryArray, MutableUtf8Array};
use either::Either;
use flat_arrays_byte_values_builders::ByteBuilder;
use flat_arrays_byte_values_builders::bytes::{BinaryArray, Utf8Array};
use flat_arrays_byte_values_builders::columnar_memory::{
    Bitmap, Buffer, MutableBitmap, Offset, Offsets, OffsetsBuffer, Result,
};
use flat_arrays_byte_values_builders::values::IntoMut;
use flat_arrays_byte_values_builders::values::marks::{freeze_mask, mask_into_mut};

/// Offsets, bytes and a mask, as an array shares them.
type SharedParts<O> = (OffsetsBuffer<O>, Buffer<u8>, Option<Bitmap>);

/// The same, to change.
type OwnParts<O> = (Offsets<O>, Vec<u8>, Option<MutableBitmap>);

/// The parts of an array to change them, on the right, where it is the one owner of each and shows it from its beginning on; else as they
/// were, on the left.
///
/// # Errors
/// `OutOfMemory`: it owns one part alone and shares another, and the count of owners found no memory.
fn own_parts<O: Offset>(
    offsets: OffsetsBuffer<O>,
    values: Buffer<u8>,
    validity: Option<Bitmap>,
) -> Result<Either<SharedParts<O>, OwnParts<O>>>
    ensures { OrOutOfMemory result (λ side. MatchEither side
        (λ parts. (parts.0 ≡ offsets) × (parts.1 ≡ values) × (parts.2 ≡ validity))
        (λ parts. (parts.0 ≡ offsets) × (parts.1.items ≡ values) × (parts.2 ≡ validity))) }
{
    let validity = match mask_into_mut(validity) {
        Either::Left(validity) => return Ok(Either::Left((offsets, values, validity))),
        Either::Right(validity) => validity,
    };
    let values = match values.into_mut() {
        Either::Left(values) => {
            return Ok(Either::Left((offsets, values, freeze_mask(validity)?)));
        }
        Either::Right(values) => values,
    };
    match offsets.into_mut() {
        Either::Left(offsets) => {
            Ok(Either::Left((offsets, Buffer::from_vec(values)?, freeze_mask(validity)?)))
        }
        Either::Right(offsets) => Ok(Either::Right((offsets, values, validity))),
    }
}

/// The builder has the slots of the array, and no bytes behind the last of them.
impl<O: Offset> IntoMut<MutableBinaryArray<O>> for BinaryArray<O> {
    ghost builds = { λ array builder. builder ≡ trimmed array };

    fn into_mut(self) -> Result<Either<BinaryArray<O>, MutableBinaryArray<O>>> {
        let (data_type, offsets, values, validity) = self.into_inner();
        match own_parts(offsets, values, validity)? {
            Either::Left((offsets, values, validity)) => {
                Ok(Either::Left(BinaryArray::new(data_type, offsets, values, validity)))
            }
            Either::Right((offsets, values, validity)) => {
                let builder = ByteBuilder::new(data_type, offsets, values, validity);
                Ok(Either::Right(MutableBinaryArray { builder }))
            }
        }
    }
}

/// The builder has the slots of the array, and no bytes behind the last of them.
impl<O: Offset> IntoMut<MutableUtf8Array<O>> for Utf8Array<O> {
    ghost builds = { λ array builder. builder ≡ trimmed array };

    #[tactic(auto, using(crate::proofs::Taken::texts_kept))]
    fn into_mut(self) -> Result<Either<Utf8Array<O>, MutableUtf8Array<O>>> {
        let (data_type, offsets, values, validity) = self.into_inner();
        match own_parts(offsets, values, validity)? {
            Either::Left((offsets, values, validity)) => {
                Ok(Either::Left(Utf8Array::new(data_type, offsets, values, validity)))
            }
            Either::Right((offsets, values, validity)) => {
                let builder = ByteBuilder::new(data_type, offsets, values, validity);
                Ok(Either::Right(MutableUtf8Array { builder }))
            }
        }
    }
}
