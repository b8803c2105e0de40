//! Hashes of cells: what is the same hashes alike.
ghost use Rattle.std.specs.Prelude.{◌≡◌, map};
ghost use Rattle.nested_arrays_builder_values.specs.Hashes.{cell_hash, mixed, mixed_all};

use nested_arrays_scalars::AnyScalar;

/// What a number is spread with.
const SPREAD: usize = 1_099_511_628_211;

/// A hash with one more number.
fn mix(hash: usize, number: usize) -> usize
    ensures { result ≡ mixed hash number }
{
    hash.wrapping_add(number).wrapping_mul(SPREAD)
}

/// The hash of some bytes.
pub fn hash_of_bytes(bytes: &[u8]) -> usize
    ensures { result ≡ mixed_all 0 bytes.now }
{
    let mut hash = 0;
    for byte in bytes {
        hash = mix(hash, usize::from(*byte));
    }
    hash
}

/// The hash of a cell.
// match table: an arm for each cell.
#[cycle(hashing)]
pub fn hash_of(cell: &AnyScalar) -> usize
    ensures { result ≡ cell_hash cell.now }
{
    match cell {
        AnyScalar::Null => 0,
        AnyScalar::Boolean(value) => usize::from(*value),
        AnyScalar::Int8(value) => value.unsigned_abs() as usize,
        AnyScalar::Int16(value) => value.unsigned_abs() as usize,
        AnyScalar::Int32(value) => value.unsigned_abs() as usize,
        AnyScalar::Int64(value) => value.unsigned_abs() as usize,
        AnyScalar::Int128(value) => (value.unsigned_abs() % (1 << 64)) as usize,
        AnyScalar::Int256(_) => 0,
        AnyScalar::UInt8(value) => *value as usize,
        AnyScalar::UInt16(value) => *value as usize,
        AnyScalar::UInt32(value) => *value as usize,
        AnyScalar::UInt64(value) => *value as usize,
        AnyScalar::DaysMs(value) => mix(
            value.0.unsigned_abs() as usize,
            value.1.unsigned_abs() as usize,
        ),
        AnyScalar::MonthsDaysNs(value) => mix(
            value.1.unsigned_abs() as usize,
            value.2.unsigned_abs() as usize,
        ),
        AnyScalar::Text(text) => hash_of_bytes(text.as_str().as_bytes()),
        AnyScalar::Bytes(bytes) => hash_of_bytes(bytes.as_slice()),
        AnyScalar::List(cells) => hash_of_each(1, cells.as_slice()),
        AnyScalar::Record(cells) => hash_of_each(2, cells.as_slice()),
    }
}

/// A hash with those of some cells.
#[cycle(hashing)]
fn hash_of_each(first: usize, cells: &[AnyScalar]) -> usize
    ensures { result ≡ mixed_all first (map cell_hash cells.now) }
{
    let mut hash = first;
    for cell in cells {
        hash = mix(hash, hash_of(cell));
    }
    hash
}
