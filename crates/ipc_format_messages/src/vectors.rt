//! Where vectors of structs, of numbers and of tables stand in a message.
ghost use Rattle.std.specs.Prelude.{◌+◌, ◌*◌, ◌≤◌, length};

use ipc_format_metadata::flatbuffers::Vector;

/// The nodes of a record batch, in pre-order of its columns.
#[derive(Clone, Copy, Debug)]
pub struct FieldNodesRef<'a> {
    pub bytes: &'a [u8],
    pub vector: Vector,
    pub ghost inside: { vector.place + vector.count * 16 ≤ length bytes.now },
}

/// The buffers of a record batch, in pre-order of its columns.
#[derive(Clone, Copy, Debug)]
pub struct BuffersRef<'a> {
    pub bytes: &'a [u8],
    pub vector: Vector,
    pub ghost inside: { vector.place + vector.count * 16 ≤ length bytes.now },
}

/// The blocks of a footer.
#[derive(Clone, Copy, Debug)]
pub struct BlocksRef<'a> {
    pub bytes: &'a [u8],
    pub vector: Vector,
    pub ghost inside: { vector.place + vector.count * 24 ≤ length bytes.now },
}

/// A vector of signed numbers of four bytes.
#[derive(Clone, Copy, Debug)]
pub struct NumbersRef<'a> {
    pub bytes: &'a [u8],
    pub vector: Vector,
    pub ghost inside: { vector.place + vector.count * 4 ≤ length bytes.now },
}

/// A vector of tables, by references to them.
#[derive(Clone, Copy, Debug)]
pub struct TablesRef<'a> {
    pub bytes: &'a [u8],
    pub vector: Vector,
    pub ghost inside: { vector.place + vector.count * 4 ≤ length bytes.now },
}
