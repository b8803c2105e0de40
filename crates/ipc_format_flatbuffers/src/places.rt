//! Where tables and vectors stand in a message.
ghost use Rattle.std.specs.Prelude.{◌+◌, ◌<◌, ◌^◌};

/// A table: where it and its vtable stand, and how many bytes each of them has.
#[derive(Clone, Copy, Debug, PartialEq, Eq)]
pub struct Table {
    pub place: usize,
    pub vtable: usize,
    pub vtable_size: usize,
    pub table_size: usize,
    ghost vtable_in_memory: { vtable + vtable_size < 2 ^ 64 },
    ghost table_in_memory: { place + table_size < 2 ^ 64 },
}

/// A vector: where its first element stands, and how many there are.
#[derive(Clone, Copy, Debug, PartialEq, Eq)]
pub struct Vector {
    pub place: usize,
    pub count: usize,
}
