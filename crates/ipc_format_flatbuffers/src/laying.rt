//! FlatBuffers' objects laid as bytes, one at a time (FlatBuffers, "Internals").
//!
//! The format leaves the order of objects and their padding to the writer: `specs/Laying.antt` has the one layout that is written.
//! An object is laid after what it refers to, and takes the bytes of that with it.
ghost use Rattle.std.specs.Prelude.{◌≡◌, ◌+◌, ◌*◌, ◌≤◌, ◌<◌, ◌^◌, ◌++◌, length, map, replicate, OnOk, IfOk};
ghost use Rattle.std.specs.List.{flat_map};
ghost use Rattle.std.specs.Int.{next_multiple_of};
ghost use Rattle.ipc_format_flatbuffers.specs.Laying as layout;
ghost use Rattle.ipc_format_flatbuffers.specs.Views.{slot_view, piece_view, Lays};
ghost use Rattle.ipc_format_flatbuffers.specs.declared.laying.LayError.TheVariants.{Memory};

use crate::pieces::Laid;
use std::alloc::{AllocError, AllocFailed, Global};

/// The most bytes of an object with everything that it refers to.
pub const MOST_BYTES: usize = 0x7fff_ffff;

const ZEROS: [u8; 8] = [0; 8];

/// A slot of a table that is to be laid. A signed number goes in by `cast_unsigned`, and a truth value as a byte.
#[derive(Clone, Copy, Debug)]
pub enum Slot<'a> {
    Absent,
    Byte(u8),
    Short(u16),
    Int(u32),
    Long(u64),
    Refers(&'a Laid),
}

/// Why an object could not be laid.
#[derive(Clone, Copy, Debug, PartialEq, Eq)]
pub enum LayError {
    /// Memory ran out.
    Memory,
    /// With everything that it refers to, the object has more than `MOST_BYTES` bytes.
    TooLong,
}

impl From<AllocError> for LayError {
    ghost from_gives = { λ _ e. e ≡ Memory };

    fn from(_e: AllocError) -> LayError {
        LayError::Memory
    }
}

impl<T: Drop> From<AllocFailed<T>> for LayError {
    ghost from_gives = { λ _ e. e ≡ Memory };

    fn from(_e: AllocFailed<T>) -> LayError {
        LayError::Memory
    }
}

/// Where a slot's field begins in its table, 0 if it is absent, where the fields before it end at `at`.
fn entry_of(at: usize, slot: &Slot<'_>) -> usize
    requires { at ≤ 256 }
    ensures { result ≡ layout.entry_of at (slot_view slot.now) }
{
    match slot {
        Slot::Absent => 0,
        Slot::Byte(_) => at,
        Slot::Short(_) => at.next_multiple_of(2),
        Slot::Int(_) | Slot::Refers(_) => at.next_multiple_of(4),
        Slot::Long(_) => at.next_multiple_of(8),
    }
}

/// Where the fields end with that slot.
fn after(at: usize, slot: &Slot<'_>) -> usize
    requires { at ≤ 256 }
    ensures value { result ≡ layout.after at (slot_view slot.now) }
    ensures near { result ≤ at + 15 }
{
    match slot {
        Slot::Absent => at,
        Slot::Byte(_) => at + 1,
        Slot::Short(_) => at.next_multiple_of(2) + 2,
        Slot::Int(_) | Slot::Refers(_) => at.next_multiple_of(4) + 4,
        Slot::Long(_) => at.next_multiple_of(8) + 8,
    }
}

/// Where the fields end with all slots.
fn end_of(slots: &[Slot<'_>]) -> usize
    requires { length slots.now ≤ 16 }
    ensures value { result ≡ layout.table_end 4 (map slot_view slots.now) }
    ensures near { result ≤ 244 }
{
    let mut at = 4;
    for slot in slots {
        at = after(at, slot);
    }
    at
}

/// How many bytes the objects have to which the slots refer.
fn children_len(slots: &[Slot<'_>]) -> usize
    requires { length slots.now ≤ 16 }
    ensures value { result ≡ length (flat_map layout.child_bytes (map slot_view slots.now)) }
    ensures small { result ≤ 16 * 2 ^ 31 }
{
    let mut len = 0;
    for slot in slots {
        len += child_len(slot);
    }
    len
}

/// How many bytes the object has to which a slot refers.
fn child_len(slot: &Slot<'_>) -> usize
    ensures value { result ≡ length (layout.child_bytes (slot_view slot.now)) }
    ensures small { result < 2 ^ 31 }
{
    match slot {
        Slot::Refers(child) => child.bytes.len(),
        Slot::Absent | Slot::Byte(_) | Slot::Short(_) | Slot::Int(_) | Slot::Long(_) => 0,
    }
}

/// Writes zeros, at most 8.
#[tactic(auto, using(crate::proofs::Numbers::few_zeros))]
fn put_zeros(out: &mut Vec<u8>, count: usize) -> Result<(), AllocError>
    requires { count ≤ 8 }
    ensures { OnOk result (out.new.items ≡ out.old.items ++ replicate count 0) }
{
    out.extend_from_slice(&ZEROS[..count])
}

/// Writes the vtable's entries.
fn put_entries(out: &mut Vec<u8>, slots: &[Slot<'_>]) -> Result<(), AllocError>
    requires { length slots.now ≤ 16 }
    ensures { OnOk result (out.new.items ≡ out.old.items ++ layout.entries 4 (map slot_view slots.now)) }
{
    let mut at = 4;
    for slot in slots {
        out.extend_from_slice(&(entry_of(at, slot) as u16).to_le_bytes())?;
        at = after(at, slot);
    }
    Ok(())
}

/// Writes the vtable of a table whose fields end at `end`.
fn put_vtable(out: &mut Vec<u8>, end: usize, slots: &[Slot<'_>]) -> Result<(), AllocError>
    requires few { length slots.now ≤ 16 }
    requires end { end ≡ layout.table_end 4 (map slot_view slots.now) }
    requires near { end ≤ 244 }
    ensures { OnOk result (out.new.items ≡ out.old.items ++ layout.vtable (map slot_view slots.now)) }
{
    let len = 4 + 2 * slots.len();
    out.extend_from_slice(&(len as u16).to_le_bytes())?;
    out.extend_from_slice(&(end as u16).to_le_bytes())?;
    put_entries(out, slots)?;
    put_zeros(out, len.next_multiple_of(8) - len)
}

/// Writes a slot's field and the zeros before it, where the fields before it end at `at` and the object that comes next in the table's
/// bytes begins at `child`.
fn put_field(out: &mut Vec<u8>, at: usize, child: usize, slot: &Slot<'_>) -> Result<(), AllocError>
    requires near { at ≤ 256 }
    requires before { layout.after at (slot_view slot.now) ≤ child }
    requires in_reach { child + length (layout.child_bytes (slot_view slot.now)) < 2 ^ 31 }
    ensures { OnOk result (out.new.items ≡ out.old.items ++ layout.field_bytes at child (slot_view slot.now)) }
{
    match slot {
        Slot::Absent => Ok(()),
        Slot::Byte(n) => out.extend_from_slice(&n.to_le_bytes()),
        Slot::Short(n) => {
            put_zeros(out, at.next_multiple_of(2) - at)?;
            out.extend_from_slice(&n.to_le_bytes())
        }
        Slot::Int(n) => {
            put_zeros(out, at.next_multiple_of(4) - at)?;
            out.extend_from_slice(&n.to_le_bytes())
        }
        Slot::Long(n) => {
            put_zeros(out, at.next_multiple_of(8) - at)?;
            out.extend_from_slice(&n.to_le_bytes())
        }
        Slot::Refers(laid) => {
            let start = at.next_multiple_of(4);
            put_zeros(out, start - at)?;
            out.extend_from_slice(&((child + laid.entry - start) as u32).to_le_bytes())
        }
    }
}

/// Writes the fields of all slots, where the first object that the table refers to begins at `first_child`.
fn put_fields(out: &mut Vec<u8>, first_child: usize, slots: &[Slot<'_>]) -> Result<(), AllocError>
    requires few { length slots.now ≤ 16 }
    requires before { layout.table_end 4 (map slot_view slots.now) ≤ first_child }
    requires in_reach { first_child + length (flat_map layout.child_bytes (map slot_view slots.now)) < 2 ^ 31 }
    ensures { OnOk result (out.new.items ≡ out.old.items ++ layout.fields 4 first_child (map slot_view slots.now)) }
{
    let mut at = 4;
    let mut child = first_child;
    for slot in slots {
        put_field(out, at, child, slot)?;
        at = after(at, slot);
        child += child_len(slot);
    }
    Ok(())
}

/// Writes a table whose fields end at `end`, behind its vtable.
fn put_table(
    out: &mut Vec<u8>,
    vtable_len: usize,
    end: usize,
    slots: &[Slot<'_>],
) -> Result<(), AllocError>
    requires few { length slots.now ≤ 16 }
    requires vtable { vtable_len ≡ length (layout.vtable (map slot_view slots.now)) }
    requires vtable_near { vtable_len ≤ 40 }
    requires end { end ≡ layout.table_end 4 (map slot_view slots.now) }
    requires near { end ≤ 244 }
    requires in_reach { next_multiple_of end 8 + length (flat_map layout.child_bytes (map slot_view slots.now)) < 2 ^ 31 }
    ensures { OnOk result (out.new.items ≡ out.old.items ++ layout.table_bytes (map slot_view slots.now)) }
{
    let table_len = end.next_multiple_of(8);
    out.extend_from_slice(&(vtable_len as u32).to_le_bytes())?;
    put_fields(out, table_len, slots)?;
    put_zeros(out, table_len - end)
}

/// Writes the object to which a slot refers.
fn put_child(out: &mut Vec<u8>, slot: &Slot<'_>) -> Result<(), AllocError>
    ensures { OnOk result (out.new.items ≡ out.old.items ++ layout.child_bytes (slot_view slot.now)) }
{
    match slot {
        Slot::Refers(child) => out.extend_from_slice(&child.bytes),
        Slot::Absent | Slot::Byte(_) | Slot::Short(_) | Slot::Int(_) | Slot::Long(_) => Ok(()),
    }
}

/// Writes the objects to which the slots refer.
fn put_children(out: &mut Vec<u8>, slots: &[Slot<'_>]) -> Result<(), AllocError>
    ensures { OnOk result (out.new.items ≡ out.old.items ++ flat_map layout.child_bytes (map slot_view slots.now)) }
{
    for slot in slots {
        put_child(out, slot)?;
    }
    Ok(())
}

/// A table, laid from its slots in order. Each slot has an entry in the vtable, also an absent one at the end.
#[tactic(auto, unfolding(crate::specs::Laying::table_piece))]
pub fn lay_table(alloc: Global, slots: &[Slot<'_>]) -> Result<Laid, LayError>
    requires { length slots.now ≤ 16 }
    ensures { Lays result (layout.table_piece (map slot_view slots.now)) }
{
    let end = end_of(slots);
    let vtable_len = (4 + 2 * slots.len()).next_multiple_of(8);
    let len = vtable_len + end.next_multiple_of(8) + children_len(slots);
    if len > MOST_BYTES {
        return Err(LayError::TooLong);
    }
    let mut bytes = Vec::with_capacity(alloc, len)?;
    put_vtable(&mut bytes, end, slots)?;
    put_table(&mut bytes, vtable_len, end, slots)?;
    put_children(&mut bytes, slots)?;
    Ok(Laid {
        bytes,
        entry: vtable_len,
    })
}

/// How many bytes the objects have.
fn pieces_len(pieces: &[Laid]) -> usize
    requires { length pieces.now ≤ 2 ^ 29 }
    ensures value { result ≡ length (flat_map (λ (piece : layout.Piece). piece.bytes) (map piece_view pieces.now)) }
    ensures small { result ≤ 2 ^ 60 }
{
    let mut len = 0;
    for piece in pieces {
        len += piece.bytes.len();
    }
    len
}

/// Writes the references of a vector to the objects that stand behind it from `first_child` on.
fn put_references(out: &mut Vec<u8>, first_child: usize, pieces: &[Laid]) -> Result<(), AllocError>
    requires before { 8 + 4 * length pieces.now ≤ first_child }
    requires in_reach { first_child + length (flat_map (λ (piece : layout.Piece). piece.bytes) (map piece_view pieces.now)) < 2 ^ 31 }
    ensures { OnOk result (out.new.items ≡ out.old.items ++ layout.reference_bytes 8 first_child (map piece_view pieces.now)) }
{
    let mut at = 8;
    let mut child = first_child;
    for piece in pieces {
        out.extend_from_slice(&((child + piece.entry - at) as u32).to_le_bytes())?;
        at += 4;
        child += piece.bytes.len();
    }
    Ok(())
}

/// Writes the objects.
fn put_pieces(out: &mut Vec<u8>, pieces: &[Laid]) -> Result<(), AllocError>
    ensures { OnOk result (out.new.items ≡ out.old.items ++ flat_map (λ (piece : layout.Piece). piece.bytes) (map piece_view pieces.now)) }
{
    for piece in pieces {
        out.extend_from_slice(&piece.bytes)?;
    }
    Ok(())
}

/// A vector of references, laid.
#[tactic(auto, unfolding(crate::specs::Laying::references_piece))]
pub fn lay_references(alloc: Global, pieces: &[Laid]) -> Result<Laid, LayError>
    ensures { Lays result (layout.references_piece (map piece_view pieces.now)) }
{
    if pieces.len() > MOST_BYTES / 4 {
        return Err(LayError::TooLong);
    }
    let own_len = 8 + 4 * pieces.len();
    let first_child = own_len.next_multiple_of(8);
    let len = first_child + pieces_len(pieces);
    if len > MOST_BYTES {
        return Err(LayError::TooLong);
    }
    let mut bytes = Vec::with_capacity(alloc, len)?;
    put_zeros(&mut bytes, 4)?;
    bytes.extend_from_slice(&(pieces.len() as u32).to_le_bytes())?;
    put_references(&mut bytes, first_child, pieces)?;
    put_zeros(&mut bytes, first_child - own_len)?;
    put_pieces(&mut bytes, pieces)?;
    Ok(Laid { bytes, entry: 4 })
}

/// A vector of `count` numbers or structs, laid from their bytes.
#[tactic(auto, unfolding(crate::specs::Laying::elements_piece))]
pub fn lay_elements(alloc: Global, count: u32, content: &[u8]) -> Result<Laid, LayError>
    ensures { Lays result (layout.elements_piece count content.now) }
{
    if content.len() > MOST_BYTES {
        return Err(LayError::TooLong);
    }
    let own_len = 8 + content.len();
    let len = own_len.next_multiple_of(8);
    if len > MOST_BYTES {
        return Err(LayError::TooLong);
    }
    let mut bytes = Vec::with_capacity(alloc, len)?;
    put_zeros(&mut bytes, 4)?;
    bytes.extend_from_slice(&count.to_le_bytes())?;
    bytes.extend_from_slice(content)?;
    put_zeros(&mut bytes, len - own_len)?;
    Ok(Laid { bytes, entry: 4 })
}

/// A string, laid from its bytes. That they are UTF-8 is the caller's care.
#[tactic(auto, unfolding(crate::specs::Laying::text_piece))]
pub fn lay_text(alloc: Global, text: &[u8]) -> Result<Laid, LayError>
    ensures { Lays result (layout.text_piece text.now) }
{
    if text.len() > MOST_BYTES {
        return Err(LayError::TooLong);
    }
    let own_len = 9 + text.len();
    let len = own_len.next_multiple_of(8);
    if len > MOST_BYTES {
        return Err(LayError::TooLong);
    }
    let mut bytes = Vec::with_capacity(alloc, len)?;
    put_zeros(&mut bytes, 4)?;
    bytes.extend_from_slice(&(text.len() as u32).to_le_bytes())?;
    bytes.extend_from_slice(text)?;
    put_zeros(&mut bytes, 1)?;
    put_zeros(&mut bytes, len - own_len)?;
    Ok(Laid { bytes, entry: 4 })
}

/// The message whose root is an object.
#[tactic(auto, unfolding(crate::specs::Laying::message_bytes))]
pub fn message_bytes(alloc: Global, root: &Laid) -> Result<Vec<u8>, AllocError>
    ensures { IfOk result (λ v. v.items ≡ layout.message_bytes (piece_view root.now)) }
{
    let mut bytes = Vec::with_capacity(alloc, 8 + root.bytes.len())?;
    bytes.extend_from_slice(&((8 + root.entry) as u32).to_le_bytes())?;
    put_zeros(&mut bytes, 4)?;
    bytes.extend_from_slice(&root.bytes)?;
    Ok(bytes)
}
