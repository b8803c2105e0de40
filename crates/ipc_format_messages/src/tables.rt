//! Tables of a message, by address (FlatBuffers, "Internals").
ghost use Rattle.std.specs.Prelude.{◌≡◌, ◌↔◌, IsTrue, ◌+◌, ◌*◌, ◌≤◌, length, pos, IfOk, IfSome};
ghost use Rattle.std.specs.Option.{option_map, option_copied};
ghost use Rattle.std.specs.Result.{result_ok};
ghost use Rattle.std.specs.Int.{w8, w16, w32, w64};
ghost use Rattle.ipc_format_metadata.specs.flatbuffers.FlatBuffers as format;
ghost use Rattle.ipc_format_metadata.specs.flatbuffers.Views.{table_of, vector_of};
ghost use Rattle.ipc_format_messages.specs.MessageSlots as slots;
ghost use Rattle.ipc_format_messages.specs.MessageViews.{table_view};
ghost use Rattle.ipc_format_messages.specs.SchemaSlots as schema_slots;
ghost use Rattle.ipc_format_messages.specs.SchemaRefs.{tables_view};

use crate::vectors::TablesRef;
use ipc_format_metadata::Error;
use ipc_format_metadata::flatbuffers::{
    Table, Vector, element_at, i16_field, i32_field, i64_field, root_of, string_field, table_field,
    truth_field, u8_field, vector_field,
};
use ipc_format_metadata::sizes::REFERENCE_SIZE;

/// A table of a message, with the message's bytes.
#[derive(Clone, Copy, Debug)]
pub struct TableRef<'a> {
    pub bytes: &'a [u8],
    pub place: Table,
}

impl<'a> TableRef<'a> {
    /// The root of a message.
    ///
    /// # Errors
    /// - `InvalidFlatbuffer`: no table stands at the root's place.
    pub fn read_as_root(bytes: &'a [u8]) -> Result<TableRef<'a>, Error>
        ensures { option_map table_view (result_ok result) ≡ slots.root_in bytes.now }
    {
        match root_of(bytes) {
            Some(place) => Ok(TableRef { bytes, place }),
            None => Err(Error::InvalidFlatbuffer),
        }
    }

    /// The byte of a slot, 0 where it is absent.
    ///
    /// # Errors
    /// - `InvalidFlatbuffer`: the slot breaks a rule of FlatBuffers.
    pub fn byte(&self, slot: u8) -> Result<u8, Error>
        ensures { result_ok result ≡ format.number_field w8 self.now.bytes.now (table_of self.now.place) slot 0 }
    {
        u8_field(self.bytes, &self.place, slot, 0).ok_or(Error::InvalidFlatbuffer)
    }

    /// The signed number of two bytes of a slot, 0 where it is absent.
    ///
    /// # Errors
    /// - `InvalidFlatbuffer`: the slot breaks a rule of FlatBuffers.
    pub fn short(&self, slot: u8) -> Result<i16, Error>
        ensures { result_ok result ≡ format.signed_field w16 self.now.bytes.now (table_of self.now.place) slot (pos 0) }
    {
        i16_field(self.bytes, &self.place, slot, 0).ok_or(Error::InvalidFlatbuffer)
    }

    /// The signed number of four bytes of a slot, 0 where it is absent.
    ///
    /// # Errors
    /// - `InvalidFlatbuffer`: the slot breaks a rule of FlatBuffers.
    pub fn int(&self, slot: u8) -> Result<i32, Error>
        ensures { result_ok result ≡ format.signed_field w32 self.now.bytes.now (table_of self.now.place) slot (pos 0) }
    {
        i32_field(self.bytes, &self.place, slot, 0).ok_or(Error::InvalidFlatbuffer)
    }

    /// The signed number of eight bytes of a slot, 0 where it is absent.
    ///
    /// # Errors
    /// - `InvalidFlatbuffer`: the slot breaks a rule of FlatBuffers.
    pub fn long(&self, slot: u8) -> Result<i64, Error>
        ensures { result_ok result ≡ format.signed_field w64 self.now.bytes.now (table_of self.now.place) slot (pos 0) }
    {
        i64_field(self.bytes, &self.place, slot, 0).ok_or(Error::InvalidFlatbuffer)
    }

    /// The truth value of a slot, false where it is absent.
    ///
    /// # Errors
    /// - `InvalidFlatbuffer`: the slot breaks a rule of FlatBuffers.
    pub fn truth(&self, slot: u8) -> Result<bool, Error>
        ensures { result_ok result ≡ format.truth_field self.now.bytes.now (table_of self.now.place) slot }
    {
        truth_field(self.bytes, &self.place, slot).ok_or(Error::InvalidFlatbuffer)
    }

    /// The text to which a slot refers, if it is present.
    ///
    /// # Errors
    /// - `InvalidFlatbuffer`: the slot breaks a rule of FlatBuffers, or the text does not stand in the message or is not UTF-8.
    pub fn text(&self, slot: u8) -> Result<Option<&'a str>, Error>
        ensures { option_map option_copied (result_ok result) ≡ schema_slots.text_in (table_view self.now) slot }
    {
        string_field(self.bytes, &self.place, slot).ok_or(Error::InvalidFlatbuffer)
    }

    /// The table to which a slot refers, if it is present.
    ///
    /// # Errors
    /// - `InvalidFlatbuffer`: the slot breaks a rule of FlatBuffers, or refers to no table.
    pub fn table(&self, slot: u8) -> Result<Option<TableRef<'a>>, Error>
        ensures { option_map (option_map table_view) (result_ok result) ≡ slots.table_in (table_view self.now) slot }
    {
        match table_field(self.bytes, &self.place, slot) {
            Some(Some(place)) => Ok(Some(TableRef {
                bytes: self.bytes,
                place,
            })),
            Some(None) => Ok(None),
            None => Err(Error::InvalidFlatbuffer),
        }
    }

    /// Where the vector of a slot stands, with elements of `width` bytes, if it is present.
    ///
    /// # Errors
    /// - `InvalidFlatbuffer`: the slot breaks a rule of FlatBuffers, or the vector does not stand in the message.
    pub fn vector(&self, slot: u8, width: u8) -> Result<Option<Vector>, Error>
        ensures value { option_map (option_map vector_of) (result_ok result)
            ≡ format.vector_field self.now.bytes.now (table_of self.now.place) slot width }
        ensures inside { IfOk result (λ found. IfSome found (λ v. v.place + v.count * width ≤ length self.now.bytes.now)) }
    {
        vector_field(self.bytes, &self.place, slot, width).ok_or(Error::InvalidFlatbuffer)
    }

    /// The vector of tables of a slot, if it is present.
    ///
    /// # Errors
    /// - `InvalidFlatbuffer`: the slot breaks a rule of FlatBuffers, or the vector does not stand in the message.
    pub fn tables(&self, slot: u8) -> Result<Option<TablesRef<'a>>, Error>
        ensures { option_map (option_map tables_view) (result_ok result) ≡ slots.vector_in (table_view self.now) slot 4 }
    {
        let Some(vector) = self.vector(slot, REFERENCE_SIZE)? else {
            return Ok(None);
        };
        Ok(Some(TablesRef {
            bytes: self.bytes,
            vector,
        }))
    }
}

impl<'a> TablesRef<'a> {
    /// How many tables there are.
    pub fn len(&self) -> usize
        ensures { result ≡ self.now.vector.count }
    {
        self.vector.count
    }

    /// Whether there are no tables.
    pub fn is_empty(&self) -> bool
        ensures { IsTrue result ↔ (self.now.vector.count ≡ 0) }
    {
        self.vector.count == 0
    }

    /// Table `k`, where there are so many.
    ///
    /// # Errors
    /// - `InvalidFlatbuffer`: no table stands where the reference points.
    #[tactic(auto, unfolding(crate::specs::SchemaSlots::element_in))]
    pub fn get(&self, k: usize) -> Result<Option<TableRef<'a>>, Error>
        ensures { option_map (option_map table_view) (result_ok result) ≡ schema_slots.element_in (tables_view self.now) k }
    {
        if k >= self.vector.count {
            return Ok(None);
        }
        match element_at(self.bytes, &self.vector, k) {
            Some(place) => Ok(Some(TableRef {
                bytes: self.bytes,
                place,
            })),
            None => Err(Error::InvalidFlatbuffer),
        }
    }
}
