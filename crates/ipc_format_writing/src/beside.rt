//! Dictionary ids beside fields, one field after another.
ghost use Rattle.std.specs.Prelude.{◌≡◌, ◌↔◌, IsTrue, []};
ghost use Rattle.ipc_format_messages.specs.grammar.Schemas.{ids};
ghost use Rattle.ipc_format_messages.specs.grammar.Columns.{first_ids, other_ids};
ghost use Rattle.ipc_format_messages.specs.metadata.Views.{ids_views};

use ipc_format_messages::metadata::IpcField;

/// The ids at the first of some fields, and at the others.
#[derive(Clone, Copy, Debug)]
pub struct Beside<'a> {
    /// The id of the field's own dictionary.
    pub own: Option<i64>,
    /// Those at the fields below it.
    pub below: &'a [IpcField],
    pub others: &'a [IpcField],
}

/// A field without ids beside it has none.
pub fn first_beside(beside: &[IpcField]) -> Beside<'_>
    ensures first { ids result.own (ids_views result.below.now) ≡ first_ids (ids_views beside.now) }
    ensures others { ids_views result.others.now ≡ other_ids (ids_views beside.now) }
{
    match beside.split_first() {
        Some((first, others)) => Beside {
            own: first.dictionary_id,
            below: first.fields.as_slice(),
            others,
        },
        None => Beside {
            own: None,
            below: beside,
            others: beside,
        },
    }
}
