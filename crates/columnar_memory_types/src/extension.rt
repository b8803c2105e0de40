ghost use Rattle.std.specs.Prelude.{◌≡◌, None, Some, MatchOption};
ghost use Rattle.std.specs.Option.{option_copied};
ghost use Rattle.columnar_memory_types.specs.Pairs.{value_at};

use crate::{Metadata, Text};

/// The key under which the metadata of a field names its extension type.
pub const EXTENSION_NAME: &str = "ARROW:extension:name";

/// The key of what else the metadata of a field says of its extension type.
pub const EXTENSION_METADATA: &str = "ARROW:extension:metadata";

/// The name of the extension type that a field's metadata gives it, if any, and what else is said of
/// that type.
pub fn get_extension(metadata: &Metadata) -> Option<(&Text, Option<&Text>)>
    ensures none { MatchOption result
        (value_at EXTENSION_NAME.now metadata.now ≡ None)
        (λ x. value_at EXTENSION_NAME.now metadata.now ≡ Some x.0.now) }
    ensures more { MatchOption result
        (value_at EXTENSION_NAME.now metadata.now ≡ None)
        (λ x. value_at EXTENSION_METADATA.now metadata.now ≡ option_copied x.1) }
{
    let name = metadata.get_str(EXTENSION_NAME)?;
    Some((name, metadata.get_str(EXTENSION_METADATA)))
}
