use columnar_memory_types::{Error, Result};

/// What has a name by which it is asked for.
pub trait Named: Copy {
    /// Its name.
    fn name(&self) -> &'static str;
}

/// The one of a name.
///
/// # Errors
/// `InvalidArgumentError`: none has this name.
pub fn choice_named<N: Named>(choices: &[N], name: &str) -> Result<N> {
    for choice in choices {
        if choice.name() == name {
            return Ok(*choice);
        }
    }
    Err(Error::InvalidArgumentError("a name of no group or job"))
}
