//! Laws of the one form that a schema has in a file or stream.
ghost use Rattle.ipc_format_laws.specs.NormalForm.{KeepsNormal, KeepsValid, KeepsWritable};

/// The normal form of a valid schema is its own normal form.
#[tactic(auto, using(crate::proofs::NormalForms::keeps_normal))]
pub fn a_normal_form_is_its_own()
    ensures { KeepsNormal }
{}

/// The normal form of a valid schema is valid.
#[tactic(auto, using(crate::proofs::NormalForms::keeps_valid))]
pub fn a_normal_form_is_valid()
    ensures { KeepsValid }
{}

/// A schema is written exactly where its normal form is.
#[tactic(auto, using(crate::proofs::NormalForms::keeps_writable))]
pub fn a_normal_form_is_written_where_the_schema_is()
    ensures { KeepsWritable }
{}
