//! How many slots stand in some arrays, which bounds how many pairs of slots are compared.
ghost use Rattle.std.specs.Prelude.{◌≡◌, [], ◌∷◌, None, pos, sum_by};
ghost use Rattle.nested_arrays_nulls.specs.columnar_memory.declared.DataType.{DataType};
ghost use Rattle.nested_arrays_nulls.specs.columnar_memory.declared.PrimitiveType.TheVariants as kinds;
ghost use Rattle.nested_arrays_nulls.specs.columns.SlotNodes.{slot_nodes};
ghost use Rattle.nested_arrays_nulls.specs.columns.StoredColumns.{flat, lists, numbers, slots};

/// The lists of 1 and 2, of nothing and of 3 have six slots at every depth.
pub fn lists_of_three_have_six_slots()
    ensures { (own item : DataType) → sum_by slot_nodes (slots (lists own None (0 ∷ 2 ∷ 2 ∷ 3 ∷ [])
        (flat item None (numbers kinds.Int32 (pos 1 ∷ pos 2 ∷ pos 3 ∷ []))))) ≡ 6 }
{}
