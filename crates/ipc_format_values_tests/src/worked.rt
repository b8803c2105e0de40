//! Worked values: the prover computes the definitions themselves.
ghost use Rattle.std.specs.Prelude.{◌≡◌, [], ◌∷◌, Some, true, false, codes};
ghost use Rattle.ipc_format.specs.columnar_memory.declared.DataType.TheVariants as types;
ghost use Rattle.ipc_format.specs.flatbuffers.Objects.{laid};
ghost use Rattle.ipc_format.specs.grammar.Messages.{V4, V5};
ghost use Rattle.ipc_format.specs.grammar.Schemas.{no_ids, extension_name_key, extension_metadata_key};
ghost use Rattle.ipc_format.specs.grammar.SchemaObjects.{schema_message, written_pairs};
ghost use Rattle.ipc_format.specs.grammar.Writable.{is_writable, normalised};
ghost use Rattle.ipc_format.specs.grammar.Layouts.{node_count, buffer_count};
ghost use Rattle.ipc_format_values_tests.specs.Examples.{number_x, schema_x, x_int32, d_dictionary, id_0, x_extension, x_metadata, d_metadata};
ghost use Rattle.ipc_format_values_tests.specs.Examples.{x_extension_metadata, union_of, one_union, in_lists};

/// The metadata of three schema messages, byte by byte.
#[tactic(auto, using(crate::proofs::SchemaMessages::metadata_bytes))]
fn schema_messages()
    ensures number { laid (schema_message x_int32 no_ids) ≡ x_metadata }
    ensures dictionary { laid (schema_message d_dictionary id_0) ≡ d_metadata }
    ensures extension { laid (schema_message x_extension no_ids) ≡ x_extension_metadata }
{}

/// The pairs of an extension as they are written, and its keys dropped where the type is none.
#[tactic(auto, using(crate::proofs::WritableSchemas::pairs_of_extension, crate::proofs::WritableSchemas::normalised_x))]
fn extensions()
    ensures pairs { written_pairs (Some (codes "e", Some (codes "m"))) ((codes "a", codes "1") ∷ [])
        ≡ (extension_metadata_key, codes "m") ∷ (extension_name_key, codes "e") ∷ (codes "a", codes "1") ∷ [] }
    ensures normalised { normalised (record x_int32 { fields = record number_x { metadata = (extension_metadata_key, codes "m") ∷ [] } ∷ [] })
        ≡ x_int32 }
{}

/// Nodes and buffers of a sparse union, with a validity bitmap more before V5, of a fixed-size list and of a struct.
#[tactic(auto, using(crate::proofs::NodesAndBuffers::counts))]
fn nodes_and_buffers()
    ensures union_nodes { node_count one_union ≡ 2 }
    ensures union_buffers { buffer_count V5 one_union ≡ 3 }
    ensures older_union_buffers { buffer_count V4 one_union ≡ 4 }
    ensures list_nodes { node_count (types.FixedSizeList number_x 4) ≡ 2 }
    ensures list_buffers { buffer_count V5 (types.FixedSizeList number_x 4) ≡ 3 }
    ensures struct_nodes { node_count (types.Struct (number_x ∷ number_x ∷ [])) ≡ 3 }
    ensures struct_buffers { buffer_count V5 (types.Struct (number_x ∷ number_x ∷ [])) ≡ 5 }
{}

/// Which schemas are written: fields nest at most 64 deep, a struct has a field, a union's ids are distinct.
#[tactic(auto, using(crate::proofs::WritableSchemas::writable))]
fn writable_schemas()
    ensures deep { is_writable (schema_x (in_lists 63)) ≡ true }
    ensures too_deep { is_writable (schema_x (in_lists 64)) ≡ false }
    ensures no_field { is_writable (schema_x (types.Struct [])) ≡ false }
    ensures distinct { is_writable (schema_x (union_of 5 7)) ≡ true }
    ensures repeated { is_writable (schema_x (union_of 5 5)) ≡ false }
{}

#[test]
fn worked_values() {
    schema_messages();
    extensions();
    nodes_and_buffers();
    writable_schemas();
}
