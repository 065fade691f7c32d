//! Laws of the definitions of lowering (`descriptor.proto`). They do nothing when they run.

ghost use Rattle.std.specs.Prelude.{◌≡◌, ◌++◌, ◌∷◌, [], ℕ, List, Some, flat_map, length, map, slice_get};
ghost use Rattle.std.specs.List.Sorted.{IsStrictlyIncreasing};
ghost use Rattle.proto_tree.specs.declared.message.Message.{Message};
ghost use Rattle.proto_tree.specs.declared.oneof.Oneof.{Oneof};
ghost use Rattle.proto_tree.specs.declared.option.Setting.{Setting};
ghost use Rattle.proto_desc.specs.declared.field.FieldDesc.{FieldDesc};
ghost use Rattle.proto_desc.specs.declared.rules.Element.{Element};
ghost use Rattle.proto_options.specs.Statements.{oneof_field};
ghost use Rattle.proto_lower.specs.Fields.{member_at};
ghost use Rattle.proto_lower.specs.Laws.{source_oneofs, fields_of, oneofs_of, fields_in, IsOptionalBehind, index_behind, names_before};
ghost use Rattle.proto_lower.specs.Messages.{lowered_message};
ghost use Rattle.proto_lower.specs.Oneofs.{real_named, made_named};
ghost use Rattle.proto_lower.specs.Options.{options_of};

/// A oneof of the source has the same index in the lowered message, where its members, and no other fields, have that index.
pub fn oneof_index_is_its_own()
    ensures oneof { (scope : List ℕ) (m : Message) (index : ℕ) (o : Oneof)
        → slice_get (source_oneofs m) index ≡ Some o
        → slice_get (oneofs_of (lowered_message scope m)) index ≡ Some (real_named o.name) }
    ensures members { (scope : List ℕ) (m : Message) (index : ℕ) (o : Oneof)
        → slice_get (source_oneofs m) index ≡ Some o
        → fields_in index (fields_of (lowered_message scope m))
        ≡ map (member_at index) (flat_map oneof_field o.items) }
{}

/// An `optional` field is the sole member of a oneof at the field's place, with a name that is made of the field's. It comes
/// behind all oneofs of the source and those of earlier `optional` fields. There are no further oneofs.
pub fn optional_field_has_its_oneof()
    ensures index { (scope : List ℕ) (m : Message) (before : List FieldDesc) (field : FieldDesc)
        → IsOptionalBehind before field (lowered_message scope m)
        → field.oneof_index ≡ Some (index_behind before m) }
    ensures sole { (scope : List ℕ) (m : Message) (before : List FieldDesc) (field : FieldDesc)
        → IsOptionalBehind before field (lowered_message scope m)
        → fields_in (index_behind before m) (fields_of (lowered_message scope m)) ≡ field ∷ [] }
    ensures oneof { (scope : List ℕ) (m : Message) (before : List FieldDesc) (field : FieldDesc)
        → IsOptionalBehind before field (lowered_message scope m)
        → slice_get (oneofs_of (lowered_message scope m)) (index_behind before m)
        ≡ Some (made_named (names_before (index_behind before m) (lowered_message scope m)) field) }
    ensures count { (scope : List ℕ) (m : Message)
        → length (oneofs_of (lowered_message scope m))
        ≡ index_behind (fields_of (lowered_message scope m)) m }
{}

/// The options of an element rise strictly by their number, so that no number occurs twice.
pub fn options_rise()
    ensures rise { (element : Element) (settings : List Setting)
        → IsStrictlyIncreasing (map (λ o. o.number) (options_of element settings)) }
{}
