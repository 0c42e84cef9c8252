// Look-ups in a unit that was read. Beside binary_views.rs: a table that a script lacks is INVALID_OPERATION_IN_SCRIPT, an index past a table
// OUT_OF_TABLE. Here are those of types and of struct definitions; handle_views has those of records of two numbers, ability_views those of abilities.
#![tactic(auto)]

ghost use Rattle.std.specs.Prelude.{◌≡◌, [], IfOk};
ghost use Rattle.definitions.specs.CompiledUnit as defs;
ghost use Rattle.record_views.specs.Records.{ListIs, DefIs, FieldsIn};
ghost use Rattle.unit_tables.specs.Compiled.{compiled};
ghost use Rattle.unit_tables.specs.Answers.{ResultIs};
ghost use Rattle.unit_views.specs.Lookups.{TypeOf};

use file_format::{ConstantPoolIndex, SignatureIndex, StructDefinitionIndex};
use record_views::StructDef;
use signature_token::{SignatureView, TypeList, TypeRef};
use status::{PartialVMResult, StatusCode};
use unit_tables::UnitView;

// No types: what an instruction that is not generic has in place of type arguments.
#[tactic(auto, using(crate::specs::Lookups::nothing_stands))]
pub fn no_types<'a>(unit: &UnitView<'a, '_>) -> SignatureView<'a>
    ensures are { ListIs [] result }
    ensures in_unit { result.types.bytes.now ≡ unit.now.bytes.now }
{
    SignatureView {
        types: TypeList {
            bytes: unit.bytes,
            at: 0,
            count: 0,
        },
    }
}

// The types of a signature.
#[tactic(auto, using(crate::specs::Lookups::signature_lookup))]
pub fn signature_at<'a>(
    unit: &UnitView<'a, '_>,
    idx: SignatureIndex,
) -> PartialVMResult<SignatureView<'a>>
    ensures value { ResultIs ListIs (defs.signature_at (compiled unit.now) idx.0) result }
    ensures in_unit { IfOk result (λ list. list.types.bytes.now ≡ unit.now.bytes.now) }
{
    let p = unit.look_up(unit.view.signatures, idx.0)?;
    Ok(record_views::signature_at(unit.bytes, p + 1))
}

// `signature_at(idx).0[0]`: the element type that a vector instruction names.
#[tactic(auto, using(crate::specs::Lookups::element_lookup))]
pub fn element_type_at<'a>(
    unit: &UnitView<'a, '_>,
    idx: SignatureIndex,
) -> PartialVMResult<TypeRef<'a>>
    ensures value { ResultIs TypeOf (defs.element_type_at (compiled unit.now) idx.0) result }
    ensures in_unit { IfOk result (λ ty. ty.bytes.now ≡ unit.now.bytes.now) }
{
    let types = signature_at(unit, idx)?.types;
    if types.count == 0 {
        return Err(StatusCode::OUT_OF_TABLE);
    }
    Ok(TypeRef {
        bytes: types.bytes,
        at: types.at,
    })
}

// A constant's type.
#[tactic(auto, using(crate::specs::Lookups::constant_lookup))]
pub fn constant_at<'a>(
    unit: &UnitView<'a, '_>,
    idx: ConstantPoolIndex,
) -> PartialVMResult<TypeRef<'a>>
    ensures value { ResultIs TypeOf (defs.constant_at (compiled unit.now) idx.0) result }
    ensures in_unit { IfOk result (λ ty. ty.bytes.now ≡ unit.now.bytes.now) }
{
    let p = unit.look_up(unit.view.constants, idx.0)?;
    Ok(TypeRef {
        bytes: unit.bytes,
        at: p + 1,
    })
}

// A struct definition, which a script has none of.
#[tactic(auto, using(crate::specs::Lookups::def_lookup))]
pub fn struct_def_at<'a>(
    unit: &UnitView<'a, '_>,
    idx: StructDefinitionIndex,
) -> PartialVMResult<StructDef<'a>>
    ensures value { ResultIs DefIs (defs.struct_def_at (compiled unit.now) idx.0) result }
    ensures in_unit { IfOk result (λ def. FieldsIn unit.now.bytes.now def.fields) }
{
    unit.in_module()?;
    let p = unit.look_up(unit.view.struct_defs, idx.0)?;
    Ok(record_views::struct_def_at(unit.bytes, p))
}
