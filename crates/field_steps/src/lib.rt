// `borrow_field` of type_safety.rs, with a struct's type arguments or without. Where `&mut` is asked, an operand that is
// none is refused before the field handle is looked up; where either reference will do, a value is refused after it.
#![tactic(auto)]

ghost use Rattle.definitions.specs.TypeSafety as step;
ghost use Rattle.record_views.specs.Records.{TypesIn};
ghost use Rattle.std.specs.Prelude.{◌≤◌, length};
ghost use Rattle.signature_token.specs.Same.{Spans};
ghost use Rattle.type_stack.specs.Held.{Stacked};
ghost use Rattle.type_stack.specs.Stepping.{StepsTo};
ghost use Rattle.unit_tables.specs.Answers.{ResultIs};
ghost use Rattle.unit_tables.specs.Compiled.{compiled};
ghost use Rattle.field_steps.specs.Borrows.{BorrowedAt, FieldAt, BorrowsFrom, field_owner, OwnerIs};

use file_format::{FieldHandleIndex, FieldInstantiationIndex};
use record_views::{Fields, StructDef};
use signature_token::{SignatureView, TypeList, TypeRef};
use status::{PartialVMResult, StatusCode};
use type_tests::Referent;
use unit_tables::UnitView;

// A field handle's struct definition, and the field's number in it.
#[derive(Clone, Copy)]
struct Owner<'a> {
    def: StructDef<'a>,
    field: u16,
}

// Where the struct stands that the operand refers to, if it is a reference; where `&mut` is asked, anything else is refused.
fn borrowed_from(operand: TypeRef, mutable: bool) -> PartialVMResult<Option<usize>>
    ensures { BorrowedAt mutable operand.entry.bytes.now operand.entry.at result }
{
    match type_tests::referent_of(operand) {
        Referent::MutableReference(inner) => Ok(Some(inner)),
        _ if mutable => Err(StatusCode::BORROWFIELD_TYPE_MISMATCH_ERROR),
        Referent::Reference(inner) => Ok(Some(inner)),
        Referent::Value => Ok(None),
    }
}

// The field's type, as it is declared.
fn field_at(owner: Owner<'_>) -> PartialVMResult<TypeRef<'_>>
    ensures { FieldAt owner.entry result }
{
    let Fields::Declared(list) = owner.def.fields else {
        return Err(StatusCode::BORROWFIELD_BAD_FIELD_ERROR);
    };
    let k = usize::from(owner.field);
    let TypeList { bytes, at, count } = list.types;
    if count <= k {
        return Err(StatusCode::OUT_OF_TABLE);
    }
    let before = TypeList {
        bytes,
        at,
        count: k,
    };
    Ok(TypeRef {
        bytes,
        at: before.end(),
    })
}

// The rest of `borrow_field`, with the field's struct definition found: `at` and len are those of the struct, which is no `Entry`: it stands inside
// the operand's. start is the weight of the stack below the operand.
fn borrow_from(
    area: &mut [u8],
    start: usize,
    at: usize,
    len: usize,
    mutable: bool,
    owner: Owner,
    type_args: SignatureView,
) -> PartialVMResult<usize>
    requires stacked { Stacked area.old start × Spans area.old at len }
    requires short { length type_args.types.bytes.now ≤ 65535 }
    ensures { BorrowsFrom mutable owner.entry type_args.entry at len area.old start area.new result }
{
    if !made_types::struct_is(area, at, len, owner.def.handle, type_args) {
        return Err(StatusCode::BORROWFIELD_TYPE_MISMATCH_ERROR);
    }
    let field_def = field_at(owner)?;
    let mut places = [0u16; 255]; // no heap is used
    let args = type_places::placed(type_args.types, &mut places);
    made_types::push_field_reference(area, start, mutable, field_def, args)
}

// A field handle's struct definition.
#[tactic(auto, using(crate::specs::Owners::owner_laws))]
fn field_owner<'a>(unit: &UnitView<'a, '_>, idx: FieldHandleIndex) -> PartialVMResult<Owner<'a>>
    ensures { ResultIs OwnerIs (field_owner (compiled unit.now) idx.0) result }
{
    let handle = handle_views::field_handle_at(unit, idx)?;
    let def = unit_views::struct_def_at(unit, handle.owner)?;
    Ok(Owner {
        def,
        field: handle.field,
    })
}

// `borrow_field`.
#[tactic(auto, using(operand_steps::specs::Operands::operands))]
pub fn borrow_field(
    area: &mut [u8],
    weight: usize,
    unit: &UnitView<'_, '_>,
    mutable: bool,
    idx: FieldHandleIndex,
    type_args: SignatureView,
) -> PartialVMResult<usize>
    requires stacked { Stacked area.old weight }
    requires short { length type_args.types.bytes.now ≤ 65535 }
    ensures { (q : TypesIn type_args.entry) → StepsTo (step.borrow_field (compiled unit.now) mutable idx.0 q.types) area.old weight area.new result }
{
    let top = type_stack::pop(area, weight)?;
    let operand = TypeRef {
        bytes: area,
        at: top.start,
    };
    let referent = borrowed_from(operand, mutable)?;
    let owner = field_owner(unit, idx)?;
    let at = referent.ok_or(StatusCode::BORROWFIELD_TYPE_MISMATCH_ERROR)?;
    let len = top.len - 1;
    borrow_from(area, top.start, at, len, mutable, owner, type_args)
}

// `MutBorrowFieldGeneric`, `ImmBorrowFieldGeneric`: two look-ups, and the step. Its own function beside that of global_steps, since it looks up another
// record and goes on with another step: one function for both would take all of that as parameters.
#[tactic(auto, using(step_views::specs::Looked::looks, step_views::specs::Looked::types), unfolding(definitions::specs::TypeSafety::borrow_field_generic))]
pub fn borrow_field_generic(
    area: &mut [u8],
    weight: usize,
    unit: &UnitView<'_, '_>,
    mutable: bool,
    idx: FieldInstantiationIndex,
) -> PartialVMResult<usize>
    requires { Stacked area.old weight }
    ensures { StepsTo (step.borrow_field_generic (compiled unit.now) mutable idx.0) area.old weight area.new result }
{
    let inst = handle_views::field_instantiation_at(unit, idx)?;
    let type_args = unit_views::signature_at(unit, inst.type_parameters)?;
    borrow_field(area, weight, unit, mutable, inst.handle, type_args)
}
