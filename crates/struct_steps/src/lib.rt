// `pack` and `unpack` of type_safety.rs: every field is instantiated before one is compared or pushed. `looked` is what the
// instruction's look-up answered, of a struct that is not generic or of a generic one: the refusal, where it was refused. It is tested here, once, and
// not by each of the two callers that a step has.
#![tactic(auto)]

ghost use Rattle.std.specs.Prelude.{◌≤◌, length, IfOk};
ghost use Rattle.definitions.specs.TypeSafety as step;
ghost use Rattle.type_stack.specs.Held.{Stacked};
ghost use Rattle.type_stack.specs.Stepping.{StepsTo};
ghost use Rattle.step_views.specs.Looked.{Looked, FewBytes};
ghost use Rattle.struct_steps.specs.Fields.{PacksFields, UnpacksFields};

use file_format::StructHandleIndex;
use record_views::Fields;
use signature_token::SignatureView;
use status::{PartialVMResult, StatusCode};
use step_views::StructWith;

// Pops the fields, and pushes the struct of them.
fn pack_fields(
    area: &mut [u8],
    weight: usize,
    h: StructHandleIndex,
    fields: SignatureView,
    type_args: SignatureView,
) -> PartialVMResult<usize>
    requires stacked { Stacked area.old weight }
    requires short { (length fields.types.bytes.now ≤ 65535) × (length type_args.types.bytes.now ≤ 65535) }
    ensures { PacksFields h.0 fields.entry type_args.entry area.old weight area.new result }
{
    let mut places = [0u16; 255]; // no heap is used
    let args = type_places::placed(type_args.types, &mut places);
    list_steps::instantiates_each(fields, args)?;
    let mismatch = StatusCode::PACK_TYPE_MISMATCH_ERROR;
    let below = list_steps::pop_each(area, weight, fields, &args, mismatch)?;
    made_types::push_struct(area, below, h, type_args)
}

// `Pack`, `PackGeneric`.
pub fn pack(
    area: &mut [u8],
    weight: usize,
    looked: PartialVMResult<StructWith<'_>>,
) -> PartialVMResult<usize>
    requires stacked { Stacked area.old weight }
    requires short { IfOk looked FewBytes }
    ensures { (q : Looked looked.entry) → StepsTo (step.pack q.result) area.old weight area.new result }
{
    let found = looked?;
    match found.def.fields {
        Fields::Native => Err(StatusCode::PACK_TYPE_MISMATCH_ERROR),
        Fields::Declared(list) => {
            pack_fields(area, weight, found.def.handle, list, found.type_args)
        }
    }
}

// Pushes the fields.
fn unpack_fields(
    area: &mut [u8],
    weight: usize,
    fields: SignatureView,
    type_args: SignatureView,
) -> PartialVMResult<usize>
    requires stacked { Stacked area.old weight }
    requires short { length type_args.types.bytes.now ≤ 65535 }
    ensures { UnpacksFields fields.entry type_args.entry area.old weight area.new result }
{
    let mut places = [0u16; 255]; // no heap is used
    let args = type_places::placed(type_args.types, &mut places);
    list_steps::instantiates_each(fields, args)?;
    let pushed = list_steps::push_each(area, weight, fields, args);
    type_stack::rebuilt(pushed)
}

// `Unpack`, `UnpackGeneric`.
pub fn unpack(
    area: &mut [u8],
    weight: usize,
    looked: PartialVMResult<StructWith<'_>>,
) -> PartialVMResult<usize>
    requires stacked { Stacked area.old weight }
    requires short { IfOk looked FewBytes }
    ensures { (q : Looked looked.entry) → StepsTo (step.unpack q.result) area.old weight area.new result }
{
    let found = looked?;
    let h = found.def.handle;
    let top = type_stack::pop(area, weight)?;
    if !made_types::struct_is(area, top.start, top.len, h, found.type_args) {
        return Err(StatusCode::UNPACK_TYPE_MISMATCH_ERROR);
    }
    match found.def.fields {
        Fields::Native => Err(StatusCode::PACK_TYPE_MISMATCH_ERROR),
        Fields::Declared(list) => unpack_fields(area, top.start, list, found.type_args),
    }
}
