// Look-ups of the records that are two numbers: handles of functions and of fields, and instantiations. Beside binary_views.rs: a table that a
// script lacks is INVALID_OPERATION_IN_SCRIPT, an index past a table OUT_OF_TABLE.
#![tactic(auto)]

ghost use Rattle.std.specs.Prelude.{◌≡◌, MatchResult};
ghost use Rattle.definitions.specs.CompiledUnit as defs;
ghost use Rattle.unit_tables.specs.Answers.{told};
ghost use Rattle.unit_tables.specs.Compiled.{compiled};
ghost use Rattle.unit_tables.specs.Tables.{PastIs};
ghost use Rattle.handle_views.specs.Pairs.{PairsFit, PairIs, ModulePairIs, IsRefusedAs};
ghost use Rattle.handle_views.specs.Answers.{handle_of, instantiation_of, struct_instantiation_of, field_handle_of, field_instantiation_of};

use file_format::{
    FieldHandleIndex, FieldInstantiationIndex, FunctionHandleIndex, FunctionInstantiationIndex,
    SignatureIndex, StructDefInstantiationIndex, StructDefinitionIndex,
};
use numbers::u16_at;
use status::PartialVMResult;
use unit::Table;
use unit_tables::UnitView;

#[derive(Clone, Copy)]
pub struct FunctionHandle {
    pub parameters: SignatureIndex,
    pub return_: SignatureIndex,
}

// The Rust's own types, one for each kind of instantiation, so that they are not exchanged.
#[derive(Clone, Copy)]
pub struct FunctionInstantiation {
    pub handle: FunctionHandleIndex,
    pub type_parameters: SignatureIndex,
}

#[derive(Clone, Copy)]
pub struct StructDefInstantiation {
    pub def: StructDefinitionIndex,
    pub type_parameters: SignatureIndex,
}

#[derive(Clone, Copy)]
pub struct FieldHandle {
    pub owner: StructDefinitionIndex,
    pub field: u16,
}

#[derive(Clone, Copy)]
pub struct FieldInstantiation {
    pub handle: FieldHandleIndex,
    pub type_parameters: SignatureIndex,
}

// The two numbers of record i of a table. The five look-ups below differ in the table, in what the numbers are, and in whether a script has it: one
// function for them would take all three as parameters.
#[tactic(auto, using(crate::specs::Pairs::pair_laws))]
fn pair_at(unit: &UnitView<'_, '_>, table: Table, i: u16) -> PartialVMResult<(u16, u16)>
    requires { PairsFit unit.now.bytes.now unit.now.index.now table }
    ensures { MatchResult result (PairIs unit.now.bytes.now unit.now.index.now table i) (PastIs table i) }
{
    let p = unit.look_up(table, i)?;
    Ok((u16_at(unit.bytes, p + 1), u16_at(unit.bytes, p + 3)))
}

// The same of a table that a script lacks.
#[tactic(auto, using(crate::specs::Pairs::module_laws))]
fn module_pair_at(unit: &UnitView<'_, '_>, table: Table, i: u16) -> PartialVMResult<(u16, u16)>
    requires { PairsFit unit.now.bytes.now unit.now.index.now table }
    ensures { MatchResult result (ModulePairIs unit.now table i) (IsRefusedAs unit.now table i) }
{
    unit.in_module()?;
    pair_at(unit, table, i)
}

// A function handle.
#[tactic(auto, using(crate::specs::Lookups::function_handle_laws))]
pub fn function_handle_at(
    unit: &UnitView<'_, '_>,
    idx: FunctionHandleIndex,
) -> PartialVMResult<FunctionHandle>
    ensures { told handle_of result ≡ defs.function_handle_at (compiled unit.now) idx.0 }
{
    let (parameters, return_) = pair_at(unit, unit.view.function_handles, idx.0)?;
    Ok(FunctionHandle {
        parameters: SignatureIndex(parameters),
        return_: SignatureIndex(return_),
    })
}

// A function handle with its type arguments' signature.
#[tactic(auto, using(crate::specs::Lookups::function_instantiation_laws))]
pub fn function_instantiation_at(
    unit: &UnitView<'_, '_>,
    idx: FunctionInstantiationIndex,
) -> PartialVMResult<FunctionInstantiation>
    ensures { told instantiation_of result ≡ defs.function_instantiation_at (compiled unit.now) idx.0 }
{
    let (handle, type_parameters) = pair_at(unit, unit.view.function_instantiations, idx.0)?;
    Ok(FunctionInstantiation {
        handle: FunctionHandleIndex(handle),
        type_parameters: SignatureIndex(type_parameters),
    })
}

// A struct definition with its type arguments' signature.
#[tactic(auto, using(crate::specs::Lookups::struct_instantiation_laws))]
pub fn struct_instantiation_at(
    unit: &UnitView<'_, '_>,
    idx: StructDefInstantiationIndex,
) -> PartialVMResult<StructDefInstantiation>
    ensures { told struct_instantiation_of result ≡ defs.struct_instantiation_at (compiled unit.now) idx.0 }
{
    let (def, type_parameters) = module_pair_at(unit, unit.view.struct_instantiations, idx.0)?;
    Ok(StructDefInstantiation {
        def: StructDefinitionIndex(def),
        type_parameters: SignatureIndex(type_parameters),
    })
}

// A field of a struct definition.
#[tactic(auto, using(crate::specs::Lookups::field_handle_laws))]
pub fn field_handle_at(
    unit: &UnitView<'_, '_>,
    idx: FieldHandleIndex,
) -> PartialVMResult<FieldHandle>
    ensures { told field_handle_of result ≡ defs.field_handle_at (compiled unit.now) idx.0 }
{
    let (owner, field) = module_pair_at(unit, unit.view.field_handles, idx.0)?;
    Ok(FieldHandle {
        owner: StructDefinitionIndex(owner),
        field,
    })
}

// A field handle with its type arguments' signature.
#[tactic(auto, using(crate::specs::Lookups::field_instantiation_laws))]
pub fn field_instantiation_at(
    unit: &UnitView<'_, '_>,
    idx: FieldInstantiationIndex,
) -> PartialVMResult<FieldInstantiation>
    ensures { told field_instantiation_of result ≡ defs.field_instantiation_at (compiled unit.now) idx.0 }
{
    let (handle, type_parameters) = module_pair_at(unit, unit.view.field_instantiations, idx.0)?;
    Ok(FieldInstantiation {
        handle: FieldHandleIndex(handle),
        type_parameters: SignatureIndex(type_parameters),
    })
}
