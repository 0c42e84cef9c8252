// Types that an instruction makes, and that stand nowhere yet: a struct with its type arguments, a reference to one, and a reference to a
// field's type with its parameters replaced. Each is measured first, and then written into the free end of the area. A struct's handle and its
// arguments are two parameters, as those of the Rust's `materialize_type`.
#![tactic(auto)]

ghost use Rattle.std.specs.Prelude.{◌≤◌, length};
ghost use Rattle.signature_token.specs.Same.{Spans};
ghost use Rattle.type_stack.specs.Held.{Stacked};
ghost use Rattle.made_types.specs.Made.{StructIs, PushesStruct, PushesStructReference, PushesFieldReference};

use file_format::StructHandleIndex;
use materialize_type::MaterializedType;
use signature_token::{SignatureView, TypeRef};
use status::{PartialVMResult, StatusCode};
use type_places::TypePlaces;

// Whether the type of len bytes at `at` of the area is the struct with these type arguments. By place and length, and no `Entry`: it may stand inside an
// operand, as that of a field's borrow does.
pub fn struct_is(
    area: &[u8],
    at: usize,
    len: usize,
    h: StructHandleIndex,
    type_args: SignatureView,
) -> bool
    requires { Spans area.now at len }
    ensures { StructIs area.now at len h.0 type_args.entry result }
{
    MaterializedType::new(h, type_args).is_at(area, at, len)
}

// Pushes the struct with these type arguments.
#[tactic(auto, using(materialize_type::proofs::Materialize::made_short))]
pub fn push_struct(
    area: &mut [u8],
    weight: usize,
    h: StructHandleIndex,
    type_args: SignatureView,
) -> PartialVMResult<usize>
    requires stacked { Stacked area.old weight }
    requires short { length type_args.types.bytes.now ≤ 65535 }
    ensures { PushesStruct h.0 type_args.entry area.old weight area.new result }
{
    let made = MaterializedType::new(h, type_args);
    let len = made.size();
    if area.len() - weight < len + 2 {
        return Err(StatusCode::NO_ROOM);
    }
    made.write_to(&mut area[weight..]);
    Ok(type_pushes::seal(area, weight, len))
}

// Pushes a reference to the struct with these type arguments: as `push_struct`, behind a command. One function for both would take the bytes in front as
// a slice, empty for a struct, and copy it, where a command is one store and a struct has none.
#[tactic(auto, using(materialize_type::proofs::Materialize::made_short))]
pub fn push_struct_reference(
    area: &mut [u8],
    weight: usize,
    mutable: bool,
    h: StructHandleIndex,
    type_args: SignatureView,
) -> PartialVMResult<usize>
    requires stacked { Stacked area.old weight }
    requires short { length type_args.types.bytes.now ≤ 65535 }
    ensures { PushesStructReference mutable h.0 type_args.entry area.old weight area.new result }
{
    let made = MaterializedType::new(h, type_args);
    let len = made.size() + 1;
    let command = type_pushes::reference_command(mutable);
    if area.len() - weight < len + 2 {
        return Err(StatusCode::NO_ROOM);
    }
    type_pushes::put_command(area, weight, command);
    made.write_to(&mut area[weight + 1..]);
    Ok(type_pushes::seal(area, weight, len))
}

// Pushes a reference to the type, its parameters replaced.
#[tactic(auto, using(crate::specs::Pushes::field_laws))]
pub fn push_field_reference(
    area: &mut [u8],
    weight: usize,
    mutable: bool,
    ty: TypeRef,
    args: TypePlaces,
) -> PartialVMResult<usize>
    requires { Stacked area.old weight }
    ensures { PushesFieldReference mutable ty.entry.bytes.now ty.entry.at args.entry.bytes.now args.entry.places.now area.old weight area.new result }
{
    let len = substitution::instantiated_size(ty, args)?.len + 1;
    let command = type_pushes::reference_command(mutable);
    if area.len() - weight < len + 2 {
        return Err(StatusCode::NO_ROOM);
    }
    type_pushes::put_command(area, weight, command);
    substitution_writer::instantiate_into(&mut area[weight + 1..], ty, args);
    Ok(type_pushes::seal(area, weight, len))
}
