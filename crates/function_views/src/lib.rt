// The types of the function of a unit that was read: those of its parameters, those that it returns, and those of its other locals.
#![tactic(auto)]

ghost use Rattle.std.specs.Prelude.{◌≡◌};
ghost use Rattle.record_views.specs.Records.{ListIs};
ghost use Rattle.unit_tables.specs.Compiled.{compiled};
ghost use Rattle.function_views.specs.Named.{types_of, offset_of};

use signature_token::SignatureView;
use unit_tables::UnitView;

// A list of types of the function, each by the place of its signature's index in the function's record.
#[derive(Clone, Copy)]
pub enum FunctionTypes {
    Parameters = 1,
    Return = 3,
    Locals = 5,
}

impl FunctionTypes {
    // Where the signature's index stands, from the record's command on.
    fn offset(self) -> usize
        ensures { result ≡ offset_of self }
    {
        self as usize
    }
}

// The types of one of the function's lists.
#[tactic(auto, using(crate::specs::Named::named_laws))]
pub fn function_types<'a>(unit: &UnitView<'a, '_>, which: FunctionTypes) -> SignatureView<'a>
    ensures are { ListIs (types_of which (compiled unit.now).function) result }
    ensures in_unit { result.types.bytes.now ≡ unit.now.bytes.now }
{
    let signature = numbers::number_at(unit.bytes, unit.view.function + which.offset());
    let p = unit_tables::place(unit.index, unit.view.signatures, signature);
    record_views::signature_at(unit.bytes, p + 1)
}
