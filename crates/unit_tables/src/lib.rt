// A unit that was read, as the look-ups take it, and its tables: where record i of one stands, by the index. Look-ups by number go through it, but
// that of a struct handle for its abilities, which is lent its table's part of the index.
#![tactic(auto)]

ghost use Rattle.std.specs.Prelude.{◌≡◌, ℕ, ◌<◌, get_or, IfOk, MatchResult};
ghost use Rattle.definitions.specs.Reader.{read_unit};
ghost use Rattle.unit_tables.specs.ReadAs.{ReadAs, ReadAs-prop};
ghost use Rattle.unit_tables.specs.Tables.{Fits, EntryIs, PastIs};

use status::{PartialVMResult, StatusCode};
use unit::{Head, Table, View};

// A unit that was read, beside `BinaryIndexedView` of binary_views.rs: its bytes, and where its records and instructions stand in them. The bytes are lent
// for a time of their own: what a look-up finds stands in them, and may be kept when the index is filled anew. Look-ups are functions over the view, not
// methods, since each crate has its own and a type's methods stand with it.
#[derive(Clone, Copy)]
pub struct UnitView<'a, 'i> {
    pub bytes: &'a [u8],
    pub index: &'i [u16],
    pub view: View,
    // Each is a byte. A function that is lent the struct knows that only from here.
    pub ghost small: { (i : ℕ) → get_or bytes.now i 0 < 256 },
    // The bytes were read as a unit, of which these are the view and the index.
    pub ghost read: { ReadAs (read_unit bytes.now) index.now view } by { ReadAs-prop view-code (read_unit bytes.now) index.now view },
}

// Where record i of a table stands, by the index. No method of a unit that was read: it asks of the index alone.
pub fn place(index: &[u16], table: Table, i: usize) -> usize
    requires fits { Fits index.now table }
    requires i_lt_count { i < table.count }
    ensures value { EntryIs index.now table i result }
    ensures bound { result < 65536 }
{
    usize::from(index[usize::from(table.base) + i])
}

impl UnitView<'_, '_> {
    ghost use Rattle.unit_tables.specs.Compiled.{compiled, module_only};

    // Where record i of a table stands, if the table has so many.
    pub fn look_up(&self, table: Table, i: u16) -> PartialVMResult<usize>
        requires { Fits self.now.index.now table }
        ensures value { MatchResult result (EntryIs self.now.index.now table i) (PastIs table i) }
        ensures bound { IfOk result (λ p. p < 65536) }
    {
        if table.count <= i {
            return Err(StatusCode::OUT_OF_TABLE);
        }
        Ok(place(self.index, table, usize::from(i)))
    }

    // Asks that the unit has the tables that a script lacks.
    #[tactic(auto, using(crate::specs::Compiled::module_head, crate::specs::Compiled::script_head))]
    pub fn in_module(&self) -> PartialVMResult<()>
        ensures { result ≡ module_only (compiled self.now).head }
    {
        match self.view.head {
            Head::Module => Ok(()),
            Head::Script => Err(StatusCode::INVALID_OPERATION_IN_SCRIPT),
        }
    }
}
