// The reader of a unit. It fills an index with the place of each record of a table, each block and each instruction, so that no look-up scans
// a table. Bytes, index and the place of the next entry are parameters: the index is lent as `&mut`, of which a ghost field says nothing.
#![tactic(auto)]

ghost use Rattle.std.specs.Prelude.{◌≡◌, ℕ, ◌+◌, ◌≤◌, ◌<◌, length, get_or, replicate};
ghost use Rattle.definitions.specs.Commands.{commands_of, known};
ghost use Rattle.definitions.specs.Reader.{due, blocks_within, unit_under, read_unit};
ghost use Rattle.record_reader.specs.ReadTo.{read_to};
ghost use Rattle.unit.specs.Outline.{joined, record_places, table_places, in_listing, unit_listing};
ghost use Rattle.unit.specs.Filled.{head_of, Room, FilledBy, table_of, RowsBy, listing_of, judged_of, CodeAnswered, BlocksAt};
ghost use Rattle.unit.specs.Views.{Ordered, table_at, view_from, answer_of, Indexed};

use record_reader::{ReadError, byte_at};
use status::StatusCode;

#[derive(Clone, Copy)]
pub enum Head {
    Module,
    Script,
}

// A table's entries in the index: the places of its records. By number, and no slice, since the view outlives the loan of the index to the reader.
#[derive(Clone, Copy)]
pub struct Table {
    pub base: u16,
    pub count: u16,
}

// How many records there are, and the next byte.
#[derive(Clone, Copy)]
struct Records {
    count: usize,
    next: usize,
}

// How many blocks there are, and how many instructions.
#[derive(Clone, Copy)]
struct Listing {
    blocks: usize,
    code: usize,
}

// Where the entries of each table begin in the index, and behind the last where they end.
#[derive(Clone, Copy)]
struct Bases {
    at: [usize; 10],
    ghost ordered: { Ordered at },
}

// What is known of a unit that was read: for each table, for the blocks and for the code the entries in the index, and the place of the
// function's record.
#[derive(Clone, Copy)]
pub struct View {
    pub head: Head,
    pub struct_handles: Table,
    pub signatures: Table,
    pub function_handles: Table,
    pub function_instantiations: Table,
    pub struct_defs: Table,
    pub struct_instantiations: Table,
    pub field_handles: Table,
    pub field_instantiations: Table,
    pub constants: Table,
    pub function: usize,
    pub blocks: Table,
    pub code: Table,
}

// Whether a command opens a record under this head.
#[tactic(auto, using(crate::proofs::Known::known_told))]
fn is_known(head: Head, command: u8) -> bool
    ensures { result ≡ known (commands_of (head_of head)) command }
{
    match command {
        0x10..=0x13 | 0x18..=0x1B => true,
        0x14..=0x17 => matches!(head, Head::Module),
        _ => false,
    }
}

// The records of one command, whose bodies `read_body` reads by it: the commands are the numbers of document 01, over which `read_tables` counts. The place
// of each goes into the index, from base on. Each begins where the one before it ends, so that no range names the places.
fn read_table(
    s: &[u8],
    from: usize,
    head: Head,
    command: u8,
    index: &mut [u16],
    base: usize,
) -> Result<Records, ReadError>
    requires { Room s.now from base index.old }
    ensures value { result ≡ table_of (record_places (commands_of (head_of head)) command s.now from) }
    ensures filled_by { FilledBy (λ ps. ps) s.now base index.old (record_places (commands_of (head_of head)) command s.now from) index.new }
{
    let mut at = from;
    let mut n = 0;
    if !is_known(head, command) {
        return Ok(Records { count: n, next: at });
    }
    while at < s.len() && s[at] == command {
        let next = record_reader::read_body(s, at + 1, command)?;
        index[base + n] = at as u16; // fits, which is proved: `TryFrom` would ask at run time
        at = next;
        n += 1;
    }
    Ok(Records { count: n, next: at })
}

// The tables before the function, of the commands 10 to 18, from the byte after the head on. Where the entries of each begin goes to
// `bases`, and behind the last where they end: an array, since tables handed up by value took some 50 ns more for each unit. The index is lent whole
// with a base, since its entries are numbered through all tables.
fn read_tables(
    s: &[u8],
    head: Head,
    index: &mut [u16],
    bases: &mut [usize; 10],
) -> Result<usize, ReadError>
    requires room { Room s.now 1 0 index.old }
    requires bases_value { bases.old ≡ replicate 10 0 }
    ensures value { result ≡ read_to (table_places (commands_of (head_of head)) s.now 1) }
    ensures filled_by { FilledBy joined s.now 0 index.old (table_places (commands_of (head_of head)) s.now 1) index.new }
    ensures rows_by { RowsBy (table_places (commands_of (head_of head)) s.now 1) bases.new }
{
    let mut at = 1usize;
    let mut base = 0usize;
    for i in 0..9usize {
        let table = read_table(s, at, head, 0x10 + i as u8, index, base)?; // fits, which is proved
        base += table.count;
        bases[i + 1] = base;
        at = table.next;
    }
    Ok(at)
}

// The command that is due.
#[tactic(auto, using(crate::proofs::Due::due_told))]
fn read_due(s: &[u8], at: usize, head: Head, command: u8) -> Result<usize, ReadError>
    ensures { result ≡ read_to (due (commands_of (head_of head)) command s.now at) }
{
    let byte = byte_at(s, at)?;
    if !is_known(head, byte) {
        return Err(ReadError {
            status: StatusCode::COMMAND,
            at: at,
        });
    }
    if byte != command {
        return Err(ReadError {
            status: StatusCode::ORDER,
            at: at,
        });
    }
    Ok(at + 1)
}

// The code: a count, and as many instructions. The place of each goes into the index, from base on.
fn read_code(s: &[u8], from: usize, index: &mut [u16], base: usize) -> Result<Records, ReadError>
    requires { Room s.now from base index.old }
    ensures { CodeAnswered s.now from base index.old index.new result }
{
    let mut at = record_reader::skip_bytes(s, from, 2)?;
    let count = numbers::number_at(s, from);
    let widths = instruction_reader::operand_widths();
    for n in 0..count {
        let next = instruction_reader::read_instruction(s, at, &widths)?;
        index[base + n] = at as u16; // fits, which is proved: `TryFrom` would ask at run time
        at = next;
    }
    Ok(Records {
        count: count,
        next: at,
    })
}

// Whether the instructions of each block, whose places these are, are among so many.
fn check_blocks(s: &[u8], places: &[u16], code: usize) -> Result<(), ReadError>
    requires { BlocksAt s.now places.now }
    ensures { (b : BlocksAt s.now places.now) (at : ℕ) → result ≡ judged_of (blocks_within code b.blocks s.now at) }
{
    for place in places {
        let p = usize::from(*place);
        let first = numbers::number_at(s, p + 1);
        let last = numbers::number_at(s, p + 3);
        if last < first || code <= last {
            return Err(ReadError {
                status: StatusCode::BLOCK,
                at: p,
            });
        }
    }
    Ok(())
}

// What stands after the function: blocks and code, up to the unit's end.
fn read_listing(
    s: &[u8],
    from: usize,
    head: Head,
    index: &mut [u16],
    base: usize,
) -> Result<Listing, ReadError>
    requires { Room s.now from base index.old }
    ensures value { result ≡ listing_of (unit_listing (commands_of (head_of head)) s.now from) }
    ensures filled_by { FilledBy in_listing s.now base index.old (unit_listing (commands_of (head_of head)) s.now from) index.new }
{
    let blocks = read_table(s, from, head, 0x1A, index, base)?;
    let at_code = read_due(s, blocks.next, head, 0x1B)?;
    let code = read_code(s, at_code, index, base + blocks.count)?;
    if code.next != s.len() {
        return Err(ReadError {
            status: StatusCode::TRAILING,
            at: code.next,
        });
    }
    check_blocks(s, &index[base..base + blocks.count], code.count)?;
    Ok(Listing {
        blocks: blocks.count,
        code: code.count,
    })
}

// So many entries from base on. Both fit, which is proved.
fn entries(base: usize, count: usize) -> Table
    requires { base + count ≤ 32768 }
    ensures { result ≡ record { base = base; count = count } }
{
    Table {
        base: base as u16,
        count: count as u16,
    }
}

impl Bases {
    // The entries of table i: up to where those of the next begin.
    fn table(&self, i: usize) -> Table
        requires { i < 9 }
        ensures { result ≡ table_at self.now.at i }
    {
        let base = self.at[i];
        entries(base, self.at[i + 1] - base)
    }

    // What is known of a unit whose tables begin there.
    fn view(&self, head: Head, function: usize, blocks: usize, code: usize) -> View
        requires { get_or self.now.at 9 0 + blocks + code ≤ 32768 }
        ensures { result ≡ view_from head self.now.at function blocks code }
    {
        let last = self.at[9];
        View {
            head: head,
            struct_handles: self.table(0),
            signatures: self.table(1),
            function_handles: self.table(2),
            function_instantiations: self.table(3),
            struct_defs: self.table(4),
            struct_instantiations: self.table(5),
            field_handles: self.table(6),
            field_instantiations: self.table(7),
            constants: self.table(8),
            function: function,
            blocks: entries(last, blocks),
            code: entries(last + blocks, code),
        }
    }
}

// A unit after its head.
fn read_under(s: &[u8], head: Head, index: &mut [u16]) -> Result<View, ReadError>
    requires { Room s.now 1 0 index.old }
    ensures value { result ≡ answer_of (unit_under (head_of head) s.now 1) }
    ensures indexed { Indexed (unit_under (head_of head) s.now 1) index.new }
{
    let mut at = [0usize; 10];
    let function = read_tables(s, head, index, &mut at)?;
    let bases = Bases { at: at };
    let body = read_due(s, function, head, 0x19)?;
    let signatures = usize::from(bases.table(1).count);
    let end = record_reader::read_function(s, body, signatures)?;
    let listing = read_listing(s, end, head, index, bases.at[9])?;
    Ok(bases.view(head, function, listing.blocks, listing.code))
}

// A whole unit. Where it is read, the index has the place of each record of a table, each block and each instruction, and the view that of the
// function.
pub fn read(s: &[u8], index: &mut [u16]) -> Result<View, ReadError>
    requires { length s.now ≤ 32768 → length s.now ≤ length index.old }
    ensures value { result ≡ answer_of (read_unit s.now) }
    ensures indexed { Indexed (read_unit s.now) index.new }
{
    if 32768 < s.len() {
        return Err(ReadError {
            status: StatusCode::TOO_LONG,
            at: 0,
        });
    }
    match byte_at(s, 0)? {
        0x01 => read_under(s, Head::Module, index),
        0x02 => read_under(s, Head::Script, index),
        _ => Err(ReadError {
            status: StatusCode::COMMAND,
            at: 0,
        }),
    }
}
