// The kinds of module, and the table of what a module of each kind may have. Definitions of tests and cases, which many tables are said with, stand here too.
#![tactic(auto)]

ghost use Rattle.std.specs.Prelude.{◌≡◌, ◌<◌, ◌&&◌, leb};
ghost use Rattle.kinds.specs.Table.{in_table, sources_with, last_head_of, most_fill_of, most_covered_of};

// A module: its station, its kind, its register count and its width in stations.
#[derive(Clone, Copy)]
pub struct Module {
    pub n: u32,
    pub kind: u32,
    pub r: u32,
    pub wide: u32,
}

// The kinds that the code names; 0 is an empty station, 2 an output register. A kind is a number and no enum: a crate line and a word of the lent memory may
// hold any number there, and the definitions speak of numbers.
pub const SCALER: u32 = 1;

pub const INPUT_REGISTER: u32 = 3;

pub const BUFFER_MEMORY: u32 = 4;

pub const UP_DOWN_COUNTER: u32 = 5;

// What a module of a kind may have: the least and the most r, the last head, the most fill, the least and the most width, and the most cover.
struct Row {
    least: u32,
    most: u32,
    last_head: u32,
    most_fill: u32,
    least_width: u32,
    most_width: u32,
    most_covered: u32,
}

impl Row {
    // Whether such a module may have r registers and this width.
    fn allows(&self, r: u32, wide: u32) -> bool
        ensures { result ≡ (leb self.now.least r && leb r self.now.most && leb self.now.least_width wide && leb wide self.now.most_width) }
    {
        (self.least..=self.most).contains(&r)
            && (self.least_width..=self.most_width).contains(&wide)
    }
}

// The row of kinds 1, 2, 3 and 5, whose modules have up to 16 registers and no head.
const PLAIN: Row = Row {
    least: 1,
    most: 16,
    last_head: 0,
    most_fill: 0,
    least_width: 1,
    most_width: 2,
    most_covered: 0,
};

// The table: a row for each kind, from 0 on.
const TABLE: [Row; 6] = [
    Row {
        least: 0,
        most: 0,
        last_head: 0,
        most_fill: 0,
        least_width: 0,
        most_width: 0,
        most_covered: 1,
    },
    PLAIN,
    PLAIN,
    PLAIN,
    Row {
        most: 1,
        last_head: 15,
        most_fill: 16,
        ..PLAIN
    },
    PLAIN,
];

// A kind of the table, with r registers and a width as it may have.
#[tactic(auto, unfolding(crate::specs::Table::in_table))]
pub fn in_table(kind: u32, r: u32, wide: u32) -> bool
    ensures { result ≡ in_table kind r wide }
{
    TABLE
        .get(kind as usize)
        .is_some_and(|row| row.allows(r, wide))
}

// How many LAM sources a module of this kind with r registers has.
pub fn sources(kind: u32, r: u32) -> u32
    ensures { result ≡ sources_with kind r }
{
    match kind {
        SCALER | INPUT_REGISTER | UP_DOWN_COUNTER => r,
        BUFFER_MEMORY => 2,
        _ => 0,
    }
}

// The last head of a kind of the table.
pub fn last_head(kind: u32) -> u32
    requires { kind < 6 }
    ensures { result ≡ last_head_of kind }
{
    TABLE[kind as usize].last_head
}

// The most fill of a kind of the table.
pub fn most_fill(kind: u32) -> u32
    requires { kind < 6 }
    ensures { result ≡ most_fill_of kind }
{
    TABLE[kind as usize].most_fill
}

// The most cover of a kind of the table.
pub fn most_covered(kind: u32) -> u32
    requires { kind < 6 }
    ensures { result ≡ most_covered_of kind }
{
    TABLE[kind as usize].most_covered
}
