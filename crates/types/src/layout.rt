// The numbers of the type table's layout, by name: how many rows there are, the columns of a row, the kinds of rows, and how a word packs a row.
// specs/Rows.antt, Columns.antt, Kinds.antt and Table.antt have them for the promises, so that a number here that differs from theirs breaks a promise.

// How many rows the table has.
pub const ROWS: usize = 414;

// The columns of a row, which `column` is asked for. The kind is one of the kinds below. Columns are numbers and no enum, since `column`
// answers 0 for every other number and may not ask more of its callers; kinds are numbers, since the words of the table pack them.
pub const KIND: u8 = 0;

// 1 where a type is extensible, 2 where its extension bit gives a cell (edition 2); of a component, 1 where it is OPTIONAL.
pub const MARK: u8 = 1;

// The lowest value, index or size, plus `BIAS`.
pub const LOWEST: u8 = 2;

// The highest value, index or size, minus the lowest.
pub const SPAN: u8 = 3;

// The row of the first component or alternative; of a list its item, of a component its type.
pub const FIRST: u8 = 4;

// How many components a sequence has; in edition 2 also additions of a choice and open values of a selector.
pub const COUNT: u8 = 5;

// What is added to a lowest value so that it is not negative: 2^31.
pub const BIAS: usize = 2147483648;

// `BIAS` for sums with signed numbers.
pub const BIAS_SIGNED: i64 = 2147483648;

// The kinds of rows, which column `KIND` holds. The two before `SEQUENCE` are coded as one number.
pub const WHOLE_NUMBER: usize = 0;

pub const ENUMERATION: usize = 1;

pub const SEQUENCE: usize = 2;

pub const CHOICE: usize = 3;

pub const LIST: usize = 4;

// A component of a sequence or an alternative of a choice.
pub const COMPONENT: usize = 5;

// A whole number with the open value that it chooses, and an open value of a known type: edition 2 only.
pub const SELECTOR: usize = 6;

pub const KNOWN: usize = 7;

// A row in one number, its word: how many values each part has room for, and by what it is multiplied. The kind stands lowest.
pub const KIND_ROOM: usize = 8;

pub const MARK_FROM: usize = KIND_ROOM;

pub const MARK_ROOM: usize = 4;

pub const BOUNDS_FROM: usize = MARK_FROM * MARK_ROOM;

// So many different bounds a table has room for.
pub const BOUNDS_ROOM: usize = 128;

pub const FIRST_FROM: usize = BOUNDS_FROM * BOUNDS_ROOM;

// So many rows.
pub const FIRST_ROOM: usize = 1024;

pub const COUNT_FROM: usize = FIRST_FROM * FIRST_ROOM;

pub const COUNT_ROOM: usize = 32;

// What a walk is spared to find out stands highest: of a sequence how many of its components are OPTIONAL; of a component, 1 where its
// type is one field with no extension bit, whose bounds the component's own word then has.
pub const SPARED_FROM: usize = COUNT_FROM * COUNT_ROOM;

// The words of the rows stand behind the bounds, which are two numbers each.
pub const WORDS_FROM: usize = 2 * BOUNDS_ROOM;
