// Where the numbers of a record are. Those past the count depend on its kind.

use tree_records::Record;

// Of every record: the number of its kind, and how many elements a list has.
pub const KIND: usize = Record::KIND;

pub const COUNT: usize = Record::COUNT;

// The own name, and the place of the context: of a type, a function or a variable. What is over one
// other record (an accessor, a witness) has the place of that record there.
pub const NAME: usize = 3;

pub const CONTEXT: usize = 4;

// A function, an initializer: its type, the first cell of its labels, and one more than how many it
// has; 0 where it has none of its own.
pub const TYPE: usize = 5;

pub const LABELS: usize = 6;

pub const LABEL_COUNT: usize = 7;

// An initializer, a deinitializer: whether it allocates or deallocates.
pub const ALLOCATING: usize = 3;

pub const DEALLOCATING: usize = 3;

// An accessor: its variable.
pub const VARIABLE: usize = 4;

// A function type.
pub const PARAMS: usize = 3;

pub const RESULT: usize = 4;

pub const THROWS: usize = 5;

pub const ASYNC: usize = 6;

// A generic type: its signature, and the type that has it.
pub const SIGNATURE: usize = 3;

pub const INNER: usize = 4;

// A signature: how many parameters (64 bits), how many requirements, and the first of them.
pub const PARAM_COUNT: usize = 3;

pub const REQUIREMENT_COUNT: usize = 5;

pub const REQUIREMENTS: usize = 6;

// A generic parameter (64 bits each).
pub const DEPTH: usize = 3;

pub const INDEX: usize = 5;

// A type with arguments.
pub const BASE: usize = 3;

pub const ARGUMENT_COUNT: usize = 4;

pub const ARGUMENTS: usize = 5;

// A tuple or a list of protocols: the first of its elements.
pub const ELEMENTS: usize = 3;

// A record of words: their form, and the number (64 bits) in the words of a suspend or resume
// function.
pub const WORDS: usize = 3;

pub const NUMBER: usize = 5;

// A conformance of an associated type: its qualifier.
pub const QUALIFIER: usize = 6;

// A cell of a list: its label, its element, and the next cell.
pub const LABEL: usize = 3;

pub const ELEMENT: usize = 4;

pub const NEXT: usize = 5;
