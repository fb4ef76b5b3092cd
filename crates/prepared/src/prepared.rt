//! A script reader over tokens and records that are lent.

ghost use Rattle.std.specs.Prelude.{◌≡◌, ◌+◌, length};
ghost use Rattle.table.specs.Means.{table_tokens};

use crate::records::PartRecord;
use table::table::Table;

pub mod methods;

/// Reads the tokens as the reader of the table does, and answers a part from the records.
#[derive(Drop)]
pub struct Prepared<'a> {
    reader: Table<'a>,
    // How many tokens there are before the end of input. Counted here, since a reader of tokens tells no count.
    left: usize,
    records: &'a [PartRecord],
    ghost counted: { left + 1 ≡ length (table_tokens reader) },
}
