use dense_blocks::Listed;
use field_table::Field;
use sheaf_data::Draft;
use sheaf_words::Command;

/// What an input says: what is to become a sheaf, and the commands of each client, in order.
#[derive(Drop)]
pub struct Input {
    pub draft: Draft<Field>,
    pub scripts: Listed<Listed<Command>>,
}
