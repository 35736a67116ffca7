use dense_blocks::Scalars;
use field_table::Field;

/// A field by its calls on scalars alone: on slices it has the calls of the trait.
#[derive(Clone, Copy)]
pub struct ByEntries {
    /// The field.
    pub field: Field,
}

impl Scalars for ByEntries {
    ghost use Rattle.linear_tests.specs.FieldByEntries.{by_entries, by_entries_is_field};

    ghost ops = { by_entries };

    ghost is_field = { by_entries_is_field };

    fn order(&self) -> u32 {
        self.field.order()
    }

    fn add(&self, a: u8, b: u8) -> u8 {
        self.field.add(a, b)
    }

    fn neg(&self, a: u8) -> u8 {
        self.field.neg(a)
    }

    fn mul(&self, a: u8, b: u8) -> u8 {
        self.field.mul(a, b)
    }

    fn inv(&self, a: u8) -> u8 {
        self.field.inv(a)
    }
}
