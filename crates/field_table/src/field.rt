ghost use Rattle.std.specs.Prelude.{◌≡◌, ◌*◌, ◌<◌, ◌↔◌, ◌%◌, IsSome, IfSome, Contains, length};
ghost use Rattle.dense_blocks.specs.Vectors.{AllScalars};
ghost use Rattle.field_table.specs.ModularFacts.{inverses, plus_rows};
ghost use Rattle.field_table.specs.Table.{ops_of, order_of, orders};
ghost use Rattle.field_table.specs.Orders.{IsFieldOfOrder};

use crate::kernels::{MOST_PRODUCTS, add_combination, add_scaled, scale, sum_of_products};
use dense_blocks::Scalars;

/// A finite field of the table, named by its order; two are equal where their orders are.
#[derive(Clone, Copy, Debug, PartialEq, Eq)]
#[non_exhaustive]
pub enum Field {
    Two = 2,
    Three = 3,
    Five = 5,
    Seven = 7,
    Eleven = 11,
    Thirteen = 13,
    Seventeen = 17,
    Nineteen = 19,
    TwentyThree = 23,
    TwentyNine = 29,
    ThirtyOne = 31,
}

// A field is passed by value.
const _: () = prove!(size_of::<Field>() == 1);

impl Field {
    /// The field of this order, where the table has one.
    ///
    /// The orders are 2, 3, 5, 7, 11, 13, 17, 19, 23, 29 and 31; there is `None` at any other. Each is a prime, so sums
    /// and products are those of whole numbers modulo the order. Takes no memory.
    pub fn of(order: u32) -> Option<Field>
        ensures known { IsSome result ↔ Contains orders order }
        ensures found { IfSome result (λ f. IsFieldOfOrder order (ops_of f)) }
    {
        match order {
            2 => Some(Field::Two),
            3 => Some(Field::Three),
            5 => Some(Field::Five),
            7 => Some(Field::Seven),
            11 => Some(Field::Eleven),
            13 => Some(Field::Thirteen),
            17 => Some(Field::Seventeen),
            19 => Some(Field::Nineteen),
            23 => Some(Field::TwentyThree),
            29 => Some(Field::TwentyNine),
            31 => Some(Field::ThirtyOne),
            _ => None,
        }
    }

    /// The order, which sums and products are taken modulo.
    fn modulus(self) -> u8
        ensures { result ≡ order_of self }
    {
        self as u8
    }

    /// The remainder of a number, as a scalar.
    fn remainder(self, n: u32) -> u8
        ensures value { result ≡ n % order_of self }
        ensures scalar { result < order_of self }
    {
        (n % self.order()) as u8
    }

    /// The inverses of 1, 2, .. up to the last scalar.
    #[tactic(auto, unfolding(crate::specs::Modular::inverse, crate::specs::ModularFacts::inverses))]
    fn inverses(self) -> &'static [u8]
        ensures { result.now ≡ inverses (order_of self) }
    {
        match self {
            Field::Two => &[1],
            Field::Three => &[1, 2],
            Field::Five => &[1, 3, 2, 4],
            Field::Seven => &[1, 4, 5, 2, 3, 6],
            Field::Eleven => &[1, 6, 4, 3, 9, 2, 8, 7, 5, 10],
            Field::Thirteen => &[1, 7, 9, 10, 8, 11, 2, 5, 3, 4, 6, 12],
            Field::Seventeen => &[1, 9, 6, 13, 7, 3, 5, 15, 2, 12, 14, 10, 4, 11, 8, 16],
            Field::Nineteen => &[
                1, 10, 13, 5, 4, 16, 11, 12, 17, 2, 7, 8, 3, 15, 14, 6, 9, 18,
            ],
            Field::TwentyThree => &[
                1, 12, 8, 6, 14, 4, 10, 3, 18, 7, 21, 2, 16, 5, 20, 13, 19, 9, 17, 15, 11, 22,
            ],
            Field::TwentyNine => &[
                1, 15, 10, 22, 6, 5, 25, 11, 13, 3, 8, 17, 9, 27, 2, 20, 12, 21, 26, 16, 18, 4, 24,
                23, 7, 19, 14, 28,
            ],
            Field::ThirtyOne => &[
                1, 16, 21, 8, 25, 26, 9, 4, 7, 28, 17, 13, 12, 20, 29, 2, 11, 19, 18, 14, 3, 24,
                27, 22, 5, 6, 23, 10, 15, 30,
            ],
        }
    }

    /// Adds to the target the multiples, by the coefficients, of rows as long as the target that are given one after
    /// another.
    fn add_rows(self, target: &mut [u8], coefficients: &[u8], rows: &[u8])
        requires full { length rows.now ≡ length coefficients.now * length target.old }
        requires target_scalars { AllScalars (ops_of self) target.old }
        requires coefficient_scalars { AllScalars (ops_of self) coefficients.now }
        requires row_scalars { AllScalars (ops_of self) rows.now }
        ensures sum { target.new ≡ plus_rows (ops_of self) (length target.old) target.old coefficients.now rows.now }
        ensures scalars { AllScalars (ops_of self) target.new }
    {
        match self {
            Field::Two => add_combination::<2>(target, coefficients, rows),
            Field::Three => add_combination::<3>(target, coefficients, rows),
            Field::Five => add_combination::<5>(target, coefficients, rows),
            Field::Seven => add_combination::<7>(target, coefficients, rows),
            Field::Eleven => add_combination::<11>(target, coefficients, rows),
            Field::Thirteen => add_combination::<13>(target, coefficients, rows),
            Field::Seventeen => add_combination::<17>(target, coefficients, rows),
            Field::Nineteen => add_combination::<19>(target, coefficients, rows),
            Field::TwentyThree => add_combination::<23>(target, coefficients, rows),
            Field::TwentyNine => add_combination::<29>(target, coefficients, rows),
            Field::ThirtyOne => add_combination::<31>(target, coefficients, rows),
        }
    }
}

impl Scalars for Field {
    ghost use Rattle.field_table.specs.Table.{ops_of};
    ghost use Rattle.field_table.specs.TableLaws.{table_is_field};

    ghost ops = { ops_of };

    ghost is_field = { table_is_field };

    fn order(&self) -> u32 {
        u32::from(self.modulus())
    }

    fn add(&self, a: u8, b: u8) -> u8 {
        let order = self.modulus();
        let sum = a + b;
        if sum < order { sum } else { sum - order }
    }

    fn neg(&self, a: u8) -> u8 {
        if a == 0 { 0 } else { self.modulus() - a }
    }

    fn mul(&self, a: u8, b: u8) -> u8 {
        (u16::from(a) * u16::from(b) % u16::from(self.modulus())) as u8
    }

    #[tactic(auto, using(crate::proofs::Inverses::inverse_entries))]
    fn inv(&self, a: u8) -> u8 {
        self.inverses()[usize::from(a) - 1]
    }

    fn add_scaled(&self, target: &mut [u8], k: u8, row: &[u8]) {
        if k == 0 {
            return;
        }
        match self {
            Field::Two => add_scaled::<2>(target, k, row),
            Field::Three => add_scaled::<3>(target, k, row),
            Field::Five => add_scaled::<5>(target, k, row),
            Field::Seven => add_scaled::<7>(target, k, row),
            Field::Eleven => add_scaled::<11>(target, k, row),
            Field::Thirteen => add_scaled::<13>(target, k, row),
            Field::Seventeen => add_scaled::<17>(target, k, row),
            Field::Nineteen => add_scaled::<19>(target, k, row),
            Field::TwentyThree => add_scaled::<23>(target, k, row),
            Field::TwentyNine => add_scaled::<29>(target, k, row),
            Field::ThirtyOne => add_scaled::<31>(target, k, row),
        }
    }

    fn scale(&self, target: &mut [u8], k: u8) {
        match self {
            Field::Two => scale::<2>(target, k),
            Field::Three => scale::<3>(target, k),
            Field::Five => scale::<5>(target, k),
            Field::Seven => scale::<7>(target, k),
            Field::Eleven => scale::<11>(target, k),
            Field::Thirteen => scale::<13>(target, k),
            Field::Seventeen => scale::<17>(target, k),
            Field::Nineteen => scale::<19>(target, k),
            Field::TwentyThree => scale::<23>(target, k),
            Field::TwentyNine => scale::<29>(target, k),
            Field::ThirtyOne => scale::<31>(target, k),
        }
    }

    fn dot(&self, u: &[u8], v: &[u8]) -> u8 {
        let mut total = 0;
        let mut us = u;
        let mut vs = v;
        while us.len() > MOST_PRODUCTS {
            let (u_front, u_back) = us.split_at(MOST_PRODUCTS);
            let (v_front, v_back) = vs.split_at(MOST_PRODUCTS);
            total = self.add(total, self.remainder(sum_of_products(u_front, v_front)));
            us = u_back;
            vs = v_back;
        }
        self.add(total, self.remainder(sum_of_products(us, vs)))
    }

    fn add_combination(&self, target: &mut [u8], coefficients: &[u8], rows: &[u8]) {
        self.add_rows(target, coefficients, rows);
    }
}
