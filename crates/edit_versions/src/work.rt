ghost use Rattle.std.specs.Prelude.{◌≡◌, ℕ, ◌*◌, ◌<◌, ◌≤◌, List, [], true, length, map, slice_index, slice_set, All};
ghost use Rattle.std.specs.Prelude.{IfOk, OnOk};
ghost use Rattle.cell_complex.specs.Complexes.{joins, is_face, faces_of};
ghost use Rattle.cell_complex.specs.Invariants.{IsComplex, cofaces_of};
ghost use Rattle.sheaf_words.specs.declared.edit.Set.TheVariants.{Stalk, Restrict};
ghost use Rattle.edit_versions.specs.Edits.{written_matrix};
ghost use Rattle.edit_versions.specs.Works.{Puts, TakesSet, is_from, is_to, zero_at, is_end};

use cell_complex::Complex;
use dense_blocks::Block;
use sheaf_data::copy_blocks;
use std::alloc::{AllocError as NoMemory, Global};

/// The stalks and blocks that an edit makes.
#[derive(Drop)]
pub(crate) struct Work {
    /// The size of the stalk of each cell.
    pub(crate) stalks: Vec<u8>,
    /// The block of each face.
    pub(crate) blocks: Vec<Block>,
    /// The places of the faces whose blocks were put.
    pub(crate) touched: Vec<u32>,
}

impl Work {
    /// These stalks and blocks, none touched.
    pub(crate) fn of(alloc: Global, stalks: &[u8], blocks: &[Block]) -> Result<Work, NoMemory>
        ensures stalks { IfOk result (λ w. w.stalks.items ≡ stalks.now) }
        ensures blocks { IfOk result (λ w. w.blocks.items ≡ blocks.now) }
        ensures touched { IfOk result (λ w. w.touched.items ≡ []) }
    {
        Ok(Work {
            stalks: Vec::from_slice(alloc, stalks)?,
            blocks: copy_blocks(alloc, blocks)?,
            touched: Vec::new(alloc),
        })
    }

    /// Puts the block in place of that of `s` in `t`.
    fn put(&mut self, c: &Complex, s: u32, t: u32, block: Block) -> Result<(), NoMemory>
        requires complex { IsComplex c.now }
        requires face { is_face c.now s t ≡ true }
        requires count { length self.old.blocks.items ≡ length c.now.faces }
        ensures { OnOk result (Puts c.now (joins s t) (λ f. written_matrix block) self.old self.new) }
    {
        let place = c.place(s, t).unwrap();
        self.touched.push(place)?;
        self.blocks[place as usize] = block;
        Ok(())
    }

    /// Makes the restriction from `s` to `t` zero.
    fn clear(&mut self, alloc: Global, c: &Complex, s: u32, t: u32) -> Result<(), NoMemory>
        requires complex { IsComplex c.now }
        requires face { is_face c.now s t ≡ true }
        requires one_each { length self.old.stalks.items ≡ length c.now.dims }
        requires count { length self.old.blocks.items ≡ length c.now.faces }
        ensures { OnOk result (Puts c.now (joins s t) (zero_at self.old.stalks.items) self.old self.new) }
    {
        let rows = size_at(&self.stalks, t);
        let cols = size_at(&self.stalks, s);
        let block = Block::zero(alloc, rows, cols)?;
        self.put(c, s, t, block)
    }

    /// Makes all restrictions to `t` zero.
    fn clear_below(&mut self, alloc: Global, c: &Complex, t: u32) -> Result<(), NoMemory>
        requires complex { IsComplex c.now }
        requires cell { t < length c.now.dims }
        requires one_each { length self.old.stalks.items ≡ length c.now.dims }
        requires count { length self.old.blocks.items ≡ length c.now.faces }
        ensures { OnOk result
            (Puts c.now (is_from (faces_of c.now t) t) (zero_at self.old.stalks.items) self.old self.new) }
    {
        for &s in c.faces_of(t) {
            self.clear(alloc, c, s, t)?;
        }
        Ok(())
    }

    /// Makes all restrictions from `s` zero.
    fn clear_above(&mut self, alloc: Global, c: &Complex, s: u32) -> Result<(), NoMemory>
        requires complex { IsComplex c.now }
        requires cell { s < length c.now.dims }
        requires one_each { length self.old.stalks.items ≡ length c.now.dims }
        requires count { length self.old.blocks.items ≡ length c.now.faces }
        ensures { OnOk result
            (Puts c.now (is_to (cofaces_of c.now s) s) (zero_at self.old.stalks.items) self.old self.new) }
    {
        for &t in c.cofaces_of(s) {
            self.clear(alloc, c, s, t)?;
        }
        Ok(())
    }

    /// Makes all restrictions from and to `s` zero.
    fn clear_at(&mut self, alloc: Global, c: &Complex, s: u32) -> Result<(), NoMemory>
        requires complex { IsComplex c.now }
        requires cell { s < length c.now.dims }
        requires one_each { length self.old.stalks.items ≡ length c.now.dims }
        requires count { length self.old.blocks.items ≡ length c.now.faces }
        ensures { OnOk result (Puts c.now (is_end s) (zero_at self.old.stalks.items) self.old self.new) }
    {
        self.clear_below(alloc, c, s)?;
        self.clear_above(alloc, c, s)
    }

    /// Gives the stalk of `s` the size `n`, and makes all restrictions from and to it zero.
    pub(crate) fn set_stalk(
        &mut self,
        alloc: Global,
        c: &Complex,
        s: u32,
        n: u32,
    ) -> Result<(), NoMemory>
        requires complex { IsComplex c.now }
        requires cell { s < length c.now.dims }
        requires low { n ≤ 16 }
        requires one_each { length self.old.stalks.items ≡ length c.now.dims }
        requires count { length self.old.blocks.items ≡ length c.now.faces }
        ensures { OnOk result (TakesSet c.now (Stalk s n) self.old self.new) }
    {
        self.stalks[s as usize] = n as u8;
        self.clear_at(alloc, c, s)
    }

    /// Gives the restriction from `s` to `t` these entries.
    pub(crate) fn set_restriction(
        &mut self,
        alloc: Global,
        c: &Complex,
        s: u32,
        t: u32,
        entries: &[u32],
    ) -> Result<(), NoMemory>
        requires complex { IsComplex c.now }
        requires face { is_face c.now s t ≡ true }
        requires one_each { length self.old.stalks.items ≡ length c.now.dims }
        requires count { length self.old.blocks.items ≡ length c.now.faces }
        requires full { length entries.now ≡ slice_index self.old.stalks.items t * slice_index self.old.stalks.items s }
        requires bytes { All (λ a. a < 256) entries.now }
        ensures { OnOk result (TakesSet c.now (Restrict s t entries.now) self.old self.new) }
    {
        let rows = size_at(&self.stalks, t);
        let cols = size_at(&self.stalks, s);
        let entries = bytes_of(alloc, entries)?;
        let block = Block::of(alloc, rows, cols, &entries)?;
        self.put(c, s, t, block)
    }
}

/// The size of the stalk of the cell.
fn size_at(stalks: &[u8], cell: u32) -> u32
    requires { cell < length stalks.now }
    ensures value { result ≡ slice_index stalks.now cell }
    ensures few { result ≤ 255 }
{
    u32::from(stalks[cell as usize])
}

/// The numbers as bytes.
fn bytes_of(alloc: Global, numbers: &[u32]) -> Result<Vec<u8>, NoMemory>
    requires { All (λ a. a < 256) numbers.now }
    ensures { IfOk result (λ v. v.items ≡ numbers.now) }
{
    let mut bytes = Vec::with_capacity(alloc, numbers.len())?;
    for number in numbers {
        bytes.push(*number as u8)?;
    }
    Ok(bytes)
}
