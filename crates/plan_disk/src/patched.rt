//! The file after some writes: the pages that they touched, over the bytes before them.
ghost use Rattle.std.specs.Prelude.{◌≡◌, ◌+◌, ◌-◌, ◌*◌, ◌^◌, ◌<◌, ◌≤◌, min, ℕ, List, length, slice_index, IsSome, OnOk, IfOk, EachIndex};
ghost use Rattle.disk_model.specs.Disk.{Written};
ghost use Rattle.plan_disk.specs.Patches.{Shows, HasPlaces, Keeps, page_at};

use std::alloc::{AllocError, Global};
use std::collections::BTreeMap;
use std::marker::Model;

/// The number of bytes of a page.
pub const PAGE: usize = 4096;

/// The bytes of a file, and each page of it that was touched.
#[derive(Drop)]
pub struct Patched<'a> {
    base: &'a [u8],
    pages: BTreeMap<usize, Vec<u8>>,
    alloc: Global,
}

impl<'a> Model for Patched<'a> {
    ghost use Rattle.plan_disk.specs.Patches.{Patches, IsPaged};

    ghost Value = { Patches };

    ghost view = { λ p. record { base = p.base.now; pages = p.pages.entries } };

    ghost invariant = { λ p. IsPaged p.pages.entries };
}

impl<'a> Patched<'a> {
    /// Returns the file `base` with no page touched.
    pub fn new(alloc: Global, base: &'a [u8]) -> Self
        ensures base { result.base ≡ base.now }
        ensures shows { Shows result base.now }
    {
        Patched {
            base,
            pages: BTreeMap::new(alloc),
            alloc,
        }
    }

    /// Returns the bytes before the writes.
    pub fn base(&self) -> &[u8]
        ensures { result.now ≡ self.now.base }
    {
        self.base
    }

    /// Fills `buf` with the file's bytes from place `at` on, and with 0 past its end.
    pub fn read(&self, at: usize, buf: &mut [u8])
        requires { at + length buf.old ≤ 2 ^ 63 }
        ensures { (file : List ℕ) → Shows self.now file
            → EachIndex buf.new (λ i. slice_index buf.new i ≡ slice_index file (at + i)) }
    {
        let mut done = 0;
        while done < buf.len() {
            let from = (at + done) % PAGE;
            let end = buf.len().min(done + (PAGE - from));
            self.copy_part((at + done) / PAGE, from, &mut buf[done..end]);
            done = end;
        }
    }

    // Copies a part of one page, from its place `from` on.
    fn copy_part(&self, page: usize, from: usize, buf: &mut [u8])
        requires within { from + length buf.old ≤ 4096 }
        requires small { 4096 * page ≤ 2 ^ 63 }
        ensures { (file : List ℕ) → Shows self.now file
            → EachIndex buf.new (λ i. slice_index buf.new i ≡ slice_index file (4096 * page + from + i)) }
    {
        match self.pages.get(&page) {
            Some(bytes) => copy_out(bytes, from, buf),
            None => copy_out(self.base, page * PAGE + from, buf),
        }
    }

    /// Touches the pages of `size` places from `at` on. The file stays the same, even where memory runs out.
    pub fn touch(&mut self, at: usize, size: usize) -> Result<(), AllocError>
        requires { at + size ≤ 2 ^ 37 }
        ensures base { self.new.base ≡ self.old.base }
        ensures same { (file : List ℕ) → Shows self.old file → Shows self.new file }
        ensures touched { OnOk result (HasPlaces self.new at size) }
    {
        for page in at / PAGE..(at + size).div_ceil(PAGE) {
            self.touch_page(page)?;
        }
        Ok(())
    }

    // Touches one page.
    fn touch_page(&mut self, page: usize) -> Result<(), AllocError>
        requires { page ≤ 2 ^ 26 }
        ensures base { self.new.base ≡ self.old.base }
        ensures same { (file : List ℕ) → Shows self.old file → Shows self.new file }
        ensures touched { OnOk result (IsSome (page_at self.new.pages page)) }
        ensures others { Keeps self.old self.new }
    {
        if self.pages.contains_key(&page) {
            return Ok(());
        }
        let mut bytes = vec![in self.alloc; 0; PAGE]?;
        copy_out(self.base, page * PAGE, &mut bytes);
        self.pages.insert(page, bytes)?;
        Ok(())
    }

    /// Writes `bytes` at place `at`. The pages of these places must have been touched.
    pub fn overwrite(&mut self, at: usize, bytes: &[u8])
        requires small { at + length bytes.now ≤ 2 ^ 37 }
        requires touched { HasPlaces self.old at (length bytes.now) }
        ensures base { self.new.base ≡ self.old.base }
        ensures written { (file later : List ℕ) → Shows self.old file → Written at bytes.now file later → Shows self.new later }
    {
        let mut done = 0;
        while done < bytes.len() {
            let from = (at + done) % PAGE;
            let end = bytes.len().min(done + (PAGE - from));
            self.put_part((at + done) / PAGE, from, &bytes[done..end]);
            done = end;
        }
    }

    // Writes `bytes` into one page, which was touched, at its place `from`.
    fn put_part(&mut self, page: usize, from: usize, bytes: &[u8])
        requires within { from + length bytes.now ≤ 4096 }
        requires touched { IsSome (page_at self.old.pages page) }
        ensures base { self.new.base ≡ self.old.base }
        ensures written { (file later : List ℕ) → Shows self.old file → Written (4096 * page + from) bytes.now file later
            → Shows self.new later }
        ensures others { Keeps self.old self.new }
    {
        match self.pages.get_mut(&page) {
            Some(own) => put(own, from, bytes),
            None => unreachable!(),
        }
    }
}

// Replaces bytes of a page by `bytes`.
fn put(page: &mut [u8], from: usize, bytes: &[u8])
    requires { from + length bytes.now ≤ length page.old }
    ensures { Written from bytes.now page.old page.new }
{
    page[from..from + bytes.len()].copy_from_slice(bytes);
}

// Fills `buf` with the bytes from place `at` on, and with 0 past their end.
fn copy_out(file: &[u8], at: usize, buf: &mut [u8])
    requires { at ≤ 2 ^ 63 + 4096 }
    ensures { EachIndex buf.new (λ i. slice_index buf.new i ≡ slice_index file.now (at + i)) }
{
    let start = at.min(file.len());
    let count = buf.len().min(file.len() - start);
    let (inside, past) = buf.split_at_mut(count);
    inside.copy_from_slice(&file[start..start + count]);
    past.fill(0);
}
