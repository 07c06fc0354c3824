//! A file in memory, as a list of bytes.
ghost use Rattle.std.specs.Prelude.{◌≡◌, ◌+◌, ◌^◌, ◌<◌, ◌≤◌, max, ℕ, length, slice_index, vec_len, vec_capacity, EachIndex};
ghost use Rattle.disk_model.specs.Disk.{Written};

/// Writes `bytes` at place `at`, and fills a gap before them with 0. The file must have room for them.
pub fn overwrite(file: &mut Vec<u8>, at: usize, bytes: &[u8])
    requires end { at + length bytes.now ≤ vec_capacity file.old }
    ensures written { Written at bytes.now file.old.items file.new.items }
    ensures taken { vec_capacity file.old ≤ vec_capacity file.new }
{
    grow(file, at + bytes.len());
    put(file, at, bytes);
}

// Fills the file with 0 up to `size`. The file must have room for it.
fn grow(file: &mut Vec<u8>, size: usize)
    requires { size ≤ vec_capacity file.old }
    ensures size { vec_len file.new ≡ max (vec_len file.old) size }
    ensures same { (i : ℕ) → slice_index file.new.items i ≡ slice_index file.old.items i }
    ensures taken { vec_capacity file.old ≤ vec_capacity file.new }
{
    if file.len() < size && file.resize(size, 0).is_err() {
        unreachable!()
    }
}

// Replaces bytes of the file by `bytes`.
fn put(file: &mut [u8], at: usize, bytes: &[u8])
    requires { at + length bytes.now ≤ length file.old }
    ensures { Written at bytes.now file.old file.new }
{
    file[at..at + bytes.len()].copy_from_slice(bytes);
}

/// Copies the bytes from place `at` on, with 0 past the end.
pub fn copy_out(file: &[u8], at: usize, buf: &mut [u8])
    requires { at + length buf.old ≤ 2 ^ 37 }
    ensures { EachIndex buf.new (λ i. slice_index buf.new i ≡ slice_index file.now (at + i)) }
{
    for (i, place) in buf.iter_mut().enumerate() {
        *place = file.get(at + i).copied().unwrap_or(0);
    }
}
