ghost use Rattle.std.specs.Prelude.{◌≡◌, [], get_or, reverse};
ghost use Rattle.rows_text.specs.Records.{fields_in, is_blank, skip_blanks, without_blanks};

use csv::ByteRecord;

fn is_blank(byte: u8) -> bool
    ensures { result ≡ is_blank byte }
{
    byte == b' ' || byte == b'\t'
}

fn without_front_blanks(field: &[u8]) -> &[u8]
    ensures { result.now ≡ skip_blanks field.now }
{
    let mut rest = field;
    while let [first, more @ ..] = rest {
        if !is_blank(*first) {
            return rest;
        }
        rest = more;
    }
    rest
}

fn without_end_blanks(field: &[u8]) -> &[u8]
    ensures { result.now ≡ reverse (skip_blanks (reverse field.now)) }
{
    let mut rest = field;
    while let [more @ .., last] = rest {
        if !is_blank(*last) {
            return rest;
        }
        rest = more;
    }
    rest
}

// Returns `field` without the spaces and tabs at its ends.
fn trimmed(field: &[u8]) -> &[u8]
    ensures { result.now ≡ without_blanks field.now }
{
    without_end_blanks(without_front_blanks(field))
}

/// Returns the field at place `i`, trimmed; an empty one where there is none.
pub fn field(row: &ByteRecord, i: usize) -> &[u8]
    ensures { result.now ≡ get_or (fields_in row.now) i [] }
{
    match row.get(i) {
        Some(bytes) => trimmed(bytes),
        None => &[],
    }
}
