use crate::files::{disk_of, holds, sink_of};
use disk_model::Disk;
use job_make::{Generation, generate_index, generated_rows, migrate_index};
use load_threads::ByThreads;
use node_page::Head;
use outside_io::{Sink, Status};
use std::alloc::{AllocError, Global};
use std::process::Abort;
use std::thread::Threads;

// Gives four generated coordinates, row after row.
fn cells(rt: &(impl AllocGlobal + Abort)) -> Vec<u32> {
    let rows = generated_rows(rt.alloc(), 0, 1, 4).expect(rt, "memory");
    let mut cells = Vec::new(rt.alloc());
    for i in 0..rows.len() {
        cells.extend_from_slice(rows.point(i)).expect(rt, "memory");
    }
    cells
}

#[test]
fn rows_of_the_generator(rt: HostRuntime) {
    let cells = cells(&rt);
    holds(
        &rt,
        cells.as_slice() == [55_973, 46_410, 36_847, 27_284].as_slice(),
    );
}

// Asks for four rows of one coordinate under L1.
const FOUR: Generation = Generation {
    head: Head {
        version: 2,
        kind: 2,
        dim: 1,
        promote: 2,
        split: 1,
        limit: 16_777_216,
    },
    count: 4,
    seed: 0,
    workers: 2,
};

// Describes a run of `gen`: the file before it, the call from which the disk fails, the call of the output that fails, and
// what comes of it.
type Case = (&'static [u8], Option<u64>, Option<u64>, u8, &'static str);

const SUMMARY: &str = "objects 4\nnodes 1\nheight 0\nqueries 8\nhits 20\naccepted 8\n";

const GENERATED: [Case; 7] = [
    (b"", None, None, 0, SUMMARY),
    (b"", None, Some(0), 4, ""),
    (b"x", None, None, 6, "fault notindex notempty\n"),
    (b"", Some(0), None, 5, "fault disk\n"),
    (b"", Some(20), None, 5, "fault disk\n"),
    // Judges each of the eight logs by the file, which takes a read for its one record. The last call is such a read.
    (b"", Some(37), None, 5, "fault disk\n"),
    (b"", Some(38), None, 0, SUMMARY),
];

// Makes an index of the four rows.
fn generate<R: Threads + Sync, D: Disk, K: Sink>(
    rt: &R,
    alloc: Global,
    disk: &mut D,
    out: &mut K,
) -> Status {
    generate_index(&ByThreads::new(rt), alloc, disk, &FOUR, out)
}

// Checks a run of `gen`.
fn check<R: AllocGlobal + Threads + Sync + Abort>(rt: &R, case: &Case) {
    let (file, stop, fails, status, text) = *case;
    let mut disk = disk_of(rt, file, stop);
    let mut out = sink_of(rt, fails);
    let ended = generate(rt, rt.alloc(), &mut disk, &mut out);
    holds(rt, ended == Status(status));
    holds(rt, out.written() == text.as_bytes());
}

#[test]
fn generated_indexes(rt: HostRuntime) {
    for case in &GENERATED {
        check(&rt, case);
    }
}

// Is the first words of a page, of 4 bytes each. The others are 0.
type Page = &'static [u32];

// Are the heads of a file of version 1 and of one of version 2, of two coordinates under L1 and a limit of 7.
const OLD_HEAD: Page = &[0x4d54_5245, 0x4549_4458, 0x0001_0202, 0x0201_0000, 7];

const NEW_HEAD: Page = &[0x4d54_5245, 0x4549_4458, 0x0002_0202, 0x0201_0000, 7];

// Are the slot of a new file, and slots of generation 2 with one object and with two on page 4.
const FIRST: Page = &[0xa500_0000, 0, 0, 1, 3, 0, 0, 4];

const ONE: Page = &[0xa500_0000, 0, 0, 2, 4, 0, 1, 5];

const TWO: Page = &[0xa500_0000, 0, 0, 2, 4, 0, 2, 5];

const ZEROS: Page = &[];

// Are leaves of version 1: (3, 4) with id 0, the same with id 1, and (5, 6) with id 1 before (3, 4) with id 0.
const OLD_LEAF: Page = &[1, 0, 0, 0, 0, 0, 0, 3, 4];

const OTHER_ID: Page = &[1, 0, 0, 0, 1, 0, 0, 3, 4];

const OLD_PAIR: Page = &[2, 0, 0, 0, 1, 0, 0, 5, 6, 0, 0, 0, 3, 4];

// Are leaves of version 2: (3, 4) with id and tag 0, and the same before (5, 6) with id and tag 1.
const NEW_LEAF: Page = &[1, 0, 0, 0, 0, 0, 0, 0, 0, 3, 4];

const NEW_PAIR: Page = &[2, 0, 0, 0, 0, 0, 0, 0, 0, 3, 4, 1, 0, 1, 0, 0, 5, 6];

// Describes a run of `migrate`: the new file and the old one's pages before it, the call from which the old file's disk
// fails, the call of the output that fails, and what comes of it. Without pages of its own the new file is as it was.
#[derive(Clone, Copy)]
struct Migration<'a> {
    index: &'a [u8],
    old: &'a [Page],
    stop: Option<u64>,
    fails: Option<u64>,
    status: u8,
    text: &'a str,
    made: Option<&'a [Page]>,
}

// Gives the file of these pages.
fn try_file(alloc: Global, pages: &[Page]) -> Result<Vec<u8>, AllocError> {
    let mut bytes = Vec::new(alloc);
    for page in pages {
        for word in page.iter() {
            bytes.extend_from_slice(&word.to_be_bytes())?;
        }
        for _ in page.len()..1024 {
            bytes.extend_from_slice(&[0; 4])?;
        }
    }
    Ok(bytes)
}

// Does the same, and ends the test where memory is lacking.
fn file_of(rt: &(impl AllocGlobal + Abort), pages: &[Page]) -> Vec<u8> {
    try_file(rt.alloc(), pages).expect(rt, "memory")
}

// Migrates an old file to a new one.
fn migrate<D: Disk, E: Disk, K: Sink>(
    alloc: Global,
    index: &mut D,
    other: &mut E,
    out: &mut K,
) -> Status {
    migrate_index(alloc, index, other, out)
}

// Says whether the new file has become what a case says.
fn is_made(rt: &(impl AllocGlobal + Abort), bytes: &[u8], case: &Migration<'_>) -> bool {
    match case.made {
        Some(pages) => bytes == file_of(rt, pages).as_slice(),
        None => bytes == case.index,
    }
}

// Checks a run of `migrate`.
fn check_migration(rt: &(impl AllocGlobal + Abort), case: &Migration<'_>) {
    let old = file_of(rt, case.old);
    let mut index = disk_of(rt, case.index, None);
    let mut other = disk_of(rt, &old, case.stop);
    let mut out = sink_of(rt, case.fails);
    let status = migrate(rt.alloc(), &mut index, &mut other, &mut out);
    holds(rt, status == Status(case.status));
    holds(rt, out.written() == case.text.as_bytes());
    holds(rt, other.bytes() == old.as_slice());
    holds(rt, is_made(rt, index.bytes(), case));
}

const OLD_ONE: &[Page] = &[OLD_HEAD, FIRST, ONE, ZEROS, OLD_LEAF];

const NEW_ONE: &[Page] = &[NEW_HEAD, FIRST, ONE, ZEROS, NEW_LEAF];

const OLD_TWO: &[Page] = &[OLD_HEAD, FIRST, TWO, ZEROS, OLD_PAIR];

const NEW_TWO: &[Page] = &[NEW_HEAD, FIRST, TWO, ZEROS, NEW_PAIR];

const OLD_NONE: &[Page] = &[OLD_HEAD, FIRST, ZEROS, ZEROS];

const NEW_NONE: &[Page] = &[NEW_HEAD, FIRST, ZEROS, ZEROS];

const WRONG: &[Page] = &[OLD_HEAD, FIRST, ONE, ZEROS, OTHER_ID];

// Migrates the old file of one object, without a fault.
const PLAIN: Migration<'static> = Migration {
    index: b"",
    old: OLD_ONE,
    stop: None,
    fails: None,
    status: 0,
    text: "migrated 1\n",
    made: Some(NEW_ONE),
};

const MIGRATED: [Migration<'static>; 4] = [
    PLAIN,
    Migration {
        old: OLD_TWO,
        text: "migrated 2\n",
        made: Some(NEW_TWO),
        ..PLAIN
    },
    Migration {
        old: OLD_NONE,
        text: "migrated 0\n",
        made: Some(NEW_NONE),
        ..PLAIN
    },
    Migration {
        fails: Some(0),
        status: 4,
        text: "",
        ..PLAIN
    },
];

const REFUSED: [Migration<'static>; 7] = [
    Migration {
        index: b"x",
        status: 6,
        text: "fault notindex notempty\n",
        made: None,
        ..PLAIN
    },
    Migration {
        old: NEW_ONE,
        status: 6,
        text: "fault notindex version\n",
        made: None,
        ..PLAIN
    },
    Migration {
        old: &[ZEROS],
        status: 6,
        text: "fault notindex short\n",
        made: None,
        ..PLAIN
    },
    Migration {
        old: WRONG,
        status: 1,
        text: "rejected id 1\n",
        made: None,
        ..PLAIN
    },
    Migration {
        old: WRONG,
        fails: Some(0),
        status: 4,
        text: "",
        made: None,
        ..PLAIN
    },
    Migration {
        stop: Some(0),
        status: 5,
        text: "fault disk\n",
        made: None,
        ..PLAIN
    },
    Migration {
        stop: Some(5),
        status: 5,
        text: "fault disk\n",
        made: None,
        ..PLAIN
    },
];

#[test]
fn migrated_files(rt: HostRuntime) {
    for case in &MIGRATED {
        check_migration(&rt, case);
    }
}

#[test]
fn refused_migrations(rt: HostRuntime) {
    for case in &REFUSED {
        check_migration(&rt, case);
    }
}
