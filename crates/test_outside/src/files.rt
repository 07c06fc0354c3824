use crate::disks::holds;
use disk_model::Disk;
use job_words::{FileNames, Makes};
use named_files::{Folder, HostFolder, open_files};
use outside_io::{Sink, Source};
use std::fs;
use std::os::unix::fs::symlink;
use std::process::Abort;

// Names an index that is read and a log that is written.
fn with_log<'a>(index: &'a str, log: &'a str) -> FileNames<&'a str> {
    FileNames {
        index: Some(index),
        writes: false,
        other: None,
        log_in: None,
        makes: Makes::Log(log),
    }
}

// Says whether the files of these names can be opened.
fn opens(rt: &HostRuntime, names: &FileNames<&str>) -> bool {
    open_files(HostFolder::new(rt), names).is_ok()
}

// Says whether the folder tells that `other` is a name of the file `one`.
fn is_one(rt: &HostRuntime, other: &str) -> bool {
    HostFolder::new(rt).is_one_file("one", other)
}

// Writes a file, and says whether it is written.
fn puts(rt: &HostRuntime, name: &str, bytes: &[u8]) -> bool {
    fs::write(rt, name, bytes).is_ok()
}

// Removes a file, and says whether it is removed.
fn removes(rt: &HostRuntime, name: &str) -> bool {
    fs::remove_file(rt, name).is_ok()
}

// Gives the size of a file that is there.
fn size_of(rt: &HostRuntime, name: &str) -> Option<u64> {
    match fs::metadata(rt, name) {
        Ok(known) => Some(known.len()),
        Err(_) => None,
    }
}

// Lists names, and whether each is one of the file `one`.
const NAMES: [(&str, bool); 6] = [
    ("one", true),
    ("./one", true),
    ("second", true),
    ("linked", true),
    ("two", false),
    ("three", false),
];

#[test]
fn no_file_is_read_and_written(rt: HostRuntime) {
    holds(&rt, puts(&rt, "one", b"some"));
    holds(&rt, puts(&rt, "two", b"more"));
    fs::hard_link(&rt, "one", "second").expect(&rt, "linked");
    symlink(&rt, "one", "linked").expect(&rt, "linked");
    for (other, one) in &NAMES {
        assert!(rt; is_one(&rt, other) == *one, "{}", other);
        assert!(rt; opens(&rt, &with_log("one", other)) != *one, "{}", other);
    }
    holds(&rt, size_of(&rt, "one") == Some(4));
    // Makes the log anew.
    holds(&rt, size_of(&rt, "two") == Some(0));
    holds(&rt, !opens(&rt, &with_log("missing", "two")));
    for name in ["one", "two", "three", "second", "linked"] {
        holds(&rt, removes(&rt, name));
    }
}

// Names no file.
const NONE: FileNames<&str> = FileNames {
    index: None,
    writes: false,
    other: None,
    log_in: None,
    makes: Makes::Nothing,
};

// Reads zeros from an index that is not named.
fn check_index<D: Disk>(rt: &impl Abort, index: &mut D) {
    let mut buf = [9; 2];
    holds(rt, index.read_at(5, &mut buf) == Ok(()));
    holds(rt, buf == [0, 0]);
    holds(rt, index.size() == Ok(0));
}

// Takes nothing from a log that is not named.
fn check_log<S: Source>(rt: &impl Abort, log: &mut S) {
    let mut buf = [9; 2];
    holds(rt, log.take(&mut buf) == Ok(0));
}

// Puts bytes to a log that is not named.
fn check_put<K: Sink>(rt: &impl Abort, log: &mut K) {
    holds(rt, log.put(b"gone") == Ok(()));
}

#[test]
fn where_no_file_is_named(rt: HostRuntime) {
    let opened = open_files(HostFolder::new(&rt), &NONE);
    let mut files = opened.ok().expect(&rt, "opened");
    check_index(&rt, &mut files.index);
    check_log(&rt, &mut files.log_in);
    check_put(&rt, &mut files.log_out);
}

// Names the index that a job reads.
const READ: FileNames<&str> = FileNames {
    index: Some("held"),
    writes: false,
    other: None,
    log_in: None,
    makes: Makes::Nothing,
};

// Names the index that a job writes.
const WRITTEN: FileNames<&str> = FileNames {
    writes: true,
    ..READ
};

// Names the index that a job makes.
const MADE: FileNames<&str> = FileNames {
    makes: Makes::Index,
    ..READ
};

// Says whether the files of `names` open while those of `held` are open.
fn opens_beside(rt: &HostRuntime, held: &FileNames<&str>, names: &FileNames<&str>) -> Option<bool> {
    match open_files(HostFolder::new(rt), held) {
        Ok(_files) => Some(opens(rt, names)),
        Err(_) => None,
    }
}

#[test]
fn an_index_is_written_alone_and_read_beside_readers(rt: HostRuntime) {
    holds(&rt, puts(&rt, "held", b"some"));
    holds(&rt, opens_beside(&rt, &READ, &READ) == Some(true));
    holds(&rt, opens_beside(&rt, &READ, &WRITTEN) == Some(false));
    holds(&rt, opens_beside(&rt, &READ, &MADE) == Some(false));
    holds(&rt, opens_beside(&rt, &WRITTEN, &READ) == Some(false));
    holds(&rt, opens_beside(&rt, &WRITTEN, &WRITTEN) == Some(false));
    holds(&rt, opens(&rt, &MADE));
    holds(&rt, removes(&rt, "held"));
}

#[test]
fn an_index_is_not_emptied_for_a_log(rt: HostRuntime) {
    holds(&rt, puts(&rt, "held", b"some"));
    holds(&rt, puts(&rt, "begins", b"MTREEIDX and more"));
    holds(&rt, puts(&rt, "short", b"MTREEID"));
    holds(&rt, !opens(&rt, &with_log("held", "begins")));
    holds(&rt, opens(&rt, &with_log("held", "short")));
    holds(&rt, size_of(&rt, "begins") == Some(17));
    holds(&rt, size_of(&rt, "short") == Some(0));
    for name in ["held", "begins", "short"] {
        holds(&rt, removes(&rt, name));
    }
}
