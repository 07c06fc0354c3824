use job_words::{
    Complaint, FileNames, Job, JobFault, Makes, MetricName, PolicyNames, Promote, SpaceName, Split,
    complaint_on, files_of, read_job, reads_as_clap,
};
use std::alloc::{AllocError, Global};
use std::process::Abort;

// Ends a test in which `is_so` is false.
pub(crate) fn holds(rt: &impl Abort, is_so: bool) {
    assert!(rt; is_so);
}

// Gives the words of a line, which stand between single spaces.
fn try_words(alloc: Global, line: &str) -> Result<Vec<String>, AllocError> {
    let mut words = Vec::new(alloc);
    for word in line.split(' ') {
        words.push(String::from_str(alloc, word)?)?;
    }
    Ok(words)
}

// Does the same, and ends the test where memory is lacking.
fn words(rt: &(impl AllocGlobal + Abort), line: &str) -> Vec<String> {
    try_words(rt.alloc(), line).expect(rt, "memory")
}

const PLANE: SpaceName = SpaceName {
    metric: MetricName::L1,
    dim: 2,
};

const USUAL: PolicyNames = PolicyNames {
    promote: Promote::Mmrad,
    split: Split::Hyperplane,
};

const SCAN: Job<&str> = Job::Scan {
    space: PLANE,
    limit: 16777216,
    show_tags: false,
};

const ROOT: [u8; 32] = [
    0, 1, 2, 3, 4, 5, 6, 7, 8, 9, 16, 17, 18, 19, 20, 21, 22, 23, 24, 25, 32, 33, 34, 35, 36, 37,
    38, 39, 40, 41, 48, 255,
];

// Says whether a line is read as a job.
fn is_job(rt: &(impl AllocGlobal + Abort), line: &str, job: &Job<&str>) -> bool {
    let words = words(rt, line);
    match read_job(rt.alloc(), &words) {
        Ok(found) => found == *job,
        Err(_) => false,
    }
}

// Checks that each line is read as its job.
fn check_jobs(rt: &(impl AllocGlobal + Abort), cases: &[(&str, Job<&str>)]) {
    for (line, job) in cases {
        assert!(rt; is_job(rt, line, job), "{line}");
    }
}

// Says why a line is not read.
fn fault_of(rt: &(impl AllocGlobal + Abort), line: &str) -> Option<JobFault> {
    let words = words(rt, line);
    read_job(rt.alloc(), &words).err()
}

// Checks that no line is a job.
fn check_no_jobs(rt: &(impl AllocGlobal + Abort), lines: &[&str]) {
    for line in lines {
        assert!(rt; fault_of(rt, line) == Some(JobFault::Usage), "{line}");
    }
}

// Lists a line of each command, and its job.
const JOBS: [(&str, Job<&str>); 21] = [
    ("scan --metric l1 --dim 2", SCAN),
    (
        "scan --metric l1 --dim 2 --max 7 --tags show",
        Job::Scan {
            space: PLANE,
            limit: 7,
            show_tags: true,
        },
    ),
    (
        "create a.mt --metric l1 --dim 2",
        Job::Create {
            index: "a.mt",
            space: PLANE,
            policies: USUAL,
            limit: 16777216,
        },
    ),
    (
        "create a.mt --metric l1 --dim 2 --promote mrad --split balanced --max 3",
        Job::Create {
            index: "a.mt",
            space: PLANE,
            policies: PolicyNames {
                promote: Promote::Mrad,
                split: Split::Balanced,
            },
            limit: 3,
        },
    ),
    (
        "session a.mt",
        Job::Session {
            index: "a.mt",
            log: None,
            workers: 1,
            show_tags: false,
        },
    ),
    (
        "session a.mt --log a.log --workers 64 --tags show",
        Job::Session {
            index: "a.mt",
            log: Some("a.log"),
            workers: 64,
            show_tags: true,
        },
    ),
    ("shape a.mt", Job::Shape { index: "a.mt" }),
    ("stats a.mt", Job::Stats { index: "a.mt" }),
    ("dump a.mt", Job::Dump { index: "a.mt" }),
    (
        "show a.mt --log a.log --marks each",
        Job::Show {
            index: "a.mt",
            log: "a.log",
            other: None,
            counts_only: false,
        },
    ),
    (
        "show a.mt --log a.log --other b.mt --marks count",
        Job::Show {
            index: "a.mt",
            log: "a.log",
            other: Some("b.mt"),
            counts_only: true,
        },
    ),
    (
        "audit a.mt --workers 4",
        Job::Audit {
            index: "a.mt",
            workers: 4,
        },
    ),
    (
        "verify a.mt --log a.log",
        Job::Verify {
            index: "a.mt",
            log: "a.log",
            other: None,
        },
    ),
    (
        "check a.mt --log a.log --other b.mt",
        Job::Check {
            index: "a.mt",
            log: "a.log",
            other: Some("b.mt"),
        },
    ),
    (
        "join a.mt --other b.mt --radius 18446744073709551615",
        Job::Join {
            index: "a.mt",
            other: "b.mt",
            radius: 18446744073709551615,
            log: None,
        },
    ),
    (
        "gen a.mt --metric l1 --dim 2 --count 1048576 --seed 4294967295",
        Job::Gen {
            index: "a.mt",
            space: PLANE,
            count: 1048576,
            seed: 4294967295,
            policies: USUAL,
            workers: 1,
        },
    ),
    (
        "migrate a.mt --other old.mt",
        Job::Migrate {
            index: "a.mt",
            other: "old.mt",
        },
    ),
    (
        "batch a.mt --workers 3",
        Job::Batch {
            index: "a.mt",
            workers: 3,
            log: None,
            show_tags: false,
        },
    ),
    ("seal a.mt", Job::Seal { index: "a.mt" }),
    (
        "proof a.mt --log a.log --proof a.proof",
        Job::Carry {
            index: "a.mt",
            log: "a.log",
            proof: "a.proof",
        },
    ),
    (
        "proof --log a.proof --root 00010203040506070809101112131415161718192021222324252627282930ff",
        Job::Prove {
            log: "a.proof",
            root: ROOT,
        },
    ),
];

#[test]
fn each_command_has_a_job(rt: HostRuntime) {
    check_jobs(&rt, &JOBS);
}

// Lists lines that leave out what a row requires, or give what it does not name.
const OUT_OF_ROW: [&str; 39] = [
    "",
    "scans",
    "Shape a.mt",
    // Leave out what a row requires.
    "scan",
    "scan --metric l1",
    "scan --dim 2",
    "create --metric l1 --dim 2",
    "create a.mt --dim 2",
    "session",
    "shape",
    "stats",
    "dump",
    "show a.mt",
    "audit --workers 2",
    "verify a.mt",
    "check --log a.log",
    "join a.mt --other b.mt",
    "join a.mt --radius 1",
    "gen a.mt --metric l1 --dim 2",
    "migrate a.mt",
    "batch",
    "seal",
    "proof",
    "proof a.mt --log a.log",
    "proof --log a.proof",
    // Give what a row doesn't name.
    "scan a.mt --metric l1 --dim 2",
    "scan --metric l1 --dim 2 --log a.log",
    "shape a.mt --workers 1",
    "stats a.mt --log a.log",
    "dump a.mt --tags show",
    "show a.mt --log a.log --radius 1",
    "show a.mt --log a.log --marks some",
    "audit a.mt --radius 1",
    "session a.mt --metric l1",
    "verify a.mt --log a.log --tags show",
    "gen a.mt --metric l1 --dim 2 --count 4 --max 9",
    "seal a.mt --log a.log",
    "proof --log a.proof --proof b.proof",
    "proof a.mt --log a.log --proof a.proof --root 00",
];

#[test]
fn rows_are_kept(rt: HostRuntime) {
    check_no_jobs(&rt, &OUT_OF_ROW);
}

// Lists lines whose values are in their ranges.
const IN_RANGE: [(&str, Job<&str>); 11] = [
    (
        "scan --metric hamming --dim 1",
        Job::Scan {
            space: SpaceName {
                metric: MetricName::Hamming,
                dim: 1,
            },
            limit: 16777216,
            show_tags: false,
        },
    ),
    (
        "scan --metric max --dim 64",
        Job::Scan {
            space: SpaceName {
                metric: MetricName::Max,
                dim: 64,
            },
            limit: 16777216,
            show_tags: false,
        },
    ),
    (
        "scan --metric kendall --dim 3",
        Job::Scan {
            space: SpaceName {
                metric: MetricName::Kendall,
                dim: 3,
            },
            limit: 16777216,
            show_tags: false,
        },
    ),
    (
        "scan --metric hausdorff --dim 3",
        Job::Scan {
            space: SpaceName {
                metric: MetricName::Hausdorff,
                dim: 3,
            },
            limit: 16777216,
            show_tags: false,
        },
    ),
    (
        "scan --metric mixsum --dim 4",
        Job::Scan {
            space: SpaceName {
                metric: MetricName::MixSum,
                dim: 4,
            },
            limit: 16777216,
            show_tags: false,
        },
    ),
    (
        "scan --metric mixmax --dim 64",
        Job::Scan {
            space: SpaceName {
                metric: MetricName::MixMax,
                dim: 64,
            },
            limit: 16777216,
            show_tags: false,
        },
    ),
    (
        "scan --metric l1cap --dim 5",
        Job::Scan {
            space: SpaceName {
                metric: MetricName::L1Cap,
                dim: 5,
            },
            limit: 16777216,
            show_tags: false,
        },
    ),
    // Have numbers of 1 to 20 decimal digits.
    ("scan --metric l1 --dim 002", SCAN),
    ("scan --metric l1 --dim 00000000000000000002", SCAN),
    ("scan --metric l1 --dim 2 --max 16777216", SCAN),
    ("scan --metric l1 --dim 2 --tags hide", SCAN),
];

// Lists lines in which a value is not in its range.
const OUT_OF_RANGE: [&str; 28] = [
    "scan --metric l2 --dim 2",
    "scan --metric L1 --dim 2",
    "scan --metric mixsum --dim 3",
    "scan --metric mixmax --dim 1",
    "scan --metric l1 --dim 0",
    "scan --metric l1 --dim 65",
    "scan --metric l1 --dim 000000000000000000002",
    "scan --metric l1 --dim +2",
    "scan --metric l1 --dim 2x",
    "scan --metric l1 --dim=",
    "scan --metric l1 --dim ",
    "scan --metric l1 --dim 2 --max 16777217",
    "scan --metric l1 --dim 2 --max 0",
    "scan --metric l1 --dim 2 --tags maybe",
    "create a.mt --metric l1 --dim 2 --promote mm",
    "create a.mt --metric l1 --dim 2 --split hyper",
    "session a.mt --workers 0",
    "session a.mt --workers 65",
    "join a.mt --other b.mt --radius 18446744073709551616",
    "gen a.mt --metric l1 --dim 2 --count 0",
    "gen a.mt --metric l1 --dim 2 --count 1048577",
    "gen a.mt --metric l1 --dim 2 --count 4 --seed 4294967296",
    "gen a.mt --metric kendall --dim 2 --count 4",
    "gen a.mt --metric hausdorff --dim 2 --count 4",
    "proof --log a.proof --root 00010203040506070809101112131415161718192021222324252627282930fF",
    "proof --log a.proof --root 00010203040506070809101112131415161718192021222324252627282930f",
    "proof --log a.proof --root 00010203040506070809101112131415161718192021222324252627282930ff00",
    "proof --log a.proof --root 00010203040506070809101112131415161718192021222324252627282930fg",
];

#[test]
fn values_keep_their_ranges(rt: HostRuntime) {
    check_jobs(&rt, &IN_RANGE);
    check_no_jobs(&rt, &OUT_OF_RANGE);
}

// Lists lines whose words stand in any order.
const ANY_ORDER: [(&str, Job<&str>); 9] = [
    ("scan --metric=l1 --dim=2", SCAN),
    ("--dim 2 scan --metric l1", SCAN),
    ("--dim 2 --metric l1 -- scan", SCAN),
    ("--dim 2 --metric l1 scan --", SCAN),
    // Have a hyphen alone or the empty word, which are words like others.
    (
        "session -",
        Job::Session {
            index: "-",
            log: None,
            workers: 1,
            show_tags: false,
        },
    ),
    (
        "session ",
        Job::Session {
            index: "",
            log: None,
            workers: 1,
            show_tags: false,
        },
    ),
    (
        "session -- --log",
        Job::Session {
            index: "--log",
            log: None,
            workers: 1,
            show_tags: false,
        },
    ),
    (
        "session a.mt --log=-x",
        Job::Session {
            index: "a.mt",
            log: Some("-x"),
            workers: 1,
            show_tags: false,
        },
    ),
    (
        "session a.mt --log=",
        Job::Session {
            index: "a.mt",
            log: Some(""),
            workers: 1,
            show_tags: false,
        },
    ),
];

// Lists lines whose words make no job in any order.
const NO_ORDER: [&str; 12] = [
    "scan --metric l1 --dim 2 --dim 2",
    "scan --metric l1 --dim 2 --metric=l1",
    "scan --metric l1 --dim",
    "session a.mt b.mt",
    "session -a",
    "session a.mt --log -x",
    "session a.mt --log -- x",
    // Ask for an abbreviation, help or a version, where there is none.
    "session a.mt --work 2",
    "session a.mt --unknown 2",
    "--help",
    "shape a.mt --help",
    "--version",
];

#[test]
fn words_stand_in_any_order(rt: HostRuntime) {
    check_jobs(&rt, &ANY_ORDER);
    check_no_jobs(&rt, &NO_ORDER);
}

const NO_FILES: FileNames<&str> = FileNames {
    index: None,
    writes: false,
    other: None,
    log_in: None,
    makes: Makes::Nothing,
};

const INDEX: FileNames<&str> = FileNames {
    index: Some("a.mt"),
    writes: false,
    other: None,
    log_in: None,
    makes: Makes::Nothing,
};

const MADE: FileNames<&str> = FileNames {
    makes: Makes::Index,
    ..INDEX
};

const WRITTEN: FileNames<&str> = FileNames {
    writes: true,
    ..INDEX
};

// Lists lines, and the files that their jobs name.
const FILES: [(&str, FileNames<&str>); 16] = [
    ("scan --metric l1 --dim 2", NO_FILES),
    ("create a.mt --metric l1 --dim 2", MADE),
    ("session a.mt", WRITTEN),
    (
        "session a.mt --log a.log",
        FileNames {
            makes: Makes::Log("a.log"),
            ..WRITTEN
        },
    ),
    ("shape a.mt", INDEX),
    (
        "show a.mt --log a.log",
        FileNames {
            log_in: Some("a.log"),
            ..INDEX
        },
    ),
    ("audit a.mt", INDEX),
    (
        "verify a.mt --log a.log",
        FileNames {
            log_in: Some("a.log"),
            ..INDEX
        },
    ),
    (
        "check a.mt --log a.log --other b.mt",
        FileNames {
            other: Some("b.mt"),
            log_in: Some("a.log"),
            ..INDEX
        },
    ),
    (
        "join a.mt --other b.mt --radius 1 --log a.log",
        FileNames {
            other: Some("b.mt"),
            makes: Makes::Log("a.log"),
            ..INDEX
        },
    ),
    ("gen a.mt --metric l1 --dim 2 --count 1", MADE),
    (
        "migrate a.mt --other b.mt",
        FileNames {
            other: Some("b.mt"),
            ..MADE
        },
    ),
    (
        "batch a.mt --log a.log",
        FileNames {
            makes: Makes::Log("a.log"),
            ..INDEX
        },
    ),
    ("seal a.mt", INDEX),
    (
        "proof a.mt --log a.log --proof a.proof",
        FileNames {
            log_in: Some("a.log"),
            makes: Makes::Log("a.proof"),
            ..INDEX
        },
    ),
    (
        "proof --log a.proof --root 00010203040506070809101112131415161718192021222324252627282930ff",
        FileNames {
            log_in: Some("a.proof"),
            ..NO_FILES
        },
    ),
];

// Says whether the job of a line names these files.
fn has_files(rt: &(impl AllocGlobal + Abort), line: &str, files: &FileNames<&str>) -> bool {
    let words = words(rt, line);
    match read_job(rt.alloc(), &words) {
        Ok(job) => files_of(job) == *files,
        Err(_) => false,
    }
}

#[test]
fn jobs_name_their_files(rt: HostRuntime) {
    for (line, files) in &FILES {
        assert!(rt; has_files(&rt, line, files), "{line}");
    }
}

// Lists the metrics and their numbers.
const KINDS: [(MetricName, u8); 8] = [
    (MetricName::Hamming, 1),
    (MetricName::L1, 2),
    (MetricName::Max, 3),
    (MetricName::Kendall, 4),
    (MetricName::Hausdorff, 5),
    (MetricName::MixSum, 6),
    (MetricName::MixMax, 7),
    (MetricName::L1Cap, 8),
];

#[test]
fn names_have_their_numbers(rt: HostRuntime) {
    for (metric, kind) in &KINDS {
        holds(&rt, metric.kind() == *kind);
    }
    holds(&rt, Promote::Mrad.number() == 1);
    holds(&rt, Promote::Mmrad.number() == 2);
    holds(&rt, Split::Hyperplane.number() == 1);
    holds(&rt, Split::Balanced.number() == 2);
    reads_as_clap();
}

// Lists lines that are no job, and what is wrong with them.
const COMPLAINTS: [(&str, &str); 13] = [
    ("list a.mt", "there is no command list"),
    ("scan --dim 2", "scan needs --metric"),
    ("create --metric l1 --dim 2", "create needs INDEX"),
    ("proof --log a.log", "proof needs --root"),
    ("proof a.mt --log a.log", "proof needs --proof"),
    ("scan a.mt --metric l1 --dim 2", "scan takes no INDEX"),
    ("audit a.mt --radius 3", "audit takes no --radius"),
    (
        "scan --metric l2 --dim 2",
        "--metric may not be l2: it is hamming, l1, max, kendall, hausdorff, mixsum, mixmax or l1cap",
    ),
    (
        "scan --metric l1 --dim 65",
        "--dim may not be 65: it is a whole number from 1 to 64",
    ),
    (
        "scan --metric mixsum --dim 3",
        "--dim may not be 3: it is an even number where the metric is mixsum or mixmax",
    ),
    (
        "gen a.mt --metric kendall --dim 2 --count 5",
        "--metric may not be kendall: it is hamming, l1, max, mixsum, mixmax or l1cap, the metrics that gen makes points of",
    ),
    (
        "batch a.mt --workers 0",
        "--workers may not be 0: it is a whole number from 1 to 64",
    ),
    (
        "session a.mt --tags on",
        "--tags may not be on: it is show or hide",
    ),
];

// Gives the words of a complaint.
fn told(rt: &(impl AllocGlobal + Abort), complaint: &Complaint<'_>) -> String {
    format!(in rt.alloc(); "{}", complaint).expect(rt, "memory")
}

// Says whether this is what is wrong with a line.
fn complains(rt: &(impl AllocGlobal + Abort), line: &str, expected: &str) -> bool {
    let words = words(rt, line);
    match complaint_on(rt.alloc(), &words).expect(rt, "memory") {
        Some(complaint) => told(rt, &complaint).as_str() == expected,
        None => false,
    }
}

// Says whether nothing is wrong with a line.
fn is_right(rt: &(impl AllocGlobal + Abort), line: &str) -> bool {
    let words = words(rt, line);
    complaint_on(rt.alloc(), &words)
        .expect(rt, "memory")
        .is_none()
}

// Says whether what is wrong with no words is that there is no command.
fn needs_a_command(rt: &(impl AllocGlobal + Abort)) -> bool {
    let none = Vec::new(rt.alloc());
    match complaint_on(rt.alloc(), &none).expect(rt, "memory") {
        Some(Complaint::NoCommand) => true,
        _ => false,
    }
}

// Tells what is wrong with words that are no job, and that nothing is wrong with a job.
#[test]
fn words_that_are_no_job_are_explained(rt: HostRuntime) {
    for (line, expected) in &COMPLAINTS {
        assert!(rt; complains(&rt, line, expected), "{line}");
    }
    holds(&rt, is_right(&rt, "scan --metric l1 --dim 2"));
    holds(&rt, needs_a_command(&rt));
}
