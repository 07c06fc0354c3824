use crate::{
    CarriedSizes, Description, PlanSizes, RootDigest, SessionSizes, Shape, Sizes, TaggedHit,
    mtree_audit, mtree_carry, mtree_check, mtree_create_in, mtree_describe, mtree_dump,
    mtree_insert_plan, mtree_load_plan, mtree_nearest, mtree_nearest_each, mtree_proof,
    mtree_range, mtree_range_each, mtree_seal, mtree_session_in, mtree_session_plan, mtree_shape,
    mtree_show, mtree_stats, mtree_verify,
};
use plan_disk::Step;
use std::alloc::{AllocError, Global};
use std::test::Fail;

// The first words of the pages of a file, of 4 bytes each: an index of the numbers 4 and 9 under L1, with the tags 7 and 8.
const PAGES: [&[u32]; 4] = [
    &[0x4d54_5245, 0x4549_4458, 0x0002_0201, 0x0201_0000, 7],
    &[0xa500_0000, 0, 0, 1, 3, 0, 2, 4],
    &[],
    &[2, 0, 0, 0, 0, 0, 7, 0, 0, 4, 1, 0, 8, 0, 0, 9],
];

fn file(alloc: Global) -> Result<Vec<u8>, AllocError> {
    let mut bytes = Vec::new(alloc);
    for page in &PAGES {
        for word in page.iter() {
            bytes.extend_from_slice(&word.to_be_bytes())?;
        }
        for _ in page.len()..1024 {
            bytes.extend_from_slice(&[0; 4])?;
        }
    }
    Ok(bytes)
}

const NO_HIT: TaggedHit = TaggedHit {
    id: 99,
    distance: 99,
    tag: 99,
};

const FOUR: TaggedHit = TaggedHit {
    id: 0,
    distance: 1,
    tag: 7,
};

const NINE: TaggedHit = TaggedHit {
    id: 1,
    distance: 4,
    tag: 8,
};

const NINE_ITSELF: TaggedHit = TaggedHit {
    id: 1,
    distance: 0,
    tag: 8,
};

const NOTHING: Sizes = Sizes { hits: 0, log: 0 };

// Ranges: the point, the radius, the room for hits, and the expected status, hits and number of hits.
#[test]
fn ranges(rt: HostRuntime) -> Result<(), Fail> {
    let alloc = rt.alloc();
    let file = file(alloc)?;
    let cases: [(&[u32], u64, usize, u8, [TaggedHit; 2], usize); 6] = [
        (&[5], 4, 2, 0, [FOUR, NINE], 2),
        (&[5], 1, 2, 0, [FOUR, NO_HIT], 1),
        (&[5], 0, 0, 0, [NO_HIT, NO_HIT], 0),
        (&[5], 4, 1, 4, [NO_HIT, NO_HIT], 2),
        (&[5, 5], 4, 2, 2, [NO_HIT, NO_HIT], 0),
        (&[], 4, 2, 2, [NO_HIT, NO_HIT], 0),
    ];
    for (point, radius, room, status, wanted, count) in &cases {
        let mut hits = [NO_HIT; 2];
        let mut sizes = NOTHING;
        let room = (*room).min(2);
        let found = mtree_range(
            alloc,
            &file,
            point,
            *radius,
            &mut hits[..room],
            &mut [],
            &mut sizes,
        );
        assert!(rt; found == *status);
        assert!(rt; hits == *wanted);
        assert!(rt;
            sizes
                == Sizes {
                    hits: *count,
                    log: 0
                }
        );
    }
    Ok(())
}

// Queries about two points: the points, the number of nearest, the room for hits, and the expected status, hits, counts and size.
#[test]
fn nearest_to_each(rt: HostRuntime) -> Result<(), Fail> {
    let alloc = rt.alloc();
    let file = file(alloc)?;
    let cases: [(&[u32], u64, usize, u8, [TaggedHit; 2], [usize; 2], usize); 4] = [
        (&[5, 9], 1, 2, 0, [FOUR, NINE_ITSELF], [1, 1], 2),
        (&[5, 9], 1, 1, 4, [NO_HIT, NO_HIT], [7, 7], 2),
        (&[5, 9, 9], 1, 2, 2, [NO_HIT, NO_HIT], [7, 7], 0),
        (&[5, 9], 0, 2, 2, [NO_HIT, NO_HIT], [7, 7], 0),
    ];
    for (points, count, room, status, wanted, each, all) in &cases {
        let mut hits = [NO_HIT; 2];
        let mut counts = [7usize; 2];
        let mut size = 9;
        let room = (*room).min(2);
        let found = mtree_nearest_each(
            alloc,
            &file,
            points,
            *count,
            &mut hits[..room],
            counts.as_mut_slice(),
            &mut size,
        );
        assert!(rt; found == *status);
        assert!(rt; hits == *wanted);
        assert!(rt; (counts, size) == (*each, *all));
    }
    Ok(())
}

// Ranges about two points, where the second has more hits; and a file with a damaged page.
#[test]
fn ranges_about_each(rt: HostRuntime) -> Result<(), Fail> {
    let alloc = rt.alloc();
    let mut file = file(alloc)?;
    let mut hits = [NO_HIT; 4];
    let mut counts = [7usize; 2];
    let mut size = 9;
    let found = mtree_range_each(
        alloc,
        &file,
        &[9, 5],
        4,
        hits.as_mut_slice(),
        counts.as_mut_slice(),
        &mut size,
    );
    assert!(rt; (found, counts, size) == (0, [1, 2], 3));
    assert!(rt; hits == [NINE_ITSELF, FOUR, NINE, NO_HIT]);
    let none = mtree_range_each(alloc, &file, &[], 4, &mut [], &mut [], &mut size);
    assert!(rt; (none, size) == (0, 0));
    if file.len() > 12288 {
        file[12288] = 15;
    }
    let damaged = mtree_range_each(
        alloc,
        &file,
        &[9, 5],
        4,
        hits.as_mut_slice(),
        counts.as_mut_slice(),
        &mut size,
    );
    assert!(rt; (damaged, counts, size) == (9, [1, 2], 0));
    Ok(())
}

const UNSAID: Description = Description {
    kind: 0,
    dim: 0,
    promote: 0,
    split: 0,
    limit: 0,
    generation: 0,
    root: 0,
    height: 0,
    count: 0,
    pages: 0,
};

#[test]
fn descriptions(rt: HostRuntime) -> Result<(), Fail> {
    let alloc = rt.alloc();
    let file = file(alloc)?;
    let mut said = UNSAID;
    let none = mtree_describe(alloc, &[], &mut said);
    assert!(rt; (none, said) == (6, UNSAID));
    let status = mtree_describe(alloc, &file, &mut said);
    let wanted = Description {
        kind: 2,
        dim: 1,
        promote: 2,
        split: 1,
        limit: 7,
        generation: 1,
        root: 3,
        height: 0,
        count: 2,
        pages: 4,
    };
    assert!(rt; (status, said) == (0, wanted));
    let shape = b"height 0\nobjects 2\nnodes 1\n0 2 - -\n";
    let mut text = [0u8; 80];
    let mut size = 0;
    let status = mtree_shape(alloc, &file, text.as_mut_slice(), &mut size);
    assert!(rt; status == 0);
    assert!(rt; &text[..size.min(80)] == shape.as_slice());
    let status = mtree_dump(alloc, &file, text.as_mut_slice(), &mut size);
    assert!(rt; status == 0);
    assert!(rt; &text[..size.min(80)] == b"tload,2\n7,4\n8,9\n".as_slice());
    let status = mtree_stats(alloc, &file, text.as_mut_slice(), &mut size);
    assert!(rt; (status, size) == (4, 159));
    let status = mtree_seal(alloc, &file, text.as_mut_slice(), &mut size);
    assert!(rt; (status, size) == (0, 72));
    assert!(rt; &text[..7] == b"sealed ".as_slice());
    Ok(())
}

// Where there is a buffer for it, the log's frame is handed over, and the file verifies it.
#[test]
fn logs(rt: HostRuntime) -> Result<(), Fail> {
    let alloc = rt.alloc();
    let file = file(alloc)?;
    let mut hits = [NO_HIT; 2];
    let mut sizes = NOTHING;
    let mut log = [9u8; 100];
    let short = mtree_nearest(
        alloc,
        &file,
        &[5],
        2,
        hits.as_mut_slice(),
        &mut log[..1],
        &mut sizes,
    );
    assert!(rt; (short, sizes.hits, log[0]) == (4, 2, 9));
    let found = mtree_nearest(
        alloc,
        &file,
        &[5],
        2,
        hits.as_mut_slice(),
        log.as_mut_slice(),
        &mut sizes,
    );
    assert!(rt; (found, hits) == (0, [FOUR, NINE]));
    let frame = &log[..sizes.log.min(100)];
    let mut text = [0u8; 100];
    let mut size = 0;
    let verified = mtree_verify(alloc, &file, frame, text.as_mut_slice(), &mut size);
    assert!(rt; verified == 0);
    assert!(rt;
        &text[..size.min(100)] == b"frame 0 accepted\nlog accepted, file not audited\n".as_slice()
    );
    let shown = mtree_show(alloc, &file, frame, text.as_mut_slice(), &mut size);
    assert!(rt; (shown, size) == (4, 173));
    let checked = mtree_check(alloc, &file, frame, text.as_mut_slice(), &mut size);
    assert!(rt; checked == 0);
    assert!(rt;
        &text[..size.min(100)]
            == b"file sound\nframe 0 complete\nnearest,2,5\nhits 2\n0 1\n1 4\nlog complete\n".as_slice()
    );
    let none = mtree_nearest(
        alloc,
        &file,
        &[5],
        0,
        hits.as_mut_slice(),
        &mut [],
        &mut sizes,
    );
    assert!(rt; (none, sizes) == (2, NOTHING));
    Ok(())
}

#[test]
fn texts(rt: HostRuntime) -> Result<(), Fail> {
    let alloc = rt.alloc();
    let mut file = file(alloc)?;
    let sound = b"sound\nobjects 2\nnodes 1\n";
    let mut text = [7u8; 40];
    let mut size = 0;
    let status = mtree_audit(alloc, &file, &mut text[..23], &mut size);
    assert!(rt; (status, size, text) == (4, 24, [7; 40]));
    let status = mtree_audit(alloc, &file, text.as_mut_slice(), &mut size);
    assert!(rt; status == 0);
    assert!(rt; &text[..size.min(40)] == sound.as_slice());
    let status = mtree_audit(alloc, &[], text.as_mut_slice(), &mut size);
    assert!(rt; status == 6);
    assert!(rt; &text[..size.min(40)] == b"fault notindex short\n".as_slice());
    if file.len() > 12288 {
        file[12288] = 15;
    }
    let status = mtree_audit(alloc, &file, text.as_mut_slice(), &mut size);
    assert!(rt; status == 1);
    assert!(rt; &text[..size.min(40)] == b"rejected page bad 3 kind\n".as_slice());
    let mut sizes = NOTHING;
    let status = mtree_range(alloc, &file, &[5], 4, &mut [], &mut [], &mut sizes);
    assert!(rt; (status, sizes) == (9, NOTHING));
    Ok(())
}

// A log of a file is carried. The sizes are told first, and then the frame and the lines are handed over.
#[test]
fn carries_a_log(rt: HostRuntime) -> Result<(), Fail> {
    let alloc = rt.alloc();
    let file = file(alloc)?;
    let mut hits = [NO_HIT; 2];
    let mut log = [0u8; 100];
    let mut found = NOTHING;
    let status = mtree_nearest(
        alloc,
        &file,
        &[5],
        2,
        hits.as_mut_slice(),
        log.as_mut_slice(),
        &mut found,
    );
    assert!(rt; status == 0);
    let frame = &log[..found.log.min(100)];
    let mut sizes = CarriedSizes {
        carried: 0,
        text: 0,
    };
    let short = mtree_carry(alloc, &file, frame, &mut [], &mut [], &mut sizes);
    assert!(rt; (short, sizes.text) == (4, 28));
    let mut carried = vec![in alloc; 0u8; sizes.carried]?;
    let mut text = [0u8; 28];
    let status = mtree_carry(
        alloc,
        &file,
        frame,
        &mut carried,
        text.as_mut_slice(),
        &mut sizes,
    );
    assert!(rt; (status, sizes.carried) == (0, carried.len()));
    assert!(rt; text.as_slice() == b"frame 0 carried\nlog carried\n".as_slice());
    Ok(())
}

// Bytes of carried logs, with the expected status and text.
#[test]
fn carried_logs(rt: HostRuntime) -> Result<(), Fail> {
    let cases: [(&[u8], u8, &str); 3] = [
        (&[], 0, "log proved\n"),
        (b"\0\0", 1, "log rejected cut\n"),
        (
            b"\0\0\0\0\0\0\0\x04MTPX",
            1,
            "frame 0 rejected magic\nlog rejected\n",
        ),
    ];
    for (logs, status, wanted) in &cases {
        let mut text = [0u8; 40];
        let mut size = 0;
        let root = RootDigest { bytes: [0; 32] };
        let found = mtree_proof(rt.alloc(), logs, &root, text.as_mut_slice(), &mut size);
        assert!(rt; found == *status);
        assert!(rt; &text[..size.min(40)] == wanted.as_bytes());
    }
    Ok(())
}

// A buffer with a file of 16384 bytes at its front.
fn buffer(alloc: Global, room: usize) -> Result<Vec<u8>, AllocError> {
    let mut bytes = file(alloc)?;
    bytes.resize(room, 0)?;
    Ok(bytes)
}

// Scripts: whether tags are shown, the script, the room for the file, the size that is told of it, the room for the text, and the expected
// status, size of the file and text.
type Script = (
    bool,
    &'static [u8],
    usize,
    usize,
    usize,
    u8,
    usize,
    &'static str,
);

const SCRIPTS: [Script; 9] = [
    (false, b"count\n", 16384, 16384, 8, 0, 16384, "count 2\n"),
    (
        true,
        b"range,0,4\n",
        16384,
        16384,
        14,
        0,
        16384,
        "hits 1\n0 7 0\n",
    ),
    (
        false,
        b"insert,5\nrange,1,5\n",
        24576,
        16384,
        20,
        0,
        20480,
        "id 2\nhits 2\n2 0\n0 1\n",
    ),
    (false, b"insert,5\n", 16384, 16384, 5, 4, 20480, ""),
    (false, b"insert,5\n", 24576, 16384, 4, 4, 20480, ""),
    (false, b"insert,5\n", 24576, 24577, 5, 2, 0, ""),
    (
        false,
        b"count\n",
        16384,
        0,
        22,
        6,
        0,
        "fault notindex short\n",
    ),
    (
        false,
        b"insert,x\n",
        16384,
        16384,
        15,
        0,
        16384,
        "refused number\n",
    ),
    (false, b"", 16384, 16384, 0, 0, 16384, ""),
];

#[test]
fn sessions_in_a_buffer(rt: HostRuntime) -> Result<(), Fail> {
    let alloc = rt.alloc();
    for (show, script, room, size, text_room, status, after, wanted) in &SCRIPTS {
        let mut room = buffer(alloc, *room)?;
        let before = room.clone()?;
        let mut text = vec![in alloc; 0u8; *text_room]?;
        let mut log = [0u8; 200];
        let mut sizes = SessionSizes {
            file: 9,
            text: 9,
            log: 9,
        };
        let found = mtree_session_in(
            alloc,
            &mut room,
            *size,
            *show,
            script,
            &mut text,
            log.as_mut_slice(),
            &mut sizes,
        );
        assert!(rt; found == *status);
        assert!(rt; sizes.file == *after);
        assert!(rt; found == 4 || &text[..sizes.text.min(*text_room)] == wanted.as_bytes());
        assert!(rt; (room == before) == (*after != 20480 || found == 4));
    }
    Ok(())
}

// Does a plan's writes to a file.
fn after_plan(
    alloc: Global,
    file: &[u8],
    steps: &[Step],
    written: &[u8],
) -> Result<Vec<u8>, AllocError> {
    let mut after = Vec::from_slice(alloc, file)?;
    let mut left = written;
    for step in steps {
        let (bytes, rest) = left.split_at(left.len().min(step.size as usize));
        left = rest;
        let at = (step.at as usize).min(100_000);
        if after.len() < at.saturating_add(bytes.len()) {
            after.resize(at.saturating_add(bytes.len()), 0)?;
        }
        after[at..at.saturating_add(bytes.len())].copy_from_slice(bytes);
    }
    Ok(after)
}

const NO_STEP: Step = Step {
    at: 0,
    size: 0,
    is_sync: false,
};

const NO_PLAN: PlanSizes = PlanSizes {
    steps: 9,
    written: 9,
    text: 9,
    log: 9,
};

// The plan of an insert: what it leaves is what the session leaves in a buffer.
#[test]
fn a_plan_leaves_what_the_session_leaves(rt: HostRuntime) -> Result<(), Fail> {
    let alloc = rt.alloc();
    let script = b"insert,5\n".as_slice();
    let mut steps = [NO_STEP; 20];
    let mut written = [0u8; 20_000];
    let mut text = [0u8; 5];
    let mut sizes = NO_PLAN;
    let file = file(alloc)?;
    let status = mtree_session_plan(
        alloc,
        &file,
        false,
        script,
        steps.as_mut_slice(),
        written.as_mut_slice(),
        text.as_mut_slice(),
        &mut [],
        &mut sizes,
    );
    assert!(rt; (status, sizes.text, sizes.log) == (0, 5, 0));
    assert!(rt; text.as_slice() == b"id 2\n".as_slice());
    let done = &steps[..sizes.steps.min(20)];
    assert!(rt; done.iter().filter(|step| step.is_sync).count() == 4);
    let planned = after_plan(alloc, &file, done, &written[..sizes.written.min(20_000)])?;
    let mut room = buffer(alloc, 20480)?;
    let mut left = SessionSizes {
        file: 0,
        text: 0,
        log: 0,
    };
    let status = mtree_session_in(
        alloc,
        &mut room,
        16384,
        false,
        script,
        text.as_mut_slice(),
        &mut [],
        &mut left,
    );
    assert!(rt; status == 0 && room == planned);
    let short = mtree_session_plan(
        alloc,
        &file,
        false,
        script,
        &mut [],
        &mut [],
        &mut [],
        &mut [],
        &mut sizes,
    );
    assert!(rt; (short, sizes.text) == (4, 5));
    Ok(())
}

// Plans of rows for the file of two numbers: the numbers, how many rows they are said to be, the expected status, and the replies to
// inserts and to a load.
type RowPlan = (&'static [u32], usize, u8, &'static [u8], &'static [u8]);

const ROW_PLANS: [RowPlan; 3] = [
    (&[5], 1, 0, b"id 2\n", b"refused notempty\n"),
    (&[], 0, 0, b"", b"refused count\n"),
    (&[5], 2, 2, b"", b""),
];

#[test]
fn plans_of_rows(rt: HostRuntime) -> Result<(), Fail> {
    let alloc = rt.alloc();
    let file = file(alloc)?;
    for (rows, count, status, inserted, loaded) in &ROW_PLANS {
        let mut steps = [NO_STEP; 20];
        let mut written = buffer(alloc, 20_000)?;
        let mut text = buffer(alloc, 20)?;
        let mut sizes = NO_PLAN;
        let found = mtree_insert_plan(
            alloc,
            &file,
            rows,
            1,
            *count,
            false,
            &[],
            steps.as_mut_slice(),
            written.as_mut_slice(),
            text.as_mut_slice(),
            &mut [],
            &mut sizes,
        );
        assert!(rt; (found, sizes.text) == (*status, inserted.len()));
        assert!(rt; text.starts_with(inserted));
        let found = mtree_load_plan(
            alloc,
            &file,
            rows,
            1,
            *count,
            false,
            &[],
            steps.as_mut_slice(),
            written.as_mut_slice(),
            text.as_mut_slice(),
            &mut [],
            &mut sizes,
        );
        assert!(rt; (found, sizes.text) == (*status, loaded.len()));
        assert!(rt; text.starts_with(loaded));
    }
    Ok(())
}

const SHAPE: Shape = Shape {
    kind: 2,
    dim: 1,
    promote: 2,
    split: 1,
    limit: 7,
};

// New indexes: the shape, the room, and the expected status and size. Only at status 0 the room is no longer all sevens.
#[test]
fn new_indexes(rt: HostRuntime) -> Result<(), Fail> {
    let alloc = rt.alloc();
    let cases: [(Shape, usize, u8, usize); 4] = [
        (Shape { dim: 65, ..SHAPE }, 16384, 2, 0),
        (Shape { limit: 0, ..SHAPE }, 16384, 2, 0),
        (SHAPE, 16383, 4, 16384),
        (SHAPE, 16384, 0, 16384),
    ];
    for (shape, size, status, wanted) in &cases {
        let mut room = vec![in alloc; 7u8; *size]?;
        let mut size = 9;
        let found = mtree_create_in(alloc, &mut room, shape, &mut size);
        assert!(rt; (found, size) == (*status, *wanted));
        assert!(rt; room.iter().all(|byte| *byte == 7) == (found != 0));
    }
    let mut room = vec![in alloc; 0u8; 16384]?;
    let mut size = 0;
    let made = mtree_create_in(alloc, &mut room, &SHAPE, &mut size);
    let mut text = [0u8; 40];
    let audited = mtree_audit(alloc, &room, text.as_mut_slice(), &mut size);
    assert!(rt; (made, audited) == (0, 0));
    assert!(rt; &text[..size.min(40)] == b"sound\nobjects 0\nnodes 1\n".as_slice());
    Ok(())
}
