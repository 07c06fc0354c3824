ghost use Rattle.std.specs.Prelude.{◌≤◌};

use metric_laws::Rows;
use rows_text::{Command, read_script};
use std::alloc::{AllocError, Global};
use std::process::Abort;

// Writes the points of rows, one after another.
fn points(alloc: Global, rows: &Rows) -> Result<String, AllocError> {
    let mut text = String::new(alloc);
    for i in 0..rows.len() {
        let point = format!(in alloc; " {:?}", rows.point(i))?;
        text.push_str(point.as_str())?;
    }
    Ok(text)
}

// Writes a command that loads rows.
fn shown_load(alloc: Global, name: &str, rows: &Rows) -> Result<String, AllocError> {
    let points = points(alloc, rows)?;
    format!(in alloc; "{name}{points}")
}

// Writes a command that loads rows with tags.
fn shown_tags(alloc: Global, tags: &[u64], rows: &Rows) -> Result<String, AllocError> {
    let name = format!(in alloc; "tload {:?}", tags)?;
    shown_load(alloc, name.as_str(), rows)
}

// Writes a command in words.
fn shown(alloc: Global, command: &Command) -> Result<String, AllocError> {
    match command {
        Command::Insert(p) => format!(in alloc; "insert {:?}", p.as_slice()),
        Command::Load(rows) => shown_load(alloc, "load", rows),
        Command::Range { r, q } => format!(in alloc; "range {} {:?}", r, q.as_slice()),
        Command::Nearest { k, q } => format!(in alloc; "nearest {} {:?}", k, q.as_slice()),
        Command::Count => String::from_str(alloc, "count"),
        Command::Bad(why) => format!(in alloc; "{:?}", why),
        Command::TagInsert { tag, p } => format!(in alloc; "tinsert {} {:?}", tag, p.as_slice()),
        Command::TagLoad { tags, rows } => shown_tags(alloc, tags.as_slice(), rows),
        Command::Cursor(q) => format!(in alloc; "cursor {:?}", q.as_slice()),
        Command::Next { cursor, n } => format!(in alloc; "next {cursor} {n}"),
        Command::Close(cursor) => format!(in alloc; "close {cursor}"),
    }
}

// Writes commands, with a bar after each.
fn shown_all(rt: &(impl AllocGlobal + Abort), commands: &[Command]) -> String {
    let mut found = String::new(rt.alloc());
    for command in commands {
        let one = shown(rt.alloc(), command).expect(rt, "memory");
        found.push_str(one.as_str()).expect(rt, "memory");
        found.push('|').expect(rt, "memory");
    }
    found
}

// Reads a script over points of `words` coordinates.
fn commands_in(rt: &(impl AllocGlobal + Abort), words: usize, script: &[u8]) -> Vec<Command>
    requires some { 1 ≤ words }
    requires few { words ≤ 64 }
{
    assert!(rt; script.len() < 1000);
    read_script(rt.alloc(), script, words).expect(rt, "memory")
}

// Checks the commands of a script, as they are written.
fn check_script(rt: &(impl AllocGlobal + Abort), words: usize, script: &[u8], expected: &str)
    requires some { 1 ≤ words }
    requires few { words ≤ 64 }
{
    let commands = commands_in(rt, words, script);
    let found = shown_all(rt, &commands);
    assert!(rt; found.as_str() == expected, "{expected}");
}

// Checks the commands of each script.
fn check_scripts(rt: &(impl AllocGlobal + Abort), words: usize, cases: &[(&[u8], &str)])
    requires some { 1 ≤ words }
    requires few { words ≤ 64 }
{
    for (script, expected) in cases {
        check_script(rt, words, script, expected);
    }
}

// Lists scripts and their commands.
const COMMANDS: [(&[u8], &str); 8] = [
    (b"", ""),
    (
        b"insert,3,4\nrange,7,0,0\nnearest,1,0,0\ntinsert,900,5,6\n",
        "insert [3, 4]|range 7 [0, 0]|nearest 1 [0, 0]|tinsert 900 [5, 6]|",
    ),
    (
        b"cursor,1,2\nnext,0,5\nclose,0\ncount\n",
        "cursor [1, 2]|next 0 5|close 0|count|",
    ),
    (b"load,2\n1,2\n3,4\ncount\n", "load [1, 2] [3, 4]|count|"),
    (b"tload,2\n7,1,2\n8,3,4\n", "tload [7, 8] [1, 2] [3, 4]|"),
    // Have numbers of any number of digits, but without a sign, and at their limits.
    (
        b"insert,4294967295,00000000000000000000000000000000000000001\ninsert,4294967296,0\n",
        "insert [4294967295, 1]|Number|",
    ),
    (
        b"range,18446744073709551615,0,0\nrange,18446744073709551616,0,0\n",
        "range 18446744073709551615 [0, 0]|Number|",
    ),
    (
        b"range,340282366920938463463374607431768211456,0,0\nrange,,0,0\nrange,+1,0,0\n",
        "Number|Number|Number|",
    ),
];

#[test]
fn commands_are_read(rt: HostRuntime) {
    check_scripts(&rt, 2, &COMMANDS);
}

// Lists scripts whose records are refused.
const REFUSED: [(&[u8], &str); 9] = [
    (b"insert,1\n", "Dimension|"),
    (
        b"insert,1,2,3\ninsert,x\ninsert,x,2\n",
        "Dimension|Dimension|Number|",
    ),
    (b"range,x,0,0\nrange,x,0\n", "Number|Dimension|"),
    (
        b"nearest,0,0,0\nnearest,0,0,x\nnearest,1,0\n",
        "Count|Number|Dimension|",
    ),
    (b"tinsert,x,1,2\ntinsert,1,2\n", "Number|Dimension|"),
    (b"cursor,1\ncursor,1,-2\n", "Dimension|Number|"),
    (
        b"next,0\nnext,4294967296,1\nnext,0,x\nnext,0,0\nnext,x,0\n",
        "Command|Number|Number|Count|Number|",
    ),
    (b"close\nclose,x\nclose,1,2\n", "Command|Number|Command|"),
    (b"count,1\nhello\nInsert,1,2\n", "Command|Command|Command|"),
];

#[test]
fn records_are_refused(rt: HostRuntime) {
    check_scripts(&rt, 2, &REFUSED);
}

// Lists scripts that load rows.
const LOADS: [(&[u8], &str); 13] = [
    // Use no record in the first three loads.
    (
        b"load\ncount\nload,x\ncount\nload,0\ncount\nload,1,2\n",
        "Command|count|Number|count|Count|count|Command|",
    ),
    // Use all rows where one is refused. Blame no row where there are too few.
    (b"load,2\n1,2\n3\ncount\n", "Row(1)|count|"),
    (b"load,3\n1,2\nx,4\n5\ncount\n", "Row(1)|count|"),
    (b"load,3\n1,2\n3\n", "Short|"),
    (b"load,18446744073709551615\n1,2\ncount\n", "Short|"),
    (b"load,1\n", "Short|"),
    (b"tload,2\n7,1,2\nx,3,4\ncount\n", "Row(1)|count|"),
    (b"tload,1\n1,2\ncount\n", "Row(0)|count|"),
    (b"tload,1\n1,2,4294967296\ntload,1\n", "Row(0)|Short|"),
    (
        b"tload,1\n18446744073709551615,2,3\n",
        "tload [18446744073709551615] [2, 3]|",
    ),
    // Take commands as rows too, and a blank line as none.
    (b"load,1\ncount\ncount\n", "Row(0)|count|"),
    (b"load,2\n1,2\n\n3,4\n", "load [1, 2] [3, 4]|"),
    (b"load,1\n1,2\nload,1\n3,4\n", "load [1, 2]|load [3, 4]|"),
];

#[test]
fn loads_use_their_rows(rt: HostRuntime) {
    check_scripts(&rt, 2, &LOADS);
}

// Lists scripts whose records are written in each way of CSV.
const CSV: [(&[u8], &str); 13] = [
    // Have a byte order mark, CR LF and quotes.
    (
        b"\xEF\xBB\xBFinsert,\" 3 \",4\r\nload,2\r\n1,2\r\n3\r\ninsert,1\r\nrange,x,0,0\r\nhello\r\nload,3\r\n1,2\r\n3,4\r\n",
        "insert [3, 4]|Row(1)|Dimension|Number|Command|Short|",
    ),
    // Have two marks, and drop one of them.
    (b"\xEF\xBB\xBF\xEF\xBB\xBFcount\ncount\n", "Command|count|"),
    // Have empty lines, which are no records. Have a line of blanks and an empty field in quotes, which are records.
    (b"\n\r\n\ncount\n\n", "count|"),
    (b" \ncount\n", "Command|count|"),
    (b"\"\"\ncount\n", "Command|count|"),
    // End a record by CR alone, and the last one by nothing.
    (b"count\rcount\r\rcount", "count|count|count|"),
    // Have fields in quotes that go over commas and ends of lines.
    (
        b"\"count\"\n\"co\"\"unt\"\n\"a,b\nc\"\ncount",
        "count|Command|Command|count|",
    ),
    (b"count\n\"count\ncount\ncount", "count|Command|"),
    (b"count\n\"count", "count|count|"),
    // Have a quote behind other text, which is a byte like others.
    (
        b"cou\"nt\n\"cou\"nt\n \"count\"\n",
        "Command|count|Command|",
    ),
    // Have a comma at the end, which makes one field more.
    (b"count,\n,\n", "Command|Command|"),
    // Have spaces and tabs at the ends, which go, within quotes too.
    (
        b"\t count \t\n\" count\t\"\nco unt\n",
        "count|count|Command|",
    ),
    (
        b"insert,\t1 , 2\t\nload , 1\n 5\t,\t6 \n",
        "insert [1, 2]|load [5, 6]|",
    ),
];

#[test]
fn records_are_those_of_csv(rt: HostRuntime) {
    check_scripts(&rt, 2, &CSV);
}

// Lists scripts over points of one coordinate.
const OF_ONE: [(&[u8], &str); 3] = [
    (
        b"insert,5\ninsert,5,6\ninsert\n",
        "insert [5]|Dimension|Dimension|",
    ),
    (
        b"tinsert,900,5\ninsert,7\nrange,10,5\n",
        "tinsert 900 [5]|insert [7]|range 10 [5]|",
    ),
    (b"tload,2\n7,1\nx,2\n", "Row(1)|"),
];

// Lists a script over points of twenty coordinates.
const OF_TWENTY: [(&[u8], &str); 1] = [(
    b"insert,1,2,3,4,5,6,7,8,9,10,11,12,13,14,15,16,17,18,19,20\ninsert,1,2\n",
    "insert [1, 2, 3, 4, 5, 6, 7, 8, 9, 10, 11, 12, 13, 14, 15, 16, 17, 18, 19, 20]|Dimension|",
)];

#[test]
fn points_have_the_space_s_coordinates(rt: HostRuntime) {
    check_scripts(&rt, 1, &OF_ONE);
    check_scripts(&rt, 20, &OF_TWENTY);
}
