//! Scripts and what they print.

use mt_run::run_script;
use mt_script::ScriptFault;
use mt_watch::Watchers;
use std::alloc::Global;
use std::io::Read;
use std::test::Fail;

/// A script, and what it must print.
#[derive(Drop)]
pub struct Case {
    script: Vec<u8>,
    want: Vec<u8>,
}

impl Case {
    /// A script without lines.
    pub fn new(alloc: Global) -> Case {
        Case {
            script: Vec::new(alloc),
            want: Vec::new(alloc),
        }
    }

    /// More of the script, and of what it must print.
    pub fn add(&mut self, script: &[u8], want: &[u8]) -> Result<(), Fail> {
        self.script.extend_from_slice(script)?;
        self.want.extend_from_slice(want)?;
        Ok(())
    }

    /// A line, and the line that answers it.
    pub fn line(&mut self, line: &str, answer: &str) -> Result<(), Fail> {
        self.add(line.as_bytes(), answer.as_bytes())?;
        self.add(b"\n", b"\n")
    }

    /// Lines, each with the line that answers it.
    pub fn lines(&mut self, lines: &[(&str, &str)]) -> Result<(), Fail> {
        for (line, answer) in lines {
            self.line(line, answer)?;
        }
        Ok(())
    }

    /// A byte of the script again and again. Nothing is printed for it.
    pub fn repeat(&mut self, byte: u8, count: usize) -> Result<(), Fail> {
        for _ in 0..count {
            self.script.push(byte)?;
        }
        Ok(())
    }

    /// How long the script is, in bytes.
    pub fn len(&self) -> usize {
        self.script.len()
    }

    /// The script.
    pub fn script(&self) -> &[u8] {
        self.script.as_slice()
    }

    /// What the script must print.
    pub fn want(&self) -> &[u8] {
        self.want.as_slice()
    }

    /// Whether the script prints what it must.
    pub fn holds(&self, alloc: Global) -> bool {
        prints(alloc, self.script(), self.want())
    }
}

/// Whether a script ends well, having printed a text.
pub fn prints(alloc: Global, mut script: &[u8], want: &[u8]) -> bool {
    ends(alloc, &mut script, Ok(()), want)
}

/// Whether a script that a reader gives ends so, having printed a text.
pub fn ends<R: Read>(
    alloc: Global,
    reader: &mut R,
    end: Result<(), ScriptFault>,
    want: &[u8],
) -> bool {
    let mut written = Vec::new(alloc);
    let result = run_script(alloc, reader, &mut written, Watchers::new(alloc));
    result == end && written.as_slice() == want
}

/// The place of the first script that doesn't print what stands beside it.
fn first_wrong(alloc: Global, scripts: &[(&[u8], &[u8])]) -> Option<usize> {
    for (at, (script, want)) in scripts.iter().enumerate() {
        if !prints(alloc, script, want) {
            return Some(at);
        }
    }
    None
}

/// Ends of lines.
const ENDS: [(&[u8], &[u8]); 11] = [
    (b"", b""),
    (b"keyspace a", b"ok\n"),
    (b"rules", b"{\"rules\":[]}\n"),
    (b"keyspace a\n", b"ok\n"),
    (b"keyspace a\r\nkeyspace b\r\n", b"ok\nok\n"),
    (b"keyspace a\r\r\n", b"refused X1 BadLine\n"),
    (b"keyspace a\r", b"refused X1 BadLine\n"),
    (b"key\rspace a\n", b"refused X1 BadLine\n"),
    (b"\r\n\r\n", b""),
    (b"\r\r\n", b"refused X1 BadLine\n"),
    (b"\n\n\n", b""),
];

#[test]
fn ends_of_lines(rt: HostRuntime) {
    assert_eq!(rt; first_wrong(rt.alloc(), &ENDS), None);
}

/// Blanks, comments, and bytes that no line may have.
const BLANKS: [(&[u8], &[u8]); 5] = [
    (b"\tkeyspace\t \ta\t\n  table  a\tt  \n", b"ok\nok\n"),
    (b" \t \n\t\n", b""),
    (b"#\n# keyspace a\n#\xff\x00\n", b""),
    (
        b" # keyspace a\nkeyspace a #\n",
        b"refused X1 BadLine\nrefused N9 BadRange\n",
    ),
    (
        b"keyspace \xc3\xa9\nkeyspace \x7f\n\x00\n",
        b"refused X1 BadLine\nrefused X1 BadLine\nrefused X1 BadLine\n",
    ),
];

#[test]
fn blanks_and_comments(rt: HostRuntime) {
    assert_eq!(rt; first_wrong(rt.alloc(), &BLANKS), None);
}

/// Lines of 4,096 and 4,097 bytes, which end in blanks: with a line feed, with a carriage return before it, and without.
fn long_lines(case: &mut Case) -> Result<(), Fail> {
    case.add(b"keyspace a", b"ok\n")?;
    case.repeat(b' ', 4086)?;
    case.add(b"\nkeyspace b", b"refused X2 LineTooLong\n")?;
    case.repeat(b' ', 4087)?;
    case.add(b"\nkeyspace b", b"ok\n")?;
    case.repeat(b'\t', 4086)?;
    case.add(b"\r\nkeyspace c", b"refused X2 LineTooLong\n")?;
    case.repeat(b'\t', 4087)?;
    case.add(b"\r\nkeyspace c", b"refused X2 LineTooLong\n")?;
    case.repeat(b' ', 4087)
}

/// Silent lines of more than 4,096 bytes.
fn long_silent_lines(case: &mut Case) -> Result<(), Fail> {
    case.repeat(b' ', 4097)?;
    case.add(b"\n#", b"")?;
    case.repeat(b'\xff', 4096)?;
    case.add(b"\n", b"")
}

#[test]
fn lines_at_their_limit(rt: HostRuntime) -> Result<(), Fail> {
    let mut case = Case::new(rt.alloc());
    long_lines(&mut case)?;
    assert!(rt; case.holds(rt.alloc()));
    let mut silent = Case::new(rt.alloc());
    long_silent_lines(&mut silent)?;
    assert!(rt; silent.holds(rt.alloc()));
    Ok(())
}

/// A line that blanks make too long.
fn long_line(case: &mut Case, line: &str) -> Result<(), Fail> {
    case.add(line.as_bytes(), b"refused X2 LineTooLong\n")?;
    case.repeat(b' ', 4097)?;
    case.add(b"\n", b"")
}

/// Lines that are refused or answered where they aren't too long.
const LINES: [&str; 9] = [
    "\x01",
    "frobnicate",
    "keyspace",
    "keyspace -a",
    "get t 1",
    "get a.t 1",
    "get a.t x",
    "rules x",
    "dump",
];

/// Tries those lines, each too long.
fn too_long_lines(case: &mut Case) -> Result<(), Fail> {
    for line in LINES.iter() {
        long_line(case, line)?;
    }
    Ok(())
}

#[test]
fn a_long_line_is_told_first(rt: HostRuntime) -> Result<(), Fail> {
    let mut case = Case::new(rt.alloc());
    too_long_lines(&mut case)?;
    assert!(rt; case.holds(rt.alloc()));
    Ok(())
}

/// A comment of as many bytes as are left to a length, behind a line that is answered.
fn fill(case: &mut Case, length: usize) -> Result<(), Fail> {
    case.line("keyspace a", "ok")?;
    case.repeat(b'#', length.saturating_sub(case.len()))
}

#[test]
fn a_script_at_its_limit(rt: HostRuntime) -> Result<(), Fail> {
    let mut case = Case::new(rt.alloc());
    fill(&mut case, 1_048_576)?;
    assert_eq!(rt; case.len(), 1_048_576);
    assert!(rt; case.holds(rt.alloc()));
    case.repeat(b'#', 1)?;
    let mut too_long = case.script();
    assert!(rt; ends(rt.alloc(), &mut too_long, Err(ScriptFault::TooLong), b""));
    Ok(())
}
