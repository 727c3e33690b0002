//! Tables of tests as texts, a row a line. (A long array is evaluated in each proof that goes over it, a text is not.)
#![tactic(auto)]

use std::alloc::{AllocError, Global};
use std::test::Fail;

/// A row `TEXT => EXPECTED` of a table, by the number of its line.
///
/// In both `\n`, `\r`, `\t`, `\0`, `\\` and `\x80` are bytes, `\e` is no byte, and `\(3:ab\)` is `ababab`.
#[derive(Drop)]
pub struct Row {
    pub line: usize,
    pub text: Vec<u8>,
    pub expected: Vec<u8>,
}

/// The rows of a table: its lines, but for empty ones and those that begin with `#`.
pub fn rows(alloc: Global, table: &str) -> Result<Vec<Row>, Fail> {
    let mut rows = Vec::new(alloc);
    for (line, content) in table.split('\n').enumerate() {
        if !content.is_empty() && !content.starts_with('#') {
            rows.push(row_of(alloc, line, content)?)?;
        }
    }
    Ok(rows)
}

fn row_of(alloc: Global, line: usize, content: &str) -> Result<Row, Fail> {
    let Some((text, expected)) = content.split_once(" => ") else {
        return Err(Fail::new("a row without an arrow"));
    };
    Ok(Row {
        line,
        text: bytes_of(alloc, text)?,
        expected: bytes_of(alloc, expected)?,
    })
}

impl Row {
    /// An error that names the line, where this isn't what was found for the row.
    pub fn agrees(&self, found: &[u8]) -> Result<(), Fail> {
        if found == self.expected.as_slice() {
            return Ok(());
        }
        let told = str::from_utf8(found).unwrap_or("other bytes than text");
        let line = self.line;
        Err(Fail::new(format_args!("line {line} gives {told}")))
    }
}

// The bytes that a cell stands for.
fn bytes_of(alloc: Global, cell: &str) -> Result<Vec<u8>, AllocError> {
    let mut reading = Reading {
        alloc,
        bytes: Vec::new(alloc),
        place: Place::Plain,
        from: 0,
        times: 0,
    };
    for byte in cell.as_bytes() {
        reading.take(*byte)?;
    }
    Ok(reading.bytes)
}

// Where the reading of a cell stands.
#[derive(Clone, Copy)]
enum Place {
    Plain,
    Backslash,
    FirstDigit,
    SecondDigit(u8),
    Times(usize),
}

// A cell as far as it is read, and what is to be repeated: from where, and how often.
#[derive(Drop)]
struct Reading {
    alloc: Global,
    bytes: Vec<u8>,
    place: Place,
    from: usize,
    times: usize,
}

impl Reading {
    fn take(&mut self, byte: u8) -> Result<(), AllocError> {
        match self.place {
            Place::Plain => self.take_plain(byte)?,
            Place::Backslash => self.take_escape(byte)?,
            Place::FirstDigit => self.place = Place::SecondDigit(digit(byte)),
            Place::SecondDigit(first) => self.put(
                first.wrapping_mul(16).wrapping_add(digit(byte)),
            )?,
            Place::Times(times) => self.take_times(times, byte),
        }
        Ok(())
    }

    fn put(&mut self, byte: u8) -> Result<(), AllocError> {
        self.place = Place::Plain;
        self.bytes.push(byte)?;
        Ok(())
    }

    fn take_plain(&mut self, byte: u8) -> Result<(), AllocError> {
        if byte == b'\\' {
            self.place = Place::Backslash;
            return Ok(());
        }
        self.put(byte)
    }

    fn take_escape(&mut self, byte: u8) -> Result<(), AllocError> {
        match byte {
            b'n' => self.put(b'\n')?,
            b'r' => self.put(b'\r')?,
            b't' => self.put(b'\t')?,
            b'0' => self.put(0)?,
            b'e' => self.place = Place::Plain,
            b'x' => self.place = Place::FirstDigit,
            b'(' => self.place = Place::Times(0),
            b')' => self.repeat()?,
            _ => self.put(byte)?,
        }
        Ok(())
    }

    // How often the text behind the colon is to stand there.
    fn take_times(&mut self, times: usize, byte: u8) {
        if byte == b':' {
            self.times = times;
            self.from = self.bytes.len();
            self.place = Place::Plain;
            return;
        }
        let ten_times = times.wrapping_mul(10);
        self.place = Place::Times(ten_times.wrapping_add(usize::from(digit(byte))));
    }

    fn repeat(&mut self) -> Result<(), AllocError> {
        self.place = Place::Plain;
        let once = Vec::from_slice(self.alloc, self.bytes.get(self.from..).unwrap_or(&[]))?;
        for _ in 1..self.times {
            self.bytes.extend_from_slice(once.as_slice())?;
        }
        Ok(())
    }
}

fn digit(byte: u8) -> u8 {
    match byte {
        b'0'..=b'9' => byte - b'0',
        b'a'..=b'f' => byte - b'a' + 10,
        _ => 0,
    }
}
